// Whether a record fits: each word in its kind's range, unused words 0, the last word from 0 up.
// The tests of a record are joined by `&`: `&&` was tried and costs more instructions.
ghost use Rattle.std.specs.Prelude.{◌<◌, ◌≡◌, drop};
ghost use Rattle.records.specs.Ranges as ranges;
ghost use Rattle.records.specs.Fits as fits;

// A word is from lo to hi.
#[tactic(auto, unfolding(crate::specs::Ranges::between))]
pub fn between(x: i32, lo: i32, hi: i32) -> bool
    ensures { result ≡ ranges.between lo hi x }
{
    (lo..=hi).contains(&x)
}

// A word is from 0 up.
pub fn up(x: i32) -> bool
    ensures { result ≡ ranges.up x }
{
    x >= 0
}

// The words from k on are 0, but for the last, which is from 0 up.
fn unused(w: [i32; 16], k: usize) -> bool
    requires { k < 16 }
    ensures { result ≡ fits.unused (drop k w) }
{
    for &x in &w[k..15] {
        if x != 0 {
            return false;
        }
    }
    up(w[15])
}

// A word is a year up to the last, or 0.
#[tactic(auto, unfolding(crate::specs::Ranges::year))]
fn year(x: i32, last: i32) -> bool
    ensures { result ≡ ranges.year last x }
{
    between(x, 0, 0) | between(x, 1900, last)
}

// A word is -5 to -1 or 1 to 5.
#[tactic(auto, unfolding(crate::specs::Ranges::nth))]
fn nth(x: i32) -> bool
    ensures { result ≡ ranges.nth x }
{
    !between(x, 0, 0) & between(x, -5, 5)
}

// A head: separator, state, comment start and length, number of items.
#[tactic(auto, using(crate::proofs::Laws::passed), unfolding(crate::specs::Fits::head_fits, crate::specs::Fits::passes))]
pub fn head_fits(w: [i32; 16]) -> bool
    ensures { result ≡ fits.head_fits w }
{
    between(w[1], 0, 2) & between(w[2], 0, 2) & up(w[3]) & up(w[4]) & up(w[5]) & unused(w, 6)
}

#[tactic(auto, unfolding(crate::specs::Fits::passes))]
fn years_fit(w: [i32; 16]) -> bool
    ensures { result ≡ fits.years_fit w }
{
    between(w[1], 1900, 9999) & between(w[2], 1900, 9999) & between(w[3], 0, 32767) & unused(w, 4)
}

#[tactic(auto, unfolding(crate::specs::Fits::passes))]
fn months_fit(w: [i32; 16]) -> bool
    ensures { result ≡ fits.months_fit w }
{
    year(w[1], 9999) & between(w[2], 1, 12) & between(w[3], 1, 12) & unused(w, 4)
}

#[tactic(auto, unfolding(crate::specs::Fits::passes))]
fn weeks_fit(w: [i32; 16]) -> bool
    ensures { result ≡ fits.weeks_fit w }
{
    between(w[1], 1, 53) & between(w[2], 1, 53) & between(w[3], 0, 255) & unused(w, 4)
}

#[tactic(auto, using(crate::proofs::Laws::passed), unfolding(crate::specs::Fits::passes))]
fn weekdays_fit(w: [i32; 16]) -> bool
    ensures { result ≡ fits.weekdays_fit w }
{
    between(w[1], 1, 7)
        & between(w[2], 1, 7)
        & between(w[3], -32767, 32767)
        & between(w[4], 0, 31)
        & between(w[5], 0, 31)
        & unused(w, 6)
}

#[tactic(auto, unfolding(crate::specs::Fits::passes))]
fn holidays_fit(w: [i32; 16]) -> bool
    ensures { result ≡ fits.holidays_fit w }
{
    between(w[1], 1, 2) & between(w[2], -32767, 32767) & unused(w, 3)
}

// A date with its offset in seven words, of each form.
#[tactic(auto, using(crate::proofs::Laws::passed), unfolding(crate::specs::Fits::passes))]
fn fixed_fits(d: [i32; 7], last: i32) -> bool
    ensures { result ≡ fits.passes (ranges.fixed last) 0 d }
{
    let [form, year_word, month, day, unused, weekdays, days] = d;
    between(form, 1, 1)
        & year(year_word, last)
        & between(month, 1, 12)
        & between(day, 1, 31)
        & between(unused, 0, 0)
        & between(weekdays, -7, 7)
        & between(days, -32767, 32767)
}

#[tactic(auto, using(crate::proofs::Laws::passed), unfolding(crate::specs::Fits::passes))]
fn weekday_fits(d: [i32; 7]) -> bool
    ensures { result ≡ fits.passes ranges.weekday 0 d }
{
    let [form, year_word, month, weekday, n, weekdays, days] = d;
    between(form, 2, 2)
        & year(year_word, 9999)
        & between(month, 1, 12)
        & between(weekday, 1, 7)
        & nth(n)
        & between(weekdays, -7, 7)
        & between(days, -32767, 32767)
}

#[tactic(auto, using(crate::proofs::Laws::passed), unfolding(crate::specs::Fits::passes))]
fn easter_fits(d: [i32; 7]) -> bool
    ensures { result ≡ fits.passes ranges.easter 0 d }
{
    let [form, year_word, a, b, c, weekdays, days] = d;
    between(form, 3, 3)
        & year(year_word, 9999)
        & between(a, 0, 0)
        & between(b, 0, 0)
        & between(c, 0, 0)
        & between(weekdays, -7, 7)
        & between(days, -32767, 32767)
}

#[tactic(auto, unfolding(crate::specs::Fits::date_fits, crate::specs::Fits::passes, crate::specs::Ranges::between))]
fn date_fits(d: [i32; 7], last: i32) -> bool
    ensures { result ≡ fits.date_fits last 0 d }
{
    match d[0] {
        1 => fixed_fits(d, last),
        2 => weekday_fits(d),
        3 => easter_fits(d),
        _ => false,
    }
}

#[tactic(auto, using(crate::proofs::Laws::passed), unfolding(crate::specs::Fits::date_fits, crate::specs::Fits::passes))]
fn dates_fit(w: [i32; 16]) -> bool
    ensures { result ≡ fits.dates_fit w }
{
    let start = [w[1], w[2], w[3], w[4], w[5], w[6], w[7]];
    let end = [w[8], w[9], w[10], w[11], w[12], w[13], w[14]];
    date_fits(start, 9999) & date_fits(end, 10000) & unused(w, 15)
}

// A time in two words, its kind and its minutes. A match on its kind was tried and costs more instructions.
#[tactic(auto, unfolding(crate::specs::Fits::time_fits, crate::specs::Fits::passes))]
fn time_fits(t: [i32; 2], last: i32) -> bool
    ensures { result ≡ fits.time_fits last 0 t }
{
    let [kind, minutes] = t;
    between(kind, 0, 0) & between(minutes, 0, last)
        | between(kind, 1, 4) & between(minutes, -1440, 1440)
}

// Repeat, open end, a time alone.
#[tactic(auto, unfolding(crate::specs::Fits::passes))]
fn tail_fits(w: [i32; 16]) -> bool
    ensures { result ≡ fits.passes ranges.tail 5 w }
{
    between(w[5], -1, 1439) & between(w[6], 0, 1) & between(w[7], 0, 1)
}

#[tactic(auto, using(crate::proofs::Laws::passed), unfolding(crate::specs::Fits::time_fits, crate::specs::Fits::passes))]
fn times_fit(w: [i32; 16]) -> bool
    ensures { result ≡ fits.times_fit w }
{
    time_fits([w[1], w[2]], 1440) & time_fits([w[3], w[4]], 2880) & tail_fits(w) & unused(w, 8)
}

// An item, by its kind.
#[tactic(auto, unfolding(crate::specs::Fits::item_fits, crate::specs::Ranges::between))]
pub fn item_fits(w: [i32; 16]) -> bool
    ensures { result ≡ fits.item_fits w }
{
    match w[0] {
        2 => years_fit(w),
        3 => months_fit(w),
        4 => dates_fit(w),
        5 => weeks_fit(w),
        6 => weekdays_fit(w),
        7 => holidays_fit(w),
        8 => times_fit(w),
        _ => false,
    }
}
