// What a record tells: a head or an item, if it fits.
ghost use Rattle.std.specs.Prelude.{◌<◌, ◌≡◌};
ghost use Rattle.records.specs.Told as told;

use crate::fits::{head_fits, item_fits};
use crate::{
    Comment, Date, DateOffset, DateSpan, Day, Head, Holiday, Item, MonthSpan, Odd, Record, Span,
    Time, WeekDayRange, WeekRange, YearRange,
};

// A word as a number up to 65,535; another one is taken as 0. `u16::try_from` and, for a byte, `u8::try_from` cost more instructions.
// (Three functions, for three ranges: one for all would be given a type and both bounds.)
#[tactic(auto, unfolding(crate::specs::Told::within, crate::specs::Ranges::between))]
fn half(x: i32) -> u16
    ensures { result ≡ told.half x }
{
    match x {
        0..=65535 => x as u16,
        _ => 0,
    }
}

// A word as a number up to 255; another one is taken as 0.
#[tactic(auto, unfolding(crate::specs::Told::within, crate::specs::Ranges::between))]
pub fn byte(x: i32) -> u8
    ensures { result ≡ told.byte x }
{
    match x {
        0..=255 => x as u8,
        _ => 0,
    }
}

// A word as a number with a sign, up to 32,767; another one is taken as 0.
#[tactic(auto, unfolding(crate::specs::Told::signed_half, crate::specs::Ranges::between))]
fn signed_half(x: i32) -> i16
    ensures { result ≡ told.signed_half x }
{
    match x {
        -32767..=32767 => x as i16,
        _ => 0,
    }
}

// A word as a number from 0 up; one below 0 is taken as 0.
pub fn number(x: i32) -> usize
    ensures { result ≡ told.number_of x }
{
    x.max(0) as usize
}

// The day of a date, by its form.
#[tactic(auto, unfolding(crate::specs::Told::day_at, crate::specs::Ranges::between))]
fn day_of(d: [i32; 7]) -> Day
    ensures { result ≡ told.day_at d 0 }
{
    let [form, _, a, b, nth, ..] = d;
    match form {
        1 => Day::Fixed(byte(a), byte(b)),
        2 => Day::Weekday(byte(a), byte(b), signed_half(nth)),
        _ => Day::Easter,
    }
}

// A date of its seven words.
#[tactic(auto, unfolding(crate::specs::Told::date_at))]
fn date_of(d: [i32; 7]) -> Date
    ensures { result ≡ told.date_at d 0 }
{
    Date {
        year: half(d[1]),
        day: day_of(d),
    }
}

// The offset of a date, in the last two of its words.
#[tactic(auto, unfolding(crate::specs::Told::offset_at))]
fn offset_of(d: [i32; 7]) -> DateOffset
    ensures { result ≡ told.offset_at d 0 }
{
    DateOffset {
        wday: signed_half(d[5]),
        days: signed_half(d[6]),
    }
}

// A time of its two words, its kind and its minutes.
#[tactic(auto, unfolding(crate::specs::Told::time_at, crate::specs::Ranges::between))]
fn time_of(t: [i32; 2]) -> Time
    ensures { result ≡ told.time_at t 0 }
{
    let [kind, minutes] = t;
    match kind {
        0 => Time::Fixed(half(minutes)),
        1 => Time::Dawn(signed_half(minutes)),
        2 => Time::Sunrise(signed_half(minutes)),
        3 => Time::Sunset(signed_half(minutes)),
        _ => Time::Dusk(signed_half(minutes)),
    }
}

#[tactic(auto, unfolding(crate::specs::Told::repeat))]
fn repeat(x: i32) -> Option<u16>
    ensures { result ≡ told.repeat x }
{
    if x >= 0 { Some(half(x)) } else { None }
}

// The items of each kind.
#[tactic(auto, using(crate::proofs::Laws::passed))]
fn years_of(w: [i32; 16]) -> Item
    ensures { result ≡ told.years_in w }
{
    Item::Years(YearRange {
        first: half(w[1]),
        last: half(w[2]),
        step: half(w[3]),
    })
}

fn months_of(w: [i32; 16]) -> Item
    ensures { result ≡ told.months_in w }
{
    Item::Months(MonthSpan {
        year: half(w[1]),
        first: byte(w[2]),
        last: byte(w[3]),
        odd_first: false,
        odd_last: false,
    })
}

#[tactic(auto, unfolding(crate::specs::Told::date_at, crate::specs::Told::day_at, crate::specs::Told::offset_at))]
fn dates_of(w: [i32; 16]) -> Item
    ensures { result ≡ told.dates_in w }
{
    let start = [w[1], w[2], w[3], w[4], w[5], w[6], w[7]];
    let end = [w[8], w[9], w[10], w[11], w[12], w[13], w[14]];
    Item::Dates(DateSpan {
        start: date_of(start),
        start_offset: offset_of(start),
        end: date_of(end),
        end_offset: offset_of(end),
        odd_start: Odd::default(),
        odd_end: Odd::default(),
    })
}

// (As years are: which case of `Item` it is would be all that one function for both is given.)
fn weeks_of(w: [i32; 16]) -> Item
    ensures { result ≡ told.weeks_in w }
{
    Item::Weeks(WeekRange {
        first: half(w[1]),
        last: half(w[2]),
        step: half(w[3]),
    })
}

fn weekdays_of(w: [i32; 16]) -> Item
    ensures { result ≡ told.weekdays_in w }
{
    Item::Weekdays(WeekDayRange {
        first: byte(w[1]),
        last: byte(w[2]),
        odd_first: false,
        odd_last: false,
        days: signed_half(w[3]),
        starts: byte(w[4]),
        ends: byte(w[5]),
    })
}

fn holidays_of(w: [i32; 16]) -> Item
    ensures { result ≡ told.holidays_in w }
{
    Item::Holidays(Holiday {
        kind: byte(w[1]),
        days: signed_half(w[2]),
    })
}

#[tactic(auto, using(crate::proofs::Laws::passed), unfolding(crate::specs::Told::time_at, crate::specs::Ranges::between))]
fn times_of(w: [i32; 16]) -> Item
    ensures { result ≡ told.times_in w }
{
    Item::Times(Span {
        start: time_of([w[1], w[2]]),
        end: time_of([w[3], w[4]]),
        repeats: repeat(w[5]),
        open_end: w[6] == 1,
        point: w[7] == 1,
        odd_start: false,
        odd_end: false,
    })
}

// The item that a record's words are.
#[tactic(auto, unfolding(crate::specs::Told::candidate, crate::specs::Ranges::between))]
pub fn item_of(w: [i32; 16]) -> Item
    ensures { result ≡ told.candidate w }
{
    match w[0] {
        2 => years_of(w),
        3 => months_of(w),
        4 => dates_of(w),
        5 => weeks_of(w),
        6 => weekdays_of(w),
        7 => holidays_of(w),
        _ => times_of(w),
    }
}

// The item of a record that fits, or nothing.
#[tactic(auto, unfolding(crate::specs::Told::item_in))]
pub fn item_in(w: [i32; 16]) -> Option<Item>
    ensures { result ≡ told.item_in w }
{
    if item_fits(w) { Some(item_of(w)) } else { None }
}

// The head that a record's words are.
#[tactic(auto, unfolding(crate::specs::Told::head_at))]
fn head_at(w: [i32; 16]) -> Head
    ensures { result ≡ told.head_at w }
{
    Head {
        place: number(w[15]),
        separator: byte(w[1]),
        state: byte(w[2]),
        comment: Comment {
            start: number(w[3]),
            length: number(w[4]),
        },
        items: number(w[5]),
        warnings: 0,
    }
}

// A head, an item and its place, or nothing.
#[tactic(auto, unfolding(crate::specs::Told::record_in, crate::specs::Ranges::between))]
pub fn record_in(w: [i32; 16]) -> Option<Record>
    ensures { result ≡ told.record_in w }
{
    if w[0] == 1 && head_fits(w) {
        return Some(Record::Head(head_at(w)));
    }
    let item = item_in(w)?;
    Some(Record::Item(item, number(w[15])))
}
