// Record words: 16 to a record, unused words are 0, the last is the place in a text of at most 4,096 bytes.
ghost use Rattle.std.specs.Prelude.{◌≤◌, [], ◌∷◌, ◌≡◌, pos, set};
ghost use Rattle.records.specs.Words as w;
ghost use Rattle.records.specs.declared.Item.TheVariants as item;

use crate::{Date, DateSpan, Day, Head, Holiday, Span, Time, WeekDayRange};

// The words of a date without its offset: form, year or 0, month, day or weekday, n signed.
fn day_words(d: Date) -> [i32; 5]
    ensures { result ≡ w.day_words d.year d.day }
{
    let year = i32::from(d.year);
    match d.day {
        Day::Fixed(month, day) => [1, year, i32::from(month), i32::from(day), 0],
        Day::Weekday(month, weekday, nth) => [
            2,
            year,
            i32::from(month),
            i32::from(weekday),
            i32::from(nth),
        ],
        Day::Easter => [3, year, 0, 0, 0],
    }
}

// The words of a time: kind and minutes.
fn time_words(t: Time) -> [i32; 2]
    ensures { result ≡ w.time_words t }
{
    match t {
        Time::Fixed(minutes) => [0, i32::from(minutes)],
        Time::Dawn(minutes) => [1, i32::from(minutes)],
        Time::Sunrise(minutes) => [2, i32::from(minutes)],
        Time::Sunset(minutes) => [3, i32::from(minutes)],
        Time::Dusk(minutes) => [4, i32::from(minutes)],
    }
}

// The repeat in minutes or -1.
fn repeat_word(r: Option<u16>) -> i32
    ensures { result ≡ w.repeat_word r }
{
    r.map_or(-1, i32::from)
}

// A record of its first words: the others are 0.
fn record_of<const N: usize>(words: [i32; N]) -> [i32; 16]
    requires { N ≤ 16 }
    ensures { result ≡ w.record16 words.entry }
{
    let mut record = [0; 16];
    record[..N].copy_from_slice(&words);
    record
}

// A record with its place in the last word.
pub fn placed(words: [i32; 16], place: i32) -> [i32; 16]
    ensures { result ≡ set words 15 place }
{
    let mut record = words;
    record[15] = place;
    record
}

// A record with three numbers after its kind.
pub fn three(kind: i32, a: u16, b: u16, c: u16) -> [i32; 16]
    ensures { result ≡ w.record16 (kind ∷ pos a ∷ pos b ∷ pos c ∷ []) }
{
    record_of([kind, i32::from(a), i32::from(b), i32::from(c)])
}

// The words of dates.
#[tactic(auto, unfolding(crate::specs::Words::words_of))]
pub fn dates_words(r: DateSpan) -> [i32; 16]
    ensures { result ≡ w.words_of (item.Dates r) }
{
    let [form, year, month, day, nth] = day_words(r.start);
    let [end_form, end_year, end_month, end_day, end_nth] = day_words(r.end);
    let words = [
        4,
        form,
        year,
        month,
        day,
        nth,
        i32::from(r.start_offset.wday),
        i32::from(r.start_offset.days),
        end_form,
        end_year,
        end_month,
        end_day,
        end_nth,
        i32::from(r.end_offset.wday),
        i32::from(r.end_offset.days),
    ];
    record_of(words)
}

// The words of weekdays.
#[tactic(auto, unfolding(crate::specs::Words::words_of))]
pub fn weekdays_words(r: WeekDayRange) -> [i32; 16]
    ensures { result ≡ w.words_of (item.Weekdays r) }
{
    let words = [
        6,
        i32::from(r.first),
        i32::from(r.last),
        i32::from(r.days),
        i32::from(r.starts),
        i32::from(r.ends),
    ];
    record_of(words)
}

// The words of a holiday.
#[tactic(auto, unfolding(crate::specs::Words::words_of))]
pub fn holiday_words(r: Holiday) -> [i32; 16]
    ensures { result ≡ w.words_of (item.Holidays r) }
{
    record_of([7, i32::from(r.kind), i32::from(r.days)])
}

// The words of a span.
#[tactic(auto, unfolding(crate::specs::Words::words_of))]
pub fn span_words(r: Span) -> [i32; 16]
    ensures { result ≡ w.words_of (item.Times r) }
{
    let [start_kind, start] = time_words(r.start);
    let [end_kind, end] = time_words(r.end);
    let words = [
        8,
        start_kind,
        start,
        end_kind,
        end,
        repeat_word(r.repeats),
        i32::from(r.open_end),
        i32::from(r.point),
    ];
    record_of(words)
}

// The words of the head of a rule in a text of at most 4,096 bytes.
#[tactic(auto, unfolding(crate::specs::Words::head_words))]
pub fn head_words(h: Head) -> [i32; 16]
    requires { (h.comment.start ≤ 4096) × (h.comment.length ≤ 4096) × (h.items ≤ 4096) × (h.place ≤ 4096) }
    ensures { result ≡ w.head_words h }
{
    let words = [
        1,
        i32::from(h.separator),
        i32::from(h.state),
        h.comment.start as i32,
        h.comment.length as i32,
        h.items as i32,
    ];
    placed(record_of(words), h.place as i32)
}
