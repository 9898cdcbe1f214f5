// What dates and months mean.
ghost use Rattle.std.specs.Prelude.{◌≤◌, ◌≡◌};
ghost use Rattle.days.specs.Offsets.{good_days};
ghost use Rattle.dates.specs.Meanings as meanings;

use crate::bare_ends::{bare_end, last_day};
use crate::{RawDate, RawDates, RawEnd, RawMonths, YearMonth};
use days::{OUT_OF_RANGE, RawOffset};
use names::{Reason, within};
use records::{Date, DateOffset, DateSpan, Day, Item, Meant, MonthSpan, Odd};

// Where a date span starts or ends: a date, its offset, and which of their names call for a warning.
#[derive(Clone, Copy)]
struct SpanEnd {
    date: Date,
    offset: DateOffset,
    odd: Odd,
}

// A year that is there is in range.
fn good_years(year: Option<u16>) -> bool
    ensures { result ≡ meanings.good_years year }
{
    match year {
        Some(n) => within(1900, 9999, n as u32),
        None => true,
    }
}

// n from 1 to 5, from the month's start or from its end.
#[tactic(auto, unfolding(crate::specs::Meanings::good_nth))]
fn good_nth(n: i16) -> bool
    ensures { result ≡ meanings.good_nth n }
{
    (1..=5).contains(&n) || (-5..=-1).contains(&n)
}

// D from 1 to 31, n from 1 to 5.
fn good_day(d: Day) -> bool
    ensures { result ≡ meanings.good_day d }
{
    match d {
        Day::Fixed(_, n) => within(1, 31, n as u32),
        Day::Weekday(_, _, n) => good_nth(n),
        Day::Easter => true,
    }
}

// A date in range.
fn good_date(d: RawDate) -> bool
    ensures { result ≡ meanings.good_date d }
{
    good_years(d.year) && good_day(d.day)
}

// N from 0 to 32,767, either way.
fn good_offset(o: RawOffset) -> bool
    ensures { result ≡ good_days o.days }
{
    OUT_OF_RANGE < o.days
}

// An end in range.
fn good_end(e: RawEnd) -> bool
    ensures { result ≡ meanings.good_end e }
{
    match e {
        RawEnd::Nothing | RawEnd::Plus => true,
        RawEnd::Until(d, o) => good_date(d) && good_offset(o),
        RawEnd::Bare(n, o) => within(1, 31, n as u32) && good_offset(o),
    }
}

// A date item in range.
fn good_dates(r: RawDates) -> bool
    ensures { result ≡ meanings.good_dates r }
{
    good_date(r.date) && good_offset(r.offset) && good_end(r.end)
}

// An offset in range.
fn offset_of(o: RawOffset) -> DateOffset
    ensures { result ≡ meanings.offset_of o }
{
    DateOffset {
        wday: o.wday,
        days: o.days,
    }
}

// A date as it was read, with its year or 0, and its offset.
fn written(d: RawDate, o: RawOffset) -> SpanEnd
    ensures date { result.date ≡ meanings.dated d }
    ensures offset { result.offset ≡ meanings.offset_of o }
    ensures odd { result.odd ≡ meanings.odd_of d o }
{
    SpanEnd {
        date: Date {
            year: d.year.unwrap_or(0),
            day: d.day,
        },
        offset: offset_of(o),
        odd: Odd {
            name: d.odd_name,
            weekday: d.odd_weekday,
            offset: o.odd,
        },
    }
}

// The date of a bare day after a start of each form: after a fixed date by the calendar, after a weekday date in its month and year, after easter refused.
fn bare_date(start: Date, e: u8) -> Result<Date, Reason>
    requires { start.year ≤ 9999 }
    ensures { result ≡ meanings.bare_date start e start.day }
{
    let year = start.year;
    match start.day {
        Day::Fixed(month, d) => Ok(bare_end(YearMonth { year, month }, d, e)),
        Day::Weekday(month, _, _) => Ok(Date {
            year,
            day: Day::Fixed(month, e),
        }),
        Day::Easter => Err(Reason::EasterDay),
    }
}

// From a start to each kind of end: no end is the start with its offset. A name that is not written calls for no warning.
// That the start's year is at most 9999 is asked here, and is no invariant of `Date`: a bare end may be in year 10000, and `records::Date` is both.
fn ended(start: SpanEnd, end: RawEnd) -> Meant
    requires { start.date.year ≤ 9999 }
    ensures { result ≡ meanings.ended start.date start.offset start.odd end }
{
    let quiet = Odd {
        name: false,
        weekday: false,
        offset: false,
    };
    let end = match end {
        RawEnd::Nothing => SpanEnd {
            odd: quiet,
            ..start
        },
        RawEnd::Plus => SpanEnd {
            date: last_day(start.date.year),
            offset: DateOffset { wday: 0, days: 0 },
            odd: quiet,
        },
        RawEnd::Until(d, o) => written(d, o),
        RawEnd::Bare(n, o) => SpanEnd {
            date: bare_date(start.date, n)?,
            offset: offset_of(o),
            odd: Odd {
                offset: o.odd,
                ..quiet
            },
        },
    };
    Ok(Item::Dates(DateSpan {
        start: start.date,
        start_offset: start.offset,
        end: end.date,
        end_offset: end.offset,
        odd_start: start.odd,
        odd_end: end.odd,
    }))
}

// The meaning of a date item.
#[tactic(auto, unfolding(crate::specs::Meanings::date_meaning), using(crate::proofs::Good::start_small))]
pub fn date_meaning(r: RawDates) -> Meant
    ensures { result ≡ meanings.date_meaning r }
{
    if !good_dates(r) {
        return Err(Reason::Range);
    }
    ended(written(r.date, r.offset), r.end)
}

// The meaning of months, which go round: only the year is judged.
#[tactic(auto, unfolding(crate::specs::Meanings::month_meaning))]
pub fn month_meaning(r: RawMonths) -> Meant
    ensures { result ≡ meanings.month_meaning r }
{
    if !good_years(r.year) {
        return Err(Reason::Range);
    }
    Ok(Item::Months(MonthSpan {
        year: r.year.unwrap_or(0),
        first: r.first,
        last: r.last,
        odd_first: r.odd_first,
        odd_last: r.odd_last,
    }))
}
