// A bare end day after a fixed date: the first day of the calendar with that number, not before the start.
ghost use Rattle.std.specs.Prelude.{◌≤◌, ◌≡◌};
ghost use Rattle.dates.specs.BareEnds as bare;

use crate::YearMonth;
use calendar::is_day;
use records::{Date, Day};

// The next month: December gives January, a present year plus 1.
#[tactic(auto, unfolding(crate::specs::BareEnds::next_month, crate::specs::BareEnds::next_year))]
fn next_month(a: YearMonth) -> YearMonth
    requires { a.year ≤ 10000 }
    ensures { result ≡ bare.next_month a }
{
    if a.month < 12 {
        return YearMonth {
            month: a.month + 1,
            ..a
        };
    }
    let year = if a.year == 0 { 0 } else { a.year + 1 };
    YearMonth { year, month: 1 }
}

// Bare end day e after day d of month a: the first day of the calendar with that number, not before the start.
#[tactic(auto, unfolding(crate::specs::BareEnds::bare_end, crate::specs::BareEnds::month_from, crate::specs::BareEnds::first_with), using(crate::proofs::Good::next_small))]
pub fn bare_end(a: YearMonth, d: u8, e: u8) -> Date
    requires { a.year ≤ 9999 }
    ensures { result ≡ bare.bare_end a d e }
{
    // The first month in which day e does not come before day d of month a.
    let from = if d <= e { a } else { next_month(a) };
    // The first month from there on with a day e by the calendar: of two months in a row, one has 31 days.
    let end = if is_day(from.year, from.month, e) {
        from
    } else {
        next_month(from)
    };
    Date {
        year: end.year,
        day: Day::Fixed(end.month, e),
    }
}

// `+`: 31 December, of 9999 if the start has a year, else yearless.
#[tactic(auto, unfolding(crate::specs::BareEnds::last_day))]
pub fn last_day(y: u16) -> Date
    ensures { result ≡ bare.last_day y }
{
    Date {
        year: if y == 0 { 0 } else { 9999 },
        day: Day::Fixed(12, 31),
    }
}
