// Which years, weeks, months and dates a sheet can have.
ghost use Rattle.std.specs.Prelude.{◌≡◌};
ghost use Rattle.sheet_texts.specs.Dates as texts;

use crate::day_tests::good_days;
use names::within;
use records::{Date, DateOffset, DateSpan, Day, MonthSpan, WeekRange, YearRange};

// Not inverted, with a step of 1 or at most the difference.
#[tactic(auto, unfolding(sheet_texts::specs::Dates::good_step))]
fn good_step(first: u16, last: u16, n: u16) -> bool
    ensures { result ≡ texts.good_step first last n }
{
    first <= last && (n == 1 || n <= last - first)
}

#[tactic(auto, unfolding(sheet_texts::specs::Dates::good_years))]
pub fn good_years(r: YearRange) -> bool
    ensures { result ≡ texts.good_years r }
{
    within(1900, 9999, u32::from(r.first))
        && within(1900, 9999, u32::from(r.last))
        && good_step(r.first, r.last, r.step)
}

#[tactic(auto, unfolding(sheet_texts::specs::Dates::good_weeks))]
pub fn good_weeks(r: WeekRange) -> bool
    ensures { result ≡ texts.good_weeks r }
{
    within(1, 53, u32::from(r.first))
        && within(1, 53, u32::from(r.last))
        && good_step(r.first, r.last, r.step)
}

// A year, or 0.
#[tactic(auto, unfolding(sheet_texts::specs::Dates::good_year))]
fn good_year(y: u16) -> bool
    ensures { result ≡ texts.good_year y }
{
    y == 0 || within(1900, 9999, u32::from(y))
}

#[tactic(auto, using(sheet_texts::proofs::Named::month_is), unfolding(sheet_texts::specs::Dates::good_months))]
pub fn good_months(r: MonthSpan) -> bool
    ensures { result ≡ texts.good_months r }
{
    good_year(r.year) && within(1, 12, u32::from(r.first)) && within(1, 12, u32::from(r.last))
}

// A date without its year.
#[tactic(auto, using(sheet_texts::proofs::Named::month_is, sheet_texts::proofs::Named::weekday_is, crate::proofs::Laws::nth_is), unfolding(sheet_texts::specs::Dates::good_day))]
fn good_day(d: Day) -> bool
    ensures { result ≡ texts.good_day d }
{
    match d {
        Day::Fixed(m, k) => within(1, 12, u32::from(m)) && within(1, 31, u32::from(k)),
        Day::Weekday(m, w, n) => {
            within(1, 12, u32::from(m))
                && within(1, 7, u32::from(w))
                && within(1, 5, u32::from(n.unsigned_abs()))
        }
        Day::Easter => true,
    }
}

#[tactic(auto, unfolding(sheet_texts::specs::Dates::good_date))]
fn good_date(d: Date) -> bool
    ensures { result ≡ texts.good_date d }
{
    good_year(d.year) && good_day(d.day)
}

#[tactic(auto, using(crate::proofs::Laws::wday_is), unfolding(sheet_texts::specs::Dates::good_offset))]
fn good_offset(o: DateOffset) -> bool
    ensures { result ≡ texts.good_offset o }
{
    o.wday.unsigned_abs() <= 7 && good_days(o.days)
}

// An end in year 10000 is a January day after a later December day.
fn turns(d: Day, e: Day) -> bool
    ensures { result ≡ texts.turns d e }
{
    match (d, e) {
        (Day::Fixed(m, a), Day::Fixed(n, b)) => m == 12 && n == 1 && 1 <= b && b < a,
        _ => false,
    }
}

#[tactic(auto, unfolding(sheet_texts::specs::Dates::good_end))]
fn good_end(r: DateSpan) -> bool
    ensures { result ≡ texts.good_end r }
{
    if r.end.year == 10000 {
        r.start.year == 9999 && turns(r.start.day, r.end.day)
    } else {
        good_date(r.end)
    }
}

#[tactic(auto, unfolding(sheet_texts::specs::Dates::good_dates))]
pub fn good_dates(r: DateSpan) -> bool
    ensures { result ≡ texts.good_dates r }
{
    good_date(r.start) && good_offset(r.start_offset) && good_offset(r.end_offset) && good_end(r)
}
