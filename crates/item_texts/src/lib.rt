// Items: which of them a sheet can have, their order in a rule, and their text.
#![tactic(auto)]

mod date_tests;
mod day_tests;
mod orders;
mod texts;
mod time_tests;

ghost use Rattle.std.specs.Prelude.{true, ◌≡◌};
ghost use Rattle.sheet_texts.specs.Items as items;

use date_tests::{good_dates, good_months, good_weeks, good_years};
use day_tests::{good_holiday, good_weekdays};
use items::Kind;
pub use orders::{joint_of, sort_of};
use records::Item;
pub use texts::{put_after, put_first};
use time_tests::good_span;

// The sorts of items: weekdays after holidays are weekdays, and a date or a month is a month day.
#[derive(Clone, Copy)]
pub enum Sort {
    Years,
    MonthDays,
    Weeks,
    Weekdays,
    Holidays,
    Times,
}

// What stands before an item of a sort after one of a kind, and as which kind it is read.
#[derive(Clone, Copy)]
pub enum Joint {
    Comma(Kind),
    Colon(Kind),
    Blank(Kind),
}

// Whether a sheet can have an item.
pub fn good_item(a: Item) -> bool
    ensures { result ≡ items.good_item a }
{
    match a {
        Item::Years(r) => good_years(r),
        Item::Months(r) => good_months(r),
        Item::Dates(r) => good_dates(r),
        Item::Weeks(r) => good_weeks(r),
        Item::Weekdays(r) => good_weekdays(r),
        Item::Holidays(r) => good_holiday(r),
        Item::Times(r) => good_span(r),
    }
}
