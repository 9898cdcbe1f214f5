// Years, weeks and month days.
#![tactic(auto)]

mod bare_ends;
mod dates;
mod ends;
mod meanings;
mod month_days;
mod ranges;
mod weeks;
mod years;

use days::RawOffset;
pub use month_days::{month_day_item, month_day_item_after};
use records::Day;
pub use weeks::week_item;
pub use years::{year_item, year_item_after};

// A month of a year, or of none, which is year 0: `calendar::is_day` takes it so, and `yearless` of specs/BareDays.antt says it.
#[derive(Clone, Copy)]
pub struct YearMonth {
    pub year: u16,
    pub month: u8,
}

// Years or weeks as they are read.
#[derive(Clone, Copy)]
pub struct RawRange {
    pub first: u16,
    pub last: u16,
    pub step: u32,
}

// Months as they are read, and which of their names call for a warning.
#[derive(Clone, Copy)]
pub struct RawMonths {
    pub year: Option<u16>,
    pub first: u8,
    pub last: u8,
    pub odd_first: bool,
    pub odd_last: bool,
}

// A date as it is read without its year, and whether its weekday calls for a warning.
#[derive(Clone, Copy)]
pub struct RawDay {
    pub day: Day,
    pub odd: bool,
}

// A date as it is read, and whether its month or `easter` and its weekday call for a warning.
#[derive(Clone, Copy)]
pub struct RawDate {
    pub year: Option<u16>,
    pub day: Day,
    pub odd_name: bool,
    pub odd_weekday: bool,
}

// How a date item ends, as it is read: nothing after its start, a plus, a date, or a day alone.
#[derive(Clone, Copy)]
pub enum RawEnd {
    Nothing,
    Plus,
    Until(RawDate, RawOffset),
    Bare(u8, RawOffset),
}

// A date item as it is read.
#[derive(Clone, Copy)]
pub struct RawDates {
    pub date: RawDate,
    pub offset: RawOffset,
    pub end: RawEnd,
}
