// Weekdays, holidays and the offsets that days may have.
#![tactic(auto)]

mod entries;
mod holidays;
mod offsets;
mod weekdays;

pub use holidays::{holiday_item, holiday_item_after};
pub use offsets::{OUT_OF_RANGE, day_offset, offset};
pub use weekdays::{weekday_item, weekday_item_after};

// An offset as it is read: a weekday to go to, the previous where it is below 0, 0 none; a number of days; and whether the weekday's name calls for a warning.
#[derive(Clone, Copy)]
pub struct RawOffset {
    pub wday: i16,
    pub days: i16,
    pub odd: bool,
}

// Which of a month's weekdays are meant: the first to the fifth.
// Five fields, and no mask or array: the definitions set_all and bits (specs/Entries.antt) name each.
#[derive(Clone, Copy)]
pub struct Flags {
    pub one: bool,
    pub two: bool,
    pub three: bool,
    pub four: bool,
    pub five: bool,
}

// An entry of a weekday: from the month's end or not, first and last.
#[derive(Clone, Copy)]
pub struct Entry {
    pub back: bool,
    pub first: u8,
    pub last: u8,
}

// The flags that entries set, from the month's start and from its end, and whether all their numbers are in range.
// (No option: entries are read to their end whatever their numbers, as `marked` of specs/Entries says.)
#[derive(Clone, Copy)]
pub struct Marks {
    pub starts: Flags,
    pub ends: Flags,
    pub good: bool,
}

// Weekdays as they are read, and which of their names call for a warning.
#[derive(Clone, Copy)]
pub struct RawWeekdays {
    pub first: u8,
    pub last: u8,
    pub marks: Marks,
    pub days: i16,
    pub odd_first: bool,
    pub odd_last: bool,
}
