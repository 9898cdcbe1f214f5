// Items of any kind: one look at a place, and the item that stands there, if it is wanted.
#![tactic(auto)]

mod looks;
mod musts;
mod sets;

pub use looks::look_at;
pub use musts::missing;
use names::{Cursor, Word};
use records::Item;
pub use sets::{
    HOLIDAYS, LAST_HOLIDAYS, LAST_WEEKDAYS, MONTH_DAYS, NO_KIND, TIMES, WEEK_NUMBERS, WEEKDAYS,
    WEEKS, YEARS,
};

// The kinds of items in a rule.
#[derive(Clone, Copy, PartialEq, Eq)]
pub enum Kind {
    Years,
    MonthDays,
    // `week` and its first number
    Weeks,
    // a week list's other numbers
    WeekNumbers,
    Weekdays,
    // weekdays after holidays
    LastWeekdays,
    Holidays,
    // holidays after weekdays
    LastHolidays,
    Times,
}

// A set of kinds: a bit for each, so that what may stand at a place is one number.
#[derive(Clone, Copy, PartialEq, Eq)]
pub struct Kinds {
    pub bits: u16,
}

// An item, its place and its kind.
#[derive(Clone, Copy)]
pub struct PlacedItem {
    pub item: Item,
    pub place: usize,
    pub kind: Kind,
}

// What stands at a place: an item that was wanted and the place after it; else a name and the place after it; or neither.
#[derive(Clone, Copy)]
pub enum Stands {
    Item(PlacedItem, Cursor),
    Name(Word, Cursor),
    Nothing,
}
