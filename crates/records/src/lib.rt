// What the items and the head of a rule are, the words of their records, and what a record tells.
#![tactic(auto)]

mod fits;
mod judging;
mod kept;
mod told;
mod warnings;
mod words;

pub use fits::{between, head_fits, item_fits, up};
pub use judging::{judged, signed};
pub use kept::{keep_head, keep_item};
use names::{Cursor, Reason, Refusal};
pub use told::{byte, item_in, item_of, number, record_in};
pub use warnings::warnings_in;

// Years from first to last, each step'th.
#[derive(Clone, Copy)]
pub struct YearRange {
    pub first: u16,
    pub last: u16,
    pub step: u16,
}

// Weeks from first to last, each step'th.
#[derive(Clone, Copy)]
pub struct WeekRange {
    pub first: u16,
    pub last: u16,
    pub step: u16,
}

// Months from first to last, of a year or, where it is 0, of each; and which of their names call for a warning.
#[derive(Clone, Copy)]
pub struct MonthSpan {
    pub year: u16,
    pub first: u8,
    pub last: u8,
    pub odd_first: bool,
    pub odd_last: bool,
}

// What a date has beside its year: a month and a day; a month, a weekday and which one of the month, from its end where it is below 0; or easter.
#[derive(Clone, Copy, PartialEq, Eq)]
pub enum Day {
    Fixed(u8, u8),
    Weekday(u8, u8, i16),
    Easter,
}

// A date, with its year or 0.
#[derive(Clone, Copy, PartialEq, Eq)]
pub struct Date {
    pub year: u16,
    pub day: Day,
}

// A weekday to go to, the previous where it is below 0, 0 none; and a number of days.
#[derive(Clone, Copy, PartialEq, Eq)]
pub struct DateOffset {
    pub wday: i16,
    pub days: i16,
}

// Which names of a date call for a warning: its month or `easter`, its weekday, the weekday of its offset.
#[derive(Clone, Copy, Default)]
pub struct Odd {
    pub name: bool,
    pub weekday: bool,
    pub offset: bool,
}

// Dates from one to another, and which of their names call for a warning.
#[derive(Clone, Copy)]
pub struct DateSpan {
    pub start: Date,
    pub start_offset: DateOffset,
    pub end: Date,
    pub end_offset: DateOffset,
    pub odd_start: Odd,
    pub odd_end: Odd,
}

// Weekdays from first to last, a number of days later, their flags from the month's start and from its end, and which of their names call for a warning.
#[derive(Clone, Copy)]
pub struct WeekDayRange {
    pub first: u8,
    pub last: u8,
    pub odd_first: bool,
    pub odd_last: bool,
    pub days: i16,
    pub starts: u8,
    pub ends: u8,
}

// A holiday, 1 public, 2 school, and a number of days. (The kind is the number of the name among its kind, and the record's word that C's callers read.)
#[derive(Clone, Copy)]
pub struct Holiday {
    pub kind: u8,
    pub days: i16,
}

// A clock time in minutes, or a sun event with minutes added or taken off.
#[derive(Clone, Copy, PartialEq, Eq)]
pub enum Time {
    Fixed(u16),
    Dawn(i16),
    Sunrise(i16),
    Sunset(i16),
    Dusk(i16),
}

// A span of times, after how many minutes it is repeated, if it is, whether its end is open (a plus), whether it is a time alone, and which of its events call for a warning.
#[derive(Clone, Copy)]
pub struct Span {
    pub start: Time,
    pub end: Time,
    pub repeats: Option<u16>,
    pub open_end: bool,
    pub point: bool,
    pub odd_start: bool,
    pub odd_end: bool,
}

// An item of any kind.
#[derive(Clone, Copy)]
pub enum Item {
    Years(YearRange),
    Months(MonthSpan),
    Dates(DateSpan),
    Weeks(WeekRange),
    Weekdays(WeekDayRange),
    Holidays(Holiday),
    Times(Span),
}

// A comment's first byte and its length, 0 and 0 for none, as the record's words are.
#[derive(Clone, Copy)]
pub struct Comment {
    pub start: usize,
    pub length: usize,
}

// A rule's head: its place, its separator, its state, its comment, how many items it has, and how many warnings its names call for.
// (Separator and state are the record's words that C's callers read, and the state is the number of the modifier's name: an enum would be turned from a number and back.)
#[derive(Clone, Copy)]
pub struct Head {
    pub place: usize,
    pub separator: u8,
    pub state: u8,
    pub comment: Comment,
    pub items: usize,
    pub warnings: usize,
}

// What a shape comes to when it is judged: an item, or why it is refused.
pub type Meant = Result<Item, Reason>;

// What reading an item answers: the item and the place after it, no such shape, or a refusal.
pub type ItemRead = Result<Option<(Item, Cursor)>, Refusal>;

// What a record tells: a rule's head, or an item and its place.
#[derive(Clone, Copy)]
pub enum Record {
    Head(Head),
    Item(Item, usize),
}
