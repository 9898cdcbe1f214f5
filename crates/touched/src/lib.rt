// Which days a rule's day selectors touch.
#![tactic(auto)]

mod days;
mod selectors;
mod touch_kinds;
mod touches;
mod walk;

pub use days::rule_days;
use lent_slots::Table;
pub use selectors::{item_touch, no_offset, round};
pub use touch_kinds::kind_of;
pub use touches::{best, worst};

// Whether a day is touched: the greater, the better.
#[derive(Clone, Copy, PartialEq, Eq, PartialOrd, Ord)]
pub enum Touch {
    No,
    Undecided,
    Yes,
}

// The kinds of day selectors: years; months and dates; weeks; weekdays and holidays.
#[derive(Clone, Copy, PartialEq, Eq)]
pub enum SelectorKind {
    Year,
    MonthDay,
    Week,
    Weekday,
}

// What is known of a rule after some of its items: of each kind its best item so far, if it has one.
#[derive(Clone, Copy)]
pub struct Found {
    pub years: Option<Touch>,
    pub month_days: Option<Touch>,
    pub weeks: Option<Touch>,
    pub weekdays: Option<Touch>,
}

// The items of a rule: those of a table from a slot up to the next head.
#[derive(Clone, Copy)]
pub struct Items<'a> {
    table: Table<'a>,
    slot: usize,
}
