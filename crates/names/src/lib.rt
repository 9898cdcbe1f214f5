// What every layer reads with: a place in a text, what stands there, numbers and names.
#![tactic(auto)]

mod numbers;
mod refusals;
mod spellings;
mod table;
mod tests;
mod texts;
mod why;

pub use refusals::{Reason, Refusal};
pub use tests::within;
pub use why::Why;

// How a text is read: by the first edition of the rules; by the second, which takes more shapes; or as a house sheet, by the first and judged by the house profile besides.
#[derive(Clone, Copy)]
pub enum Manner {
    First,
    Second,
    House,
}

// A place in a text. Each step takes it by value and hands it back moved on; past the end nothing stands.
#[derive(Clone, Copy)]
pub struct Cursor {
    pub at: usize,
}

// The kinds of names.
#[derive(Clone, Copy, PartialEq, Eq)]
pub enum NameKind {
    Weekday = 1,
    Month,
    Event,
    Easter,
    Modifier,
    Holiday,
    Week,
    Day,
}

// A name: its kind, and which of its kind it is.
#[derive(Clone, Copy)]
pub struct Word {
    pub kind: NameKind,
    pub value: u8,
}

// Which name of a kind it is, and whether it calls for a warning.
#[derive(Clone, Copy)]
pub struct Named {
    pub value: u8,
    pub odd: bool,
}

// A name of any kind, and whether it calls for a warning.
#[derive(Clone, Copy)]
pub struct Spelled {
    pub word: Word,
    pub odd: bool,
}
