// The rules of a text, read into tables.
#![tactic(auto)]

mod rule;
mod texts;

use names::{Cursor, Refusal};
pub use texts::fill_rules;

// What is known of a rule: how many items it has, how many warnings, and its first break of the house profile, if it has one.
#[derive(Clone, Copy)]
pub struct Known {
    pub items: usize,
    pub warnings: usize,
    pub first: Option<Refusal>,
}

// How many records the rules of a text have, and how many warnings.
#[derive(Clone, Copy)]
pub struct Counted {
    pub records: usize,
    pub warnings: usize,
}

// What reading a rule finds: what is known of it and the place after it, or a refusal.
pub type RuleRead = Result<(Known, Cursor), Refusal>;

// What reading the rules of a text finds: how many there are and the place after them, or a refusal.
pub type RulesRead = Result<(Counted, Cursor), Refusal>;
