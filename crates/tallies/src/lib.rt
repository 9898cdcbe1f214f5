// Tallies: counts over answers and their records.
#![tactic(auto)]

mod answers;
mod joins;
mod marks;
mod refusals;
mod stored;
mod sums;
mod totals;

pub use answers::taken_in;
pub use joins::{join_bytes, joined};
pub use refusals::TallyRefusal;
pub use stored::take_in_bytes;

// How many counts a tally has.
pub const COUNTS: usize = 34;

// How many of them are of answers by their numbers, 0 to 23.
const NUMBERS: usize = 24;

// How many are after those, from word 24 on.
const TOTALS: usize = 10;

// The counts: word n, 0 to 23, answers with the number n; 24 answers taken in; 25 warnings; 24 + k items of kind k, 2 to 8; 33 marks.
#[derive(Clone, Copy)]
pub struct Tally {
    pub counts: [u32; COUNTS],
}

// What a reading answered: numbers that C's callers give, whatever they are, so that a refusal is a number here.
#[derive(Clone, Copy)]
pub struct Answer {
    pub number: u32,
    pub place: u32,
    pub records: u32,
    pub warnings: u32,
}
