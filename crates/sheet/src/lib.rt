// A whole sheet, and a part of it, read into a table of words and one of bytes.
#![tactic(auto)]

mod part_readings;
mod sheets;

pub use part_readings::{part_into, part_refusal};
pub use sheets::{refusal, sheet_into};

// The most bytes that a sheet may have.
const LONGEST: usize = 4096;

// What reading a sheet answers: its numbers, as C's callers get them, so that a refusal is a number here too (`Reason::number`).
#[derive(Clone, Copy)]
pub struct Answer {
    pub number: u8,
    pub place: usize,
    pub records: usize,
    pub warnings: usize,
}

// What reading a part answers: the same, and also the next part's place, and whether it was the last.
#[derive(Clone, Copy)]
pub struct PartAnswer {
    pub number: u8,
    pub place: usize,
    pub records: usize,
    pub warnings: usize,
    pub next: usize,
    pub last: bool,
}
