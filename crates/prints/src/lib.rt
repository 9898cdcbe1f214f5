// What the programs write: numbers and lines of numbers, into lent bytes (`LentPen`) or to standard output, a blank or the line's end after each.
// A write that fails ends what is printed, and its error is returned. And how they read their input (`fill`).
#![tactic(auto)]

mod inputs;
mod pens;

pub use inputs::{Cut, fill, read_full};
pub use pens::{LentPen, Pen};
use std::io::Error;

// A number, and the byte after it.
pub fn print_number(rt: &impl Print, n: u64, end: u8) -> Result<(), Error> {
    print!(rt; "{n}")?;
    rt.write_all(&[end])
}

// A record's words on a line, of 16 times 12 bytes at most.
fn print_record(rt: &impl Print, words: &[i32; 16]) -> Result<(), Error> {
    let mut line = [0u8; 192];
    let n = Pen { at: 0 }.put_line(&mut line, words).at;
    rt.write_all(&line[..n])
}

// The first n records of a table, each on a line; those that it has not are left out. (A reading leaves the words after them as they were.)
pub fn print_records(rt: &impl Print, table: &[i32], n: usize) -> Result<(), Error> {
    let (records, _) = table.as_chunks::<16>();
    for words in records.iter().take(n) {
        print_record(rt, words)?;
    }
    Ok(())
}

// The four numbers of an answer, and the byte after them.
pub fn print_answer(
    rt: &impl Print,
    number: u8,
    place: usize,
    records: usize,
    warnings: usize,
    end: u8,
) -> Result<(), Error> {
    print_number(rt, u64::from(number), b' ')?;
    print_number(rt, place as u64, b' ')?;
    print_number(rt, records as u64, b' ')?;
    print_number(rt, warnings as u64, end)
}
