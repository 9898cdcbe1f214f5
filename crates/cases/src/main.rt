// Runs cases, one a line of standard input: four digits for the words of the table, a letter, a byte more, the sheet.
// Writes each line, and what its reading gives: answers and records, as the program `hours` does.
#![tactic(auto)]

mod exchanges;
mod lines;
mod note_lines;
mod readings;

use exchanges::run_exchange;
use lines::{read_line, words_of};
use note_lines::run_notes;
use readings::{run_parts, run_places, run_sheet};
use std::io::{Error, Read};

// S the sheet. P its parts, and the places where they begin. A both. L, for a long sheet, both without the places.
// X, with the number of a part for the byte more, two sheets that differ in that part. N the notes.
fn run_mode(rt: &impl Print, mode: u8, part: u8, sheet: &[u8], words: usize) -> Result<(), Error> {
    match mode {
        b'S' => run_sheet(rt, sheet, words),
        b'P' => {
            run_parts(rt, sheet, words)?;
            run_places(rt, sheet)
        }
        b'A' => {
            run_sheet(rt, sheet, words)?;
            run_parts(rt, sheet, words)?;
            run_places(rt, sheet)
        }
        b'L' => {
            run_sheet(rt, sheet, words)?;
            run_parts(rt, sheet, words)
        }
        b'X' => run_exchange(rt, part, sheet, words),
        b'N' => run_notes(rt, sheet),
        _ => Ok(()),
    }
}

// A line; one that is too short for a case is only written.
fn run_line(rt: &impl Print, line: &[u8]) -> Result<(), Error> {
    rt.write_all(line)?;
    rt.write_all(b"\n")?;
    let [a, b, c, d, mode, part, sheet @ ..] = line else {
        return Ok(());
    };
    run_mode(rt, *mode, *part, sheet, words_of(*a, *b, *c, *d))
}

// Reads a line into this space and runs it; false at the end of the input.
fn run_next(rt: &impl Print, reader: &mut impl Read, space: &mut [u8]) -> Result<bool, Error> {
    let Some(n) = read_line(reader, space) else {
        return Ok(false);
    };
    run_line(rt, &space[..n])?;
    Ok(true)
}

// The same with a space that a line fits into.
fn run_one(rt: &impl Print, reader: &mut impl Read) -> Result<bool, Error> {
    let mut space = [0u8; 8192];
    run_next(rt, reader, &mut space)
}

// (A proved loop has to end, and nothing says that the input does: it counts up to a number that no run comes to.)
fn main(rt: HostRuntime) -> Result<(), Error> {
    let mut reader = rt.reader();
    for _ in 0..u64::MAX {
        if !run_one(&rt, &mut reader)? {
            break;
        }
    }
    Ok(())
}
