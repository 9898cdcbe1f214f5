// A sheet's reading, and its parts'.
ghost use Rattle.std.specs.Prelude.{◌≡◌, length};

use calls::{read_part, read_sheet};
use prints::{print_answer, print_number, print_records};
use sheet::PartAnswer;
use std::io::Error;

// What stands in a table before a reading.
const MARK: i32 = 7777;

// A table before a reading.
pub fn fresh_table() -> [i32; 8192]
    ensures { 8192 ≡ length result }
{
    [MARK; 8192]
}

// The first words of a table: so many, or all that it has.
pub fn first_words(table: &mut [i32], words: usize) -> &mut [i32] {
    let n = words.min(table.len());
    &mut table[..n]
}

// Whether the words of a table after its first n records are as they were.
fn is_kept(table: &[i32], n: usize) -> bool {
    table.iter().skip(n.saturating_mul(16)).all(|w| *w == MARK)
}

// The records of an answer. A word after them that was changed gives a line that no case expects.
fn print_table(rt: &impl Print, table: &[i32], n: usize) -> Result<(), Error> {
    print_records(rt, table, n)?;
    if !is_kept(table, n) {
        return rt.write_all(b"changed\n");
    }
    Ok(())
}

// The sheet, read with a table of so many words.
fn show_sheet(rt: &impl Print, s: &[u8], table: &mut [i32], words: usize) -> Result<(), Error> {
    let lent = first_words(table, words);
    let a = read_sheet(s, lent);
    print_answer(rt, a.number, a.place, a.records, a.warnings, b'\n')?;
    print_table(rt, lent, a.records)
}

// The sheet.
pub fn run_sheet(rt: &impl Print, s: &[u8], words: usize) -> Result<(), Error> {
    let mut table = fresh_table();
    show_sheet(rt, s, &mut table, words)
}

// The part at a place, with the next part's place and whether it was the last.
fn show_part(
    rt: &impl Print,
    s: &[u8],
    place: usize,
    table: &mut [i32],
    words: usize,
) -> Result<PartAnswer, Error> {
    let lent = first_words(table, words);
    let a = read_part(s, place, lent);
    print_answer(rt, a.number, a.place, a.records, a.warnings, b' ')?;
    print_number(rt, a.next as u64, b' ')?;
    print_number(rt, u64::from(a.last), b'\n')?;
    print_table(rt, lent, a.records)?;
    Ok(a)
}

// A part.
fn run_part(rt: &impl Print, s: &[u8], place: usize, words: usize) -> Result<PartAnswer, Error> {
    let mut table = fresh_table();
    show_part(rt, s, place, &mut table, words)
}

// Each part, from place 0 on by `next`. A sheet of 4,096 bytes has no more than 4,097.
pub fn run_parts(rt: &impl Print, s: &[u8], words: usize) -> Result<(), Error> {
    let mut place = 0;
    for _ in 0..4097 {
        let a = run_part(rt, s, place, words)?;
        if a.last {
            break;
        }
        place = a.next;
    }
    Ok(())
}

// Writes a place that is not refused as no part's beginning.
fn try_place(rt: &impl Print, s: &[u8], place: usize) -> Result<(), Error> {
    let mut table = [0i32; 16];
    let a = read_part(s, place, &mut table);
    if a.number != 2 {
        return print!(rt; " {place}");
    }
    Ok(())
}

// The places where a part begins: all from 0 to one after the sheet's end are tried, and the largest.
pub fn run_places(rt: &impl Print, s: &[u8]) -> Result<(), Error> {
    rt.write_all(b"B")?;
    for place in 0..s.len() + 2 {
        try_place(rt, s, place)?;
    }
    try_place(rt, s, usize::MAX)?;
    rt.write_all(b"\n")
}
