// Reads items, one a line: a digit for the kind of list, a blank, the text, a tab, and the answer that it is to give.
// Writes each line whose answer is another, with that answer, and at the end how many lines were read.
#![tactic(auto)]

use items::{HOLIDAYS, Kinds, MONTH_DAYS, Stands, TIMES, WEEK_NUMBERS, WEEKDAYS, YEARS, look_at};
use names::{Cursor, Manner, Refusal};
use prints::{LentPen, read_full};
use records::keep_item;
use std::io::Error;

// The set of the kind of list that a digit stands for, by the number of its records.
fn kinds_of(b: u8) -> Kinds {
    match b {
        b'2' => YEARS,
        b'3' => MONTH_DAYS,
        b'5' => WEEK_NUMBERS,
        b'6' => WEEKDAYS,
        b'7' => HOLIDAYS,
        _ => TIMES,
    }
}

// An answer as a line shows it.
fn show(pen: &mut LentPen, r: Result<Stands, Refusal>) {
    match r {
        Ok(Stands::Item(found, c)) => {
            let mut words = [0i32; 16];
            let mut none = [0u8; 0];
            keep_item(&mut words, &mut none, 0, found.item, 0);
            for w in words {
                pen.put_word(w);
                pen.put(b' ');
            }
            pen.put_all(b"to ");
            pen.put_number(c.at as u64);
        }
        Err(refusal) => {
            pen.put_all(b"refused ");
            pen.put_number(refusal.reason.number() as u64);
        }
        Ok(Stands::Name(_, _) | Stands::Nothing) => pen.put_all(b"none"),
    }
}

// Whether an item is read as it should be; if not, what it gives is written.
fn right(rt: &impl Print, kind: u8, text: &[u8], answer: &[u8]) -> Result<bool, Error> {
    // (16 words, with a blank after each and all that stands beside them, are shorter.)
    let mut space = [0u8; 255];
    let mut pen = LentPen {
        out: &mut space,
        at: 0,
    };
    show(
        &mut pen,
        look_at(text, Manner::First, Cursor { at: 0 }, kinds_of(kind)),
    );
    let n = pen.at.min(255);
    let made = &space[..n];
    if made == answer {
        return Ok(true);
    }
    rt.write_all(text)?;
    rt.write_all(b": ")?;
    rt.write_all(made)?;
    rt.write_all(b"\n")?;
    Ok(false)
}

// Reads each line; one of another form is passed over. How many were read, and how many of them gave another answer. (None is left out: so many there are not.)
fn run(rt: &impl Print, s: &[u8]) -> Result<(u64, u64), Error> {
    let mut lines: u64 = 0;
    let mut other: u64 = 0;
    for line in s.split(|b| *b == b'\n') {
        let Some(tab) = line.iter().position(|b| *b == b'\t') else {
            continue;
        };
        if tab < 2 {
            continue;
        }
        lines = lines.saturating_add(1);
        if !right(rt, line[0], &line[2..tab], &line[tab + 1..])? {
            other = other.saturating_add(1);
        }
    }
    Ok((lines, other))
}

fn main(rt: HostRuntime) -> Result<(), Error> {
    let mut space = io::large_buffer();
    let n = read_full(&mut rt.reader(), &mut space);
    let (lines, other) = run(&rt, &space[..n])?;
    println!(rt; "{lines} items, {other} read otherwise")
}
