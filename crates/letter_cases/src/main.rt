// Reads texts that begin with a quote, one a line, in hexadecimal; writes each with the place where its characters after that quote end.
// Both what is read and what has to be written are made by tools/make_letter_cases.py, with Python's own decoder.
#![tactic(auto)]

ghost use Rattle.std.specs.Prelude.{◌≤◌};
ghost use Rattle.io.specs.Counts.{IsPrefixLen};

use names::Cursor;
use prints::{print_number, read_full};
use std::io::Error;
use utf8::letters;

// The number that a hexadecimal digit stands for; 0 for another byte.
fn digit(b: u8) -> u8
    ensures { result ≤ 15 }
{
    match b {
        b'0'..=b'9' => b - b'0',
        b'a'..=b'f' => b - b'a' + 10,
        _ => 0,
    }
}

// The bytes that the digits of a line stand for, as many as the space holds, put at its start; how many.
fn decode(line: &[u8], space: &mut [u8]) -> usize
    ensures { IsPrefixLen result space.new }
{
    let (pairs, _) = line.as_chunks::<2>();
    let n = pairs.len().min(space.len());
    for (byte, pair) in space.iter_mut().zip(pairs) {
        *byte = digit(pair[0]) * 16 + digit(pair[1]);
    }
    n
}

// Writes a line and the place where the characters of its text end.
fn run_line(rt: &impl Print, line: &[u8]) -> Result<(), Error> {
    let mut space = [0u8; 64];
    let n = decode(line, &mut space);
    let c = letters(&space[..n], Cursor { at: 1 });
    rt.write_all(line)?;
    rt.write_all(b" ")?;
    print_number(rt, c.at as u64, b'\n')
}

// Whether a byte ends a line: no digit.
fn is_end(b: &u8) -> bool {
    !(b'0'..=b'f').contains(b)
}

// Reads each line. What stands after the last end is one too.
fn run(rt: &impl Print, s: &[u8]) -> Result<(), Error> {
    for piece in s.split_inclusive(is_end) {
        let line = match piece.split_last() {
            Some((b, line)) if is_end(b) => line,
            _ => piece,
        };
        run_line(rt, line)?;
    }
    Ok(())
}

fn main(rt: HostRuntime) -> Result<(), Error> {
    let mut space = io::large_buffer();
    let n = read_full(&mut rt.reader(), &mut space);
    run(&rt, &space[..n])
}
