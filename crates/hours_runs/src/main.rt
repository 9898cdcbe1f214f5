// Writes what the program `hours` writes for each sheet of standard input: the sheets stand on lines, and one after the last byte 10.
// Its file `stdout` is the second reader's, not its own: python3 tools/reference.py sheets crates/hours_runs/stdin
#![tactic(auto)]

use outputs::{MOST, output};
use prints::read_full;
use std::io::Error;

// A sheet.
fn run(rt: &impl Print, sheet: &[u8]) -> Result<(), Error> {
    let mut out = [0u8; MOST];
    let n = output(sheet, &mut out);
    rt.write_all(&out[..n])
}

// Each sheet.
fn run_all(rt: &impl Print, sheets: &[u8]) -> Result<(), Error> {
    for sheet in sheets.split(|b| *b == b'\n') {
        run(rt, sheet)?;
    }
    Ok(())
}

fn main(rt: HostRuntime) -> Result<(), Error> {
    let mut space = [0u8; 65536];
    let n = read_full(&mut rt.reader(), &mut space);
    run_all(&rt, &space[..n])
}
