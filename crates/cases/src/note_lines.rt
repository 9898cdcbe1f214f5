// The notes of a sheet, for numbers inside it and outside.
use notes::note;
use std::io::Error;

// Starts and lengths that are tried.
const NUMBERS: [i32; 8] = [-2147483648, -1, 0, 1, 3, 5, 6, 2147483647];

// The notes for one start and every length, `|` after each, on a line.
fn run_start(rt: &impl Print, s: &[u8], start: i32) -> Result<(), Error> {
    for length in NUMBERS {
        rt.write_all(note(s, b"standing", start, length))?;
        rt.write_all(b"|")?;
    }
    rt.write_all(b"\n")
}

// The notes for every start.
pub fn run_notes(rt: &impl Print, s: &[u8]) -> Result<(), Error> {
    for start in NUMBERS {
        run_start(rt, s, start)?;
    }
    Ok(())
}
