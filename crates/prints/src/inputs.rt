// Reading.
ghost use Rattle.std.specs.Prelude.{IfErr, IfOk};
ghost use Rattle.io.specs.Counts.{IsPrefixLen};

use std::io::{Error, Read};

// An input that a failed read cut off: how many bytes had been put at the start of the space, and the failure.
#[derive(Drop)]
pub struct Cut {
    pub bytes: usize,
    pub error: Error,
}

// Reads until the space is full or the input ends, and returns how many bytes were put at its start.
pub fn fill(reader: &mut impl Read, space: &mut [u8]) -> Result<usize, Cut>
    ensures whole { IfOk result (λ n. IsPrefixLen n space.new) }
    ensures cut { IfErr result (λ c. IsPrefixLen c.bytes space.new) }
{
    let mut done = 0;
    // (Each turn goes on by what one read gave: no range says where it stands next.)
    while done < space.len() {
        match reader.read(&mut space[done..]) {
            Ok(0) => break,
            Ok(n) => done += n,
            Err(error) => return Err(Cut { bytes: done, error }),
        }
    }
    Ok(done)
}

// The same where a read that fails ends the input.
pub fn read_full(reader: &mut impl Read, space: &mut [u8]) -> usize
    ensures { IsPrefixLen result space.new }
{
    fill(reader, space).unwrap_or_else(|cut| cut.bytes)
}
