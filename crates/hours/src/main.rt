// Reads a sheet from standard input and writes what it says: the answer's four numbers and each record, one line each.
// Its file `stdin` is a sheet of 4,097 bytes of which the first 4,096 would be accepted; `stdout` is the second reader's: python3 tools/reference.py sheets crates/hours/stdin
#![tactic(auto)]

use outputs::{MOST, output};
use prints::fill;
use std::io::Error;

fn main(rt: HostRuntime) -> Result<(), Error> {
    // (One byte more than a sheet may have shows that it has too many.)
    let mut space = [0u8; 4097];
    let bytes = match fill(&mut rt.reader(), &mut space) {
        Ok(bytes) => bytes,
        Err(cut) => {
            let e = cut.error;
            return eprintln!(rt; "hours: cannot read standard input: {e}");
        }
    };
    let mut out = [0u8; MOST];
    let n = output(&space[..bytes], &mut out);
    if let Err(e) = rt.write_all(&out[..n]) {
        return eprintln!(rt; "hours: cannot write to standard output: {e}");
    }
    Ok(())
}
