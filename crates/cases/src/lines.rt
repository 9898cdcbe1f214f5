// The lines of standard input.
ghost use Rattle.std.specs.Prelude.{◌≤◌, IfSome, length};

use prints::read_full;
use std::io::Read;

// The next byte of the input, or none at its end.
fn read_byte(reader: &mut impl Read) -> Option<u8> {
    let mut one = [0u8; 1];
    if read_full(reader, &mut one) == 0 {
        None
    } else {
        Some(one[0])
    }
}

// The bytes up to byte 10, or as many as the space holds: how many they are, or none at the input's end. What stands after the last byte 10 is no line.
pub fn read_line(reader: &mut impl Read, space: &mut [u8]) -> Option<usize>
    ensures { IfSome result (λ n. n ≤ length space.new) }
{
    for n in 0..space.len() {
        match read_byte(reader)? {
            b'\n' => return Some(n),
            b => space[n] = b,
        }
    }
    Some(space.len())
}

// The number that a digit stands for; 0 for another byte.
pub fn digit(b: u8) -> usize
    ensures { result ≤ 9 }
{
    match b {
        b'0'..=b'9' => (b - b'0') as usize,
        _ => 0,
    }
}

// The words of a table: four digits, 8192 at most.
pub fn words_of(a: u8, b: u8, c: u8, d: u8) -> usize
    ensures { result ≤ 8192 }
{
    (digit(a) * 1000 + digit(b) * 100 + digit(c) * 10 + digit(d)).min(8192)
}
