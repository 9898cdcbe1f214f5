// The calls for C on tallies.
ghost use Rattle.std.specs.Prelude.{◌≡◌};
ghost use Rattle.c_calls.specs.Tallies.{add_call, join_call};

use tallies::{Answer, join_bytes, take_in_bytes};

// A tally takes in an answer and its records: the number is returned.
pub fn lorukinde_tally_add(
    tally: &mut [u8],
    number: u32,
    place: u32,
    records: u32,
    warnings: u32,
    table: &[u8],
) -> u32
    ensures { (result, tally.new) ≡ add_call tally.old number place records warnings table.now }
{
    let a = Answer {
        number,
        place,
        records,
        warnings,
    };
    take_in_bytes(tally, a, table)
}

// Another tally is added to a tally: the number is returned.
pub fn lorukinde_tally_join(tally: &mut [u8], other: &[u8]) -> u32
    ensures { (result, tally.new) ≡ join_call tally.old other.now }
{
    join_bytes(tally, other)
}
