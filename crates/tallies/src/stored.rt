// A tally in 136 bytes: 34 counts of 32 bits, the lowest byte first.
ghost use Rattle.std.specs.Prelude.{◌≤◌, ◌≡◌, [], OnOk, length};
ghost use Rattle.tallies.specs.Answers.{numbers};
ghost use Rattle.tallies.specs.Stored as stored;

use crate::answers::taken_in;
use crate::{Answer, COUNTS, Tally, TallyRefusal};
use lent_slots::{Table, number_in, put_word};

// How many bytes a tally takes: four to a count.
const TALLY_BYTES: usize = COUNTS * 4;

// The counts of a tally.
#[tactic(auto, using(crate::proofs::OfBytes::read_steps))]
pub fn counts_in(b: &[u8]) -> [u32; COUNTS]
    requires { 136 ≤ length b.now }
    ensures { result ≡ stored.counts_in b.now }
{
    let mut c = [0; COUNTS];
    for (i, count) in c.iter_mut().enumerate() {
        *count = number_in(b, i * 4);
    }
    c
}

// The counts go into a tally.
#[tactic(auto, using(crate::proofs::OfBytes::store_steps))]
pub fn store(b: &mut [u8], c: [u32; COUNTS])
    requires { length b.old ≡ 136 }
    ensures { b.new ≡ stored.bytes_of c }
{
    for (i, count) in c.iter().enumerate() {
        put_word(b, i * 4, *count);
    }
}

// The tally that bytes hold, where they have its length.
#[tactic(auto, unfolding(crate::specs::Stored::tally_in))]
pub fn tally_in(b: &[u8]) -> Result<Tally, TallyRefusal>
    ensures { result ≡ stored.tally_in b.now }
{
    if b.len() != TALLY_BYTES {
        return Err(TallyRefusal::NoFit);
    }
    let counts = counts_in(b);
    Ok(Tally { counts })
}

// What became of a tally goes into its bytes, and its number is answered; a refusal leaves the bytes.
pub fn answered(b: &mut [u8], outcome: Result<Tally, TallyRefusal>) -> u32
    requires { OnOk outcome (length b.old ≡ 136) }
    ensures { (result, b.new) ≡ stored.stored_in b.old (numbers [] outcome) }
{
    match outcome {
        Ok(tally) => {
            store(b, tally.counts);
            0
        }
        Err(refusal) => refusal.number(),
    }
}

// What becomes of the tally in bytes that takes in an answer and its records.
#[tactic(auto, using(crate::proofs::Judged::byte_steps))]
fn taken_of_bytes(b: &[u8], a: Answer, table: &[u8]) -> Result<Tally, TallyRefusal>
    ensures long { OnOk result (length b.now ≡ 136) }
    ensures gives { stored.stored_in b.now (numbers [] result) ≡ stored.taken_in_bytes b.now a table.now }
{
    taken_in(tally_in(b)?, a, Table::of_bytes(table))
}

// A tally of bytes takes in an answer and its records, a table of bytes; 16 too for a tally of another length. C takes the number, so this gives no Result.
pub fn take_in_bytes(b: &mut [u8], a: Answer, table: &[u8]) -> u32
    ensures { (result, b.new) ≡ stored.taken_in_bytes b.old a table.now }
{
    let outcome = taken_of_bytes(b, a, table);
    answered(b, outcome)
}
