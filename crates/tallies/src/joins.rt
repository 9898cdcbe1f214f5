// Two tallies joined.
ghost use Rattle.std.specs.Prelude.{◌≡◌, [], OnOk, length};
ghost use Rattle.tallies.specs.Answers.{numbers};
ghost use Rattle.tallies.specs.Stored.{stored_in};
ghost use Rattle.tallies.specs.Joins as joins;

use crate::stored::{answered, tally_in};
use crate::sums::raised;
use crate::{Tally, TallyRefusal};

// A tally with another one's counts added: 15 if a sum would pass the limit; a refusal leaves the tally.
#[tactic(auto, using(crate::proofs::JoinLaws::join_steps))]
pub fn joined(tally: Tally, other: Tally) -> Result<Tally, TallyRefusal>
    ensures { numbers tally.counts result ≡ joins.joined_to tally.counts other.counts }
{
    let counts = raised(tally.counts, 0, &other.counts).ok_or(TallyRefusal::OverTheLimit)?;
    Ok(Tally { counts })
}

// The same of tallies in bytes.
#[tactic(auto, using(crate::proofs::JoinLaws::byte_steps))]
fn joined_of_bytes(b: &[u8], other: &[u8]) -> Result<Tally, TallyRefusal>
    ensures long { OnOk result (length b.now ≡ 136) }
    ensures gives { stored_in b.now (numbers [] result) ≡ joins.joined_bytes b.now other.now }
{
    joined(tally_in(b)?, tally_in(other)?)
}

// A tally of bytes with another one's counts added; 16 if one has another length than 136. C takes the number, so this gives no Result.
pub fn join_bytes(b: &mut [u8], other: &[u8]) -> u32
    ensures { (result, b.new) ≡ joins.joined_bytes b.old other.now }
{
    let outcome = joined_of_bytes(b, other);
    answered(b, outcome)
}
