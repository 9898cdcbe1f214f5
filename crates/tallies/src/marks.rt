// The ordinal marks of a record.
ghost use Rattle.std.specs.Prelude.{◌≤◌, ◌≡◌};
ghost use Rattle.tallies.specs.Counts as counts;

use records::{between, byte};

// How many ordinals a mask of five bits flags.
#[tactic(auto, using(crate::proofs::Ones::low_flagged))]
fn flagged_in(mask: u8) -> u32
    ensures { (result ≡ counts.flagged_in mask) × (result ≤ 5) }
{
    (mask % 32).count_ones()
}

// The ordinal marks of a record.
#[tactic(auto, unfolding(crate::specs::Counts::marks_of))]
pub fn marks_of(w: [i32; 16]) -> u32
    ensures { (result ≡ counts.marks_of w) × (result ≤ 10) }
{
    if between(w[0], 6, 6) {
        flagged_in(byte(w[4])) + flagged_in(byte(w[5]))
    } else {
        0
    }
}
