// The caller names an edition of the rules by its number.
ghost use Rattle.std.specs.Prelude.{◌≡◌};
ghost use Rattle.calls.specs.Editions as editions;

use names::Manner;

// The manner of an edition's reading: 1 and 2 are known.
#[tactic(auto, unfolding(crate::specs::Editions::edition_of))]
pub fn edition_of(n: u32) -> Option<Manner>
    ensures { result ≡ editions.edition_of n }
{
    match n {
        1 => Some(Manner::First),
        2 => Some(Manner::Second),
        _ => None,
    }
}
