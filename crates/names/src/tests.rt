// Tests of numbers.
ghost use Rattle.std.specs.Prelude.{◌≡◌};
ghost use Rattle.names.specs.Tests as t;

// Whether a number is from lo to hi.
#[tactic(auto, unfolding(crate::specs::Tests::within))]
pub fn within(lo: u32, hi: u32, n: u32) -> bool
    ensures { result ≡ t.within lo hi n }
{
    (lo..=hi).contains(&n)
}
