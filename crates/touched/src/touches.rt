// No, undecided or yes: the best and the worst of two.
ghost use Rattle.std.specs.Prelude.{◌≡◌};
ghost use Rattle.touched.specs.Touches as touches;

use crate::Touch;

// The best: yes before undecided before no.
pub fn best(a: Touch, b: Touch) -> Touch
    ensures { result ≡ touches.best a b }
{
    a.max(b)
}

// The worst: no before undecided before yes.
pub fn worst(a: Touch, b: Touch) -> Touch
    ensures { result ≡ touches.worst a b }
{
    a.min(b)
}

// A test that is made.
pub fn decided(t: bool) -> Touch
    ensures { result ≡ touches.decided t }
{
    if t { Touch::Yes } else { Touch::No }
}

// The number of an answer. It is not the answer's place in their order.
impl From<Touch> for u32 {
    ghost from_gives = { λ t n. n ≡ touches.touch_word t };

    fn from(t: Touch) -> u32 {
        match t {
            Touch::No => 0,
            Touch::Yes => 1,
            Touch::Undecided => 2,
        }
    }
}
