// Counts added up, with a limit: that of their type.
ghost use Rattle.std.specs.Prelude.{◌+◌, ◌<◌, ◌++◌, ◌≡◌, length, replicate, set};
ghost use Rattle.tallies.specs.Sums as sums;

use crate::{COUNTS, NUMBERS, TOTALS};

// The counts from a place on are raised, up to the last one; nothing, if one would pass the limit.
pub fn raised(t: [u32; COUNTS], at: usize, more: &[u32]) -> Option<[u32; COUNTS]>
    requires { at + length more.now ≡ 34 }
    ensures { result ≡ sums.sum_within t (replicate at 0 ++ more.now) }
{
    let mut s = t;
    for (i, by) in more.iter().enumerate() {
        s[at + i] = t[at + i].checked_add(*by)?;
    }
    Some(s)
}

// One count is raised by 1.
fn one_more(t: [u32; COUNTS], n: usize) -> Option<[u32; COUNTS]>
    requires { n < 34 }
    ensures { result ≡ sums.sum_within t (set (replicate 34 0) n 1) }
{
    let mut s = t;
    s[n] = t[n].checked_add(1)?;
    Some(s)
}

// The count of a number is raised by 1, and those from word 24 on by these.
#[tactic(auto, using(crate::proofs::Raises::number_steps))]
pub fn summed(t: [u32; COUNTS], n: usize, more: [u32; TOTALS]) -> Option<[u32; COUNTS]>
    requires { n < 24 }
    ensures { result ≡ sums.sum_within t (set (replicate 24 0) n 1 ++ more) }
{
    raised(one_more(t, n)?, NUMBERS, &more)
}
