// Years and weeks: first, last and step.
ghost use Rattle.std.specs.Prelude.{◌≤◌, ◌≡◌};
ghost use Rattle.names.specs.Numbers.{number};
ghost use Rattle.names.specs.Seen.{seen, seen_then};
ghost use Rattle.dates.specs.Ranges as ranges;

use crate::RawRange;
use names::{Cursor, within};

// `/N`, or 1.
#[tactic(auto, unfolding(crate::specs::Ranges::stepped))]
fn stepped(s: &[u8], c: Cursor) -> (u32, Cursor)
    ensures { ranges.stepped s.now c.at ≡ seen_then (λ a. a) result }
{
    if let Some(d) = c.sign(s, b'/')
        && let Some(step) = d.count(s)
    {
        return step;
    }
    (1, c)
}

// After the first: `-` and a last of so many digits at least, and at most, and its step.
#[tactic(auto, unfolding(crate::specs::Ranges::until_last))]
fn until_last(s: &[u8], c: Cursor, first: u16, least: u32, most: u32) -> Option<(RawRange, Cursor)>
    requires { most ≤ 4 }
    ensures { ranges.until_last (number least most) first s.now c.at ≡ seen (λ a. a) result }
{
    let (last, d) = c.sign(s, b'-')?.number(s, least, most)?;
    let (step, e) = stepped(s, d);
    let range = RawRange {
        first,
        last: last as u16,
        step,
    };
    Some((range, e))
}

// The same, or the first alone.
pub fn range_after(s: &[u8], c: Cursor, first: u16, least: u32, most: u32) -> (RawRange, Cursor)
    requires { most ≤ 4 }
    ensures { ranges.range_after (number least most) first s.now c.at ≡ seen_then (λ a. a) result }
{
    let alone = RawRange {
        first,
        last: first,
        step: 1,
    };
    until_last(s, c, first, least, most).unwrap_or((alone, c))
}

// Numbers in range: first and last from lo to hi.
#[tactic(auto, unfolding(crate::specs::Ranges::good_range))]
pub fn good_range(lo: u32, hi: u32, r: RawRange) -> bool
    ensures { result ≡ ranges.good_range lo hi r }
{
    within(lo, hi, r.first as u32) && within(lo, hi, r.last as u32) && r.step <= 32767
}

// A step above last minus first becomes 1.
#[tactic(auto, unfolding(crate::specs::Ranges::step_of))]
pub fn step_of(r: RawRange) -> u16
    requires { r.first ≤ r.last }
    ensures { result ≡ ranges.step_of r.first r.last r.step }
{
    if (r.last - r.first) as u32 >= r.step {
        r.step as u16
    } else {
        1
    }
}
