// Weeks: after `week` and a blank, `W`, `W-W`, `W-W/N`.
ghost use Rattle.std.specs.Prelude.{◌≡◌};
ghost use Rattle.names.specs.Seen.{seen};
ghost use Rattle.records.specs.Seen.{seen_item};
ghost use Rattle.dates.specs.Weeks as weeks;

use crate::RawRange;
use crate::ranges::{good_range, range_after, step_of};
use names::{Cursor, Reason};
use records::{Item, ItemRead, Meant, WeekRange, judged};

// The shape.
#[tactic(auto, unfolding(crate::specs::Weeks::week_shape))]
fn week_shape(s: &[u8], c: Cursor) -> Option<(RawRange, Cursor)>
    ensures { weeks.week_shape s.now c.at ≡ seen (λ a. a) result }
{
    let (first, d) = c.short(s)?;
    Some(range_after(s, d, first as u16, 1, 2))
}

// The meaning: a step above 255 is refused, then first above last; a step above last minus first becomes 1.
// It stands beside `year_meaning`, since weeks have one test more, between the two that both have: one function for both would take the bounds, that test and the reasons.
#[tactic(auto, unfolding(crate::specs::Weeks::week_meaning))]
fn week_meaning(r: RawRange) -> Meant
    ensures { result ≡ weeks.week_meaning r }
{
    if !good_range(1, 53, r) {
        return Err(Reason::Range);
    }
    if 255 < r.step {
        return Err(Reason::WeekStep);
    }
    if r.last < r.first {
        return Err(Reason::WeeksInverted);
    }
    Ok(Item::Weeks(WeekRange {
        first: r.first,
        last: r.last,
        step: step_of(r),
    }))
}

// An item of a week list.
#[tactic(auto, unfolding(crate::specs::Weeks::week_item))]
pub fn week_item(s: &[u8], c: Cursor) -> ItemRead
    ensures { weeks.week_item s.now c.at ≡ seen_item result }
{
    match week_shape(s, c) {
        Some((r, d)) => judged(c.at, week_meaning(r), d),
        None => Ok(None),
    }
}
