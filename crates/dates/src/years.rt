// Year: `YYYY`, `YYYY+`, `YYYY-YYYY`, `YYYY-YYYY/N`.
ghost use Rattle.std.specs.Prelude.{◌≡◌};
ghost use Rattle.names.specs.Seen.{seen_then};
ghost use Rattle.records.specs.Seen.{seen_item};
ghost use Rattle.dates.specs.Years as years;

use crate::RawRange;
use crate::ranges::{good_range, range_after, step_of};
use names::{Cursor, Reason};
use records::{Item, ItemRead, Meant, YearRange, judged};

// The shape after the first year: `YYYY+` ends in 9999.
#[tactic(auto, unfolding(crate::specs::Years::year_after))]
fn year_after(s: &[u8], c: Cursor, first: u16) -> (RawRange, Cursor)
    ensures { years.year_after first s.now c.at ≡ seen_then (λ a. a) result }
{
    match c.sign(s, b'+') {
        Some(d) => {
            let range = RawRange {
                first,
                last: 9999,
                step: 1,
            };
            (range, d)
        }
        None => range_after(s, c, first, 4, 4),
    }
}

// The meaning: first above last is refused, a step above last minus first becomes 1.
#[tactic(auto, unfolding(crate::specs::Years::year_meaning))]
fn year_meaning(r: RawRange) -> Meant
    ensures { result ≡ years.year_meaning r }
{
    if !good_range(1900, 9999, r) {
        return Err(Reason::Range);
    }
    if r.last < r.first {
        return Err(Reason::YearsInverted);
    }
    Ok(Item::Years(YearRange {
        first: r.first,
        last: r.last,
        step: step_of(r),
    }))
}

// The item that begins at p, after its first year.
#[tactic(auto, unfolding(crate::specs::Years::year_item_after))]
pub fn year_item_after(s: &[u8], p: usize, c: Cursor, first: u16) -> ItemRead
    ensures { years.year_item_after p first s.now c.at ≡ seen_item result }
{
    let (range, d) = year_after(s, c, first);
    judged(p, year_meaning(range), d)
}

// An item of a year list.
#[tactic(auto, unfolding(crate::specs::Years::year_item, crate::specs::Years::year_item_after, crate::specs::Years::year_shape))]
pub fn year_item(s: &[u8], c: Cursor) -> ItemRead
    ensures { years.year_item s.now c.at ≡ seen_item result }
{
    match c.year(s) {
        Some((first, d)) => year_item_after(s, c.at, d, first as u16),
        None => Ok(None),
    }
}
