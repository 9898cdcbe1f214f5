// Holiday: `PH` or `SH` with optional day offset.
ghost use Rattle.std.specs.Prelude.{◌≡◌};
ghost use Rattle.records.specs.Seen.{seen_item};
ghost use Rattle.days.specs.Holidays as holidays;

use crate::offsets::{OUT_OF_RANGE, any_days};
use names::{Cursor, NameKind, Reason};
use records::{Holiday, Item, ItemRead, Meant, judged};

// The meaning.
#[tactic(auto, unfolding(crate::specs::Holidays::holiday_meaning))]
fn holiday_meaning(h: Holiday) -> Meant
    ensures { result ≡ holidays.holiday_meaning h }
{
    if OUT_OF_RANGE < h.days {
        Ok(Item::Holidays(h))
    } else {
        Err(Reason::Range)
    }
}

// The item that begins at p, after its name.
#[tactic(auto, unfolding(crate::specs::Holidays::holiday_item_after, crate::specs::Holidays::holiday_after))]
pub fn holiday_item_after(s: &[u8], p: usize, c: Cursor, kind: u8) -> ItemRead
    ensures { holidays.holiday_item_after p kind s.now c.at ≡ seen_item result }
{
    let (days, next) = any_days(s, c);
    judged(p, holiday_meaning(Holiday { kind, days }), next)
}

// A holiday item.
#[tactic(auto, unfolding(crate::specs::Holidays::holiday_item, crate::specs::Holidays::holiday_item_after, crate::specs::Holidays::holiday_shape))]
pub fn holiday_item(s: &[u8], c: Cursor) -> ItemRead
    ensures { holidays.holiday_item s.now c.at ≡ seen_item result }
{
    let Some((kind, d)) = c.name(s, NameKind::Holiday as u8) else {
        return Ok(None);
    };
    holiday_item_after(s, c.at, d, kind)
}
