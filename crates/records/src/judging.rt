// An item is judged when its longest shape is read.
ghost use Rattle.std.specs.Prelude.{◌≤◌, [], ◌≡◌};
ghost use Rattle.records.specs.Items as items;
ghost use Rattle.records.specs.Seen.{seen_item_by};

use crate::Item;
use names::{Cursor, Refusal, Why};

// A judgement at c: the item, or a refusal at the item's first byte, by whatever it is refused.
pub fn judged<R: Why>(
    place: usize,
    m: Result<Item, R>,
    c: Cursor,
) -> Result<Option<(Item, Cursor)>, Refusal<R>>
    ensures { items.judged_by R.number place m [] c.at ≡ seen_item_by R.number result }
{
    match m {
        Ok(a) => Ok(Some((a, c))),
        Err(reason) => Err(Refusal { reason, place }),
    }
}

// A number that is added, or taken off. (Not by `i16::try_from`: n has no other value.)
pub fn signed(negative: bool, n: u16) -> i16
    requires { n ≤ 32767 }
    ensures { result ≡ items.signed negative n }
{
    let m = n as i16;
    if negative { -m } else { m }
}
