// The months of a rule, as a number with a bit for each.
ghost use Rattle.std.specs.Prelude.{◌≡◌, eqb};
ghost use Rattle.months.specs.Months as months;
ghost use Rattle.months.specs.Masks as masks;
ghost use Rattle.touched.specs.Kinds as kinds;
ghost use Rattle.touched.specs.Walk.{items_left};

use crate::month_days::item_can;
use records::Item;
use touched::{Items, SelectorKind, kind_of};

const MONTHS: usize = 12;

// A bit for each month.
const ALL_MONTHS: u32 = (1 << MONTHS) - 1;

// Months and dates.
fn is_month_day(a: Item) -> bool
    ensures { result ≡ eqb (kinds.kind_of a) 2 }
{
    kind_of(a) == Some(SelectorKind::MonthDay)
}

// The months that can be touched, with those that an item can touch besides.
#[tactic(auto, unfolding(crate::specs::Masks::with_item))]
fn with_item(can: [bool; MONTHS], a: Item) -> [bool; MONTHS]
    ensures { result ≡ masks.with_item can a }
{
    [
        can[0] | item_can(a, 1),
        can[1] | item_can(a, 2),
        can[2] | item_can(a, 3),
        can[3] | item_can(a, 4),
        can[4] | item_can(a, 5),
        can[5] | item_can(a, 6),
        can[6] | item_can(a, 7),
        can[7] | item_can(a, 8),
        can[8] | item_can(a, 9),
        can[9] | item_can(a, 10),
        can[10] | item_can(a, 11),
        can[11] | item_can(a, 12),
    ]
}

// The months that the month-day items so far can touch, with an item more; nothing, while there are none.
fn asked(so_far: Option<[bool; MONTHS]>, a: Item) -> Option<[bool; MONTHS]>
    ensures { result ≡ masks.asked so_far a }
{
    if !is_month_day(a) {
        return so_far;
    }
    Some(with_item(so_far.unwrap_or([false; MONTHS]), a))
}

// Months as a number: bit m - 1 for month m.
#[tactic(auto, using(crate::proofs::Laws::masked_more, crate::proofs::Laws::all_masked))]
fn mask_of(can: [bool; MONTHS]) -> u32
    ensures { result ≡ masks.mask_of can }
{
    let mut mask = 0;
    for m in 1..=12u8 {
        mask += u32::from(can[usize::from(m - 1)]) << (m - 1);
    }
    mask
}

// The months that a rule can touch, in one walk over its items: all where it has no month-day item.
pub fn months_from(items: Items) -> u32
    ensures { result ≡ months.rule_mask (items_left items.entry) }
{
    match items.fold(None, |so_far, a| asked(so_far, a)) {
        None => ALL_MONTHS,
        Some(can) => mask_of(can),
    }
}
