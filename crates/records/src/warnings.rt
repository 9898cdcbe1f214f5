// A name that is not written as it should be calls for a warning.
ghost use Rattle.std.specs.Prelude.{◌+◌, ◌≤◌, ◌≡◌};
ghost use Rattle.records.specs.Warnings as warnings;

use crate::{Item, Odd};

// The warnings of two names.
fn twice(first: bool, last: bool) -> u8
    ensures { result ≡ warnings.once first + warnings.once last }
{
    u8::from(first) + u8::from(last)
}

// The warnings of a date.
fn date_warnings(o: Odd) -> u8
    ensures { (result ≡ warnings.date_warnings o) × (result ≤ 3) }
{
    u8::from(o.name) + u8::from(o.weekday) + u8::from(o.offset)
}

// How many warnings the names of an item call for.
#[tactic(auto, unfolding(crate::specs::Warnings::item_warnings))]
pub fn warnings_in(a: Item) -> u8
    ensures { result ≡ warnings.item_warnings a }
{
    match a {
        Item::Years(_) | Item::Weeks(_) | Item::Holidays(_) => 0,
        Item::Months(r) => twice(r.odd_first, r.odd_last),
        Item::Dates(r) => date_warnings(r.odd_start) + date_warnings(r.odd_end),
        Item::Weekdays(r) => twice(r.odd_first, r.odd_last),
        Item::Times(r) => twice(r.odd_start, r.odd_end),
    }
}
