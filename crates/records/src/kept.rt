// The records of heads and items in their slots of lent tables.
ghost use Rattle.std.specs.Prelude.{◌≤◌, ◌≡◌};
ghost use Rattle.lent_slots.specs.Tables.{kept_in};
ghost use Rattle.records.specs.Words.{words_of, placed_at, head_words};

use crate::words::{
    dates_words, head_words, holiday_words, placed, span_words, three, weekdays_words,
};
use crate::{Head, Item};
use lent_slots::keep;

// The record of an item at a place of a text of at most 4,096 bytes goes into its slot of each table.
// Each kind stores its own record: that costs less than one store for the words of any kind.
#[tactic(auto, using(crate::proofs::Laws::word, crate::proofs::Laws::passed), unfolding(crate::specs::Words::words_of))]
pub fn keep_item(words: &mut [i32], bytes: &mut [u8], slot: usize, a: Item, place: usize)
    requires { place ≤ 4096 }
    ensures { (words.new, bytes.new) ≡ kept_in (words.old, bytes.old) slot (placed_at place (words_of a)) }
{
    let place = place as i32;
    match a {
        Item::Years(r) => {
            let w = three(2, r.first, r.last, r.step);
            keep(words, bytes, slot, placed(w, place));
        }
        Item::Months(r) => {
            let w = three(3, r.year, u16::from(r.first), u16::from(r.last));
            keep(words, bytes, slot, placed(w, place));
        }
        Item::Dates(r) => keep(words, bytes, slot, placed(dates_words(r), place)),
        Item::Weeks(r) => {
            let w = three(5, r.first, r.last, r.step);
            keep(words, bytes, slot, placed(w, place));
        }
        Item::Weekdays(r) => keep(words, bytes, slot, placed(weekdays_words(r), place)),
        Item::Holidays(r) => keep(words, bytes, slot, placed(holiday_words(r), place)),
        Item::Times(r) => keep(words, bytes, slot, placed(span_words(r), place)),
    }
}

// A rule's head goes into its slot of each table, where that table has the slot.
pub fn keep_head(words: &mut [i32], bytes: &mut [u8], slot: usize, h: Head)
    requires { (h.comment.start ≤ 4096) × (h.comment.length ≤ 4096) × (h.items ≤ 4096) × (h.place ≤ 4096) }
    ensures { (words.new, bytes.new) ≡ kept_in (words.old, bytes.old) slot (head_words h) }
{
    keep(words, bytes, slot, head_words(h));
}
