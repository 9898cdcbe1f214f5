// A record's sixteen words in a slot of a lent table, of words or of bytes: written and read.
#![tactic(auto)]

ghost use Rattle.std.specs.Prelude.{◌<◌, ◌≡◌, []};
ghost use Rattle.lent_slots.specs.Tables.{kept_in};
ghost use Rattle.lent_slots.specs.Slots as slots;

mod bytes;
mod read_bytes;
mod read_words;
mod slot_cells;

pub use bytes::put_word;
use read_bytes::bytes_at;
pub use read_bytes::number_in;
pub use read_words::words_at;
pub use slot_cells::{Cell, keep_in};

// A record goes into its slot of each table, where that table has the slot.
pub fn keep(words: &mut [i32], bytes: &mut [u8], slot: usize, w: [i32; 16])
    ensures { (words.new, bytes.new) ≡ kept_in (words.old, bytes.old) slot w }
{
    keep_in(bytes, slot, w);
    keep_in(words, slot, w);
}

// A table of records that is lent, as words or as bytes: the other is then empty.
#[derive(Clone, Copy)]
pub struct Table<'a> {
    pub words: &'a [i32],
    pub bytes: &'a [u8],
}

impl<'a> Table<'a> {
    ghost use Rattle.lent_slots.specs.Lent.{lent};

    // A table of words.
    pub fn of_words(words: &'a [i32]) -> Table<'a>
        ensures { lent result ≡ (words.now, []) }
    {
        Table { words, bytes: &[] }
    }

    // A table of bytes.
    pub fn of_bytes(bytes: &'a [u8]) -> Table<'a>
        ensures { lent result ≡ ([], bytes.now) }
    {
        Table { words: &[], bytes }
    }

    // How many slots it has.
    #[tactic(auto, unfolding(crate::specs::Slots::slots))]
    pub fn slots(self) -> usize
        ensures { result ≡ slots.slots (lent self.entry) }
    {
        if self.bytes.is_empty() {
            self.words.len() / 16
        } else {
            self.bytes.len() / 64
        }
    }

    // Whether nothing is left over.
    #[tactic(auto, unfolding(crate::specs::Slots::is_whole))]
    pub fn is_whole(self) -> bool
        ensures { result ≡ slots.is_whole (lent self.entry) }
    {
        if self.bytes.is_empty() {
            self.words.len() % 16 == 0
        } else {
            self.bytes.len() % 64 == 0
        }
    }

    // The record in a slot.
    #[tactic(auto, unfolding(crate::specs::Slots::slots, crate::specs::Slots::record_at))]
    pub fn record(self, slot: usize) -> [i32; 16]
        requires { slot < slots.slots (lent self) }
        ensures { result ≡ slots.record_at (lent self.entry) slot }
    {
        if self.bytes.is_empty() {
            words_at(self.words, slot)
        } else {
            bytes_at(self.bytes, slot)
        }
    }
}
