// A rule's items, one after the other.
ghost use Rattle.std.specs.Prelude.{◌≡◌};
ghost use Rattle.table_rules.specs.Rules as rules;

use crate::Items;
use lent_slots::Table;
use records::{Item, item_of};
use table_rules::is_head;

impl<'a> Items<'a> {
    ghost use Rattle.lent_slots.specs.Lent.{lent};
    ghost use Rattle.touched.specs.Walk.{items_left, is_none_left};

    // The items from a slot of a table on.
    pub fn new(table: Table<'a>, slot: usize) -> Items<'a>
        ensures { items_left result ≡ rules.items_up (lent table.entry) slot }
    {
        Items { table, slot }
    }

    // Whether none is left: the table ends here, or the next head stands here.
    #[tactic(auto, using(table_rules::proofs::Heads::items_head, table_rules::proofs::Heads::items_item, table_rules::proofs::Heads::items_end))]
    pub(crate) fn is_over(self) -> bool
        ensures { result ≡ is_none_left (items_left self.entry) }
    {
        self.slot >= self.table.slots() || is_head(self.table.record(self.slot))
    }
}

impl Iterator for Items<'_> {
    ghost use Rattle.std.specs.Iterator.{YieldsFirst, item_count};
    ghost use Rattle.touched.specs.Walk.{items_left};

    type Item = Item;

    ghost next_gives = { YieldsFirst items_left };

    ghost remaining = { item_count items_left };

    #[tactic(auto, using(table_rules::proofs::Heads::items_head, table_rules::proofs::Heads::items_item, table_rules::proofs::Heads::items_end))]
    fn next(&mut self) -> Option<Item> {
        if self.slot >= self.table.slots() {
            return None;
        }
        let w = self.table.record(self.slot);
        if is_head(w) {
            return None;
        }
        self.slot += 1;
        Some(item_of(w))
    }
}
