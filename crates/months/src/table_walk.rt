// A table's rules, one after the other.
ghost use Rattle.std.specs.Prelude.{◌≡◌};
ghost use Rattle.table_rules.specs.Rules as rules;

use crate::{TableRule, TableRules};
use lent_slots::Table;
use table_rules::next_head;
use touched::Items;

impl<'a> TableRules<'a> {
    ghost use Rattle.lent_slots.specs.Lent.{lent};
    ghost use Rattle.months.specs.Walk.{rules_left};

    // All the rules of a table.
    #[tactic(auto, using(table_rules::proofs::Heads::rules_all))]
    pub fn new(table: Table<'a>) -> TableRules<'a>
        ensures { rules_left result ≡ rules.rules_in (lent table.entry) }
    {
        TableRules { table, slot: 0 }
    }
}

impl<'a> Iterator for TableRules<'a> {
    ghost use Rattle.std.specs.Iterator.{YieldsFirstBy, item_count};
    ghost use Rattle.months.specs.Walk.{rule_of, rules_left};

    type Item = TableRule<'a>;

    ghost next_gives = { YieldsFirstBy rule_of rules_left };

    ghost remaining = { item_count rules_left };

    #[tactic(auto, using(table_rules::proofs::Heads::next_rules))]
    fn next(&mut self) -> Option<TableRule<'a>> {
        let head = next_head(self.table, self.slot)?;
        self.slot = head + 1;
        Some(TableRule {
            head,
            items: Items::new(self.table, self.slot),
        })
    }
}
