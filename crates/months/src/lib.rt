// Which rules touch which month.
#![tactic(auto)]

mod entries;
mod masks;
mod month_days;
mod table_walk;

pub use entries::{renew_months, rule_months};
use lent_slots::Table;
use touched::Items;

// A rule where it stands in a table: the slot of its head, and its items.
#[derive(Clone, Copy)]
struct TableRule<'a> {
    pub head: usize,
    pub items: Items<'a>,
}

// The rules of a table whose heads are in a slot or after it.
#[derive(Clone, Copy)]
struct TableRules<'a> {
    table: Table<'a>,
    slot: usize,
}
