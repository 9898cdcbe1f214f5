// The rules of a table, found by their heads.
#![tactic(auto)]

ghost use Rattle.std.specs.Prelude.{◌<◌, ◌≡◌, IfSome, length};
ghost use Rattle.lent_slots.specs.Lent.{lent};
ghost use Rattle.table_rules.specs.Rules as rules;

use lent_slots::Table;
pub use tables::is_head;

// The slot of the first head from a slot on, if there is one. The slot after it has a number too.
#[tactic(auto, using(crate::proofs::Heads::head_steps))]
pub fn next_head(table: Table, from: usize) -> Option<usize>
    ensures first { rules.NextHead (lent table.entry) from result }
    ensures few { IfSome result (λ slot. slot < 18446744073709551615) }
{
    for slot in from..table.slots() {
        if is_head(table.record(slot)) {
            return Some(slot);
        }
    }
    None
}

// The slot from which on the rule numbered k has its items, after its head; nothing, if there is no such rule.
#[tactic(auto, using(crate::proofs::Heads::rule_steps))]
pub fn rule_items(table: Table, k: usize) -> Option<usize>
    ensures { rules.found (lent table.entry) result ≡ rules.rule_at k (rules.rules_in (lent table.entry)) }
{
    let mut head = next_head(table, 0)?;
    for _ in 0..k {
        head = next_head(table, head + 1)?;
    }
    Some(head + 1)
}

// How many rules a table has.
#[tactic(auto, using(crate::proofs::Heads::head_steps))]
pub fn rule_count(table: Table) -> usize
    ensures { result ≡ length (rules.rules_in (lent table.entry)) }
{
    let mut count = 0;
    for slot in 0..table.slots() {
        if is_head(table.record(slot)) {
            count += 1;
        }
    }
    count
}
