// A list of entries in lent bytes, one for each rule of a table: two numbers, that of its head and its months.
ghost use Rattle.std.specs.Prelude.{◌+◌, ◌*◌, ◌-◌, ◌≤◌, ◌≡◌, ltb, length};
ghost use Rattle.lent_slots.specs.Lent.{lent};
ghost use Rattle.table_rules.specs.Numbers.{written};
ghost use Rattle.months.specs.Entries as entries;
ghost use Rattle.months.specs.Walk.{rules_left};

use crate::TableRules;
use crate::masks::months_from;
use lent_slots::{Table, number_in, put_word};
use table_rules::rule_count;
use tables::table_fits;

// The bytes of a number and of an entry.
const NUMBER_BYTES: usize = 4;

const ENTRY_BYTES: usize = 2 * NUMBER_BYTES;

// Why a list is not built or renewed, with the number that C gets.
#[derive(Clone, Copy, PartialEq, Eq)]
enum ListError {
    // The records do not fit.
    NoFit = 16,
    // The list is shorter than the rules.
    ShortList = 21,
}

impl ListError {
    // Its number.
    fn number(self) -> u32
        ensures { result ≡ entries.error_number self }
    {
        self as u32
    }
}

// The number of an outcome.
fn number_of(r: Result<(), ListError>) -> u32
    ensures { result ≡ entries.number_of r }
{
    match r {
        Ok(()) => 0,
        Err(e) => e.number(),
    }
}

// A head's number, modulo 2 ^ 32. (As a remainder, which the definition `wrap` is.)
fn wrapped(n: usize) -> u32
    ensures { result ≡ entries.wrap n }
{
    (n % (1 << 32)) as u32
}

// The number of the record in a slot of a table whose first record has number base.
fn head_number(base: u32, slot: usize) -> u32
    ensures { result ≡ entries.wrap (base + slot) }
{
    base.wrapping_add(wrapped(slot))
}

// A head's number after a part that had `old` records has come to have `new`.
fn moved_head(old: usize, new: usize, h: u32) -> u32
    ensures { result ≡ entries.moved_head old new h }
{
    h.wrapping_add(wrapped(new)).wrapping_sub(wrapped(old))
}

// The entries of rules are written from entry `first` on; base is the number of their table's first record.
#[tactic(auto, using(crate::proofs::EntryLaws::entry_more, crate::proofs::EntryLaws::no_entry, crate::proofs::EntryLaws::two_sets))]
fn fill_entries(rules: TableRules, base: u32, list: &mut [u8], first: usize)
    requires { (first + length (rules_left rules)) * 8 ≤ length list.old }
    ensures { list.new ≡ written list.old (first * 2) (entries.entries_of base (rules_left rules.entry)) }
{
    for (i, rule) in rules.enumerate() {
        let p = (first + i) * ENTRY_BYTES;
        put_word(list, p, head_number(base, rule.head));
        put_word(list, p + NUMBER_BYTES, months_from(rule.items));
    }
}

// The entries from one up to another have their heads' numbers moved.
#[tactic(auto, using(crate::proofs::EntryLaws::moved_next_lem, crate::proofs::EntryLaws::moved_end))]
fn move_heads(list: &mut [u8], from: usize, to: usize, old: usize, new: usize)
    requires { to * 8 ≤ length list.old }
    ensures { list.new ≡ entries.heads_moved old new list.old from (to - from) }
{
    for i in from..to {
        let p = i * ENTRY_BYTES;
        let h = number_in(list, p);
        put_word(list, p, moved_head(old, new, h));
    }
}

// Whether n rules from the rule `first` on pass the list's.
#[tactic(auto, using(crate::proofs::EntryLaws::passing))]
fn passes(all: usize, first: usize, n: usize) -> bool
    ensures { result ≡ ltb all (first + n) }
{
    all < n || all - n < first
}

// Builds the list of a table's rules, if it is long enough.
#[tactic(auto, unfolding(crate::specs::Entries::rule_months, crate::specs::Entries::table_entries, table_rules::specs::Numbers::written))]
fn build_list(table: Table, list: &mut [u8]) -> Result<(), ListError>
    ensures { (entries.number_of result, list.new) ≡ entries.rule_months (lent table.entry) list.old }
{
    if !table_fits(table) {
        return Err(ListError::NoFit);
    }
    if list.len() / ENTRY_BYTES < rule_count(table) {
        return Err(ListError::ShortList);
    }
    fill_entries(TableRules::new(table), 0, list, 0);
    Ok(())
}

// Renews a list, if it is long enough.
#[tactic(auto, using(table_rules::proofs::Heads::fits_rule), unfolding(crate::specs::Entries::renew_months, crate::specs::Entries::renewed))]
fn renew_list(
    table: Table,
    list: &mut [u8],
    all: usize,
    first: usize,
    old: usize,
) -> Result<(), ListError>
    ensures { (entries.number_of result, list.new) ≡ entries.renew_months (lent table.entry) list.old all first old }
{
    if !table_fits(table) {
        return Err(ListError::NoFit);
    }
    if list.len() / ENTRY_BYTES < all {
        return Err(ListError::ShortList);
    }
    let n = rule_count(table);
    if passes(all, first, n) {
        return Err(ListError::ShortList);
    }
    let base = number_in(list, first * ENTRY_BYTES);
    fill_entries(TableRules::new(table), base, list, first);
    move_heads(list, first + n, all, old, table.slots());
    Ok(())
}

// Builds the list of a table's rules. Nothing is written unless the number is 0. It is a number, since C gets it.
pub fn rule_months(table: Table, list: &mut [u8]) -> u32
    ensures { (result, list.new) ≡ entries.rule_months (lent table.entry) list.old }
{
    number_of(build_list(table, list))
}

// Renews a list of `all` entries where the part whose rules are from `first` on had `old` records and now has those of a table. Nothing is written unless the
// number is 0. It is a number, since C gets it.
pub fn renew_months(table: Table, list: &mut [u8], all: usize, first: usize, old: usize) -> u32
    ensures { (result, list.new) ≡ entries.renew_months (lent table.entry) list.old all first old }
{
    number_of(renew_list(table, list, all, first, old))
}
