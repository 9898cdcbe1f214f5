// What is asked of the rules of a table of bytes.
ghost use Rattle.std.specs.Prelude.{◌≡◌};
ghost use Rattle.c_calls.specs.RuleCalls as calls;

use lent_slots::Table;
use months::{renew_months, rule_months};
use touched::rule_days;

// Runs a rule over recorded days: the number is returned, an answer for each day is written.
pub fn lorukinde_rule_days(table: &[u8], rule: usize, days: &[u8], answers: &mut [u8]) -> u32
    ensures { (result, answers.new) ≡ calls.days_call table.now rule days.now answers.old }
{
    rule_days(Table::of_bytes(table), rule, days, answers)
}

// Builds the list of entries of a table's rules: the number is returned, an entry for each rule is written.
pub fn lorukinde_rule_months(table: &[u8], entries: &mut [u8]) -> u32
    ensures { (result, entries.new) ≡ calls.months_call table.now entries.old }
{
    rule_months(Table::of_bytes(table), entries)
}

// Renews a list of entries after a part of its sheet was exchanged: the number is returned.
pub fn lorukinde_renew_months(
    entries: &mut [u8],
    rules: usize,
    first: usize,
    old_records: usize,
    table: &[u8],
) -> u32
    ensures { (result, entries.new) ≡ calls.renew_call entries.old rules first old_records table.now }
{
    renew_months(Table::of_bytes(table), entries, rules, first, old_records)
}
