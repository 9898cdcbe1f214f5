// The rules of a text, left to right.
ghost use Rattle.std.specs.Prelude.{◌≤◌, ◌≡◌, length};
ghost use Rattle.text_rules.specs.Texts.{after_rule};
ghost use Rattle.text_rules.specs.Into.{rules_into};
ghost use Rattle.text_rules.specs.Seen.{seen_parted, seen_rules_into, ComesTo};

use crate::rule::fill_rule;
use crate::{Counted, RulesRead};
use house::first_of;
use items::missing;
use names::{Cursor, Manner, Refusal};
use rules::next_rule;

// The blanks after a rule, and what parts it from the next: a separator, or the text's end.
pub fn parted(s: &[u8], c: Cursor) -> Result<(Option<u8>, Cursor), Refusal>
    ensures { after_rule tt s.now c.at ≡ seen_parted result }
{
    let d = c.blanks(s);
    match next_rule(s, d) {
        Some(next) => Ok(next),
        None => Err(missing(s, d)),
    }
}

// What rules with so many records and warnings, up to c, come to: the first break refuses them when all are read.
fn counted(records: usize, warnings: usize, first: Option<Refusal>, c: Cursor) -> RulesRead
    ensures { ComesTo records warnings first c.at result }
{
    match first {
        None => Ok((Counted { records, warnings }, c)),
        Some(refusal) => Err(refusal),
    }
}

// The rules of the text from place p on are read and judged: how many records they have, how many warnings, and the place after them, or their refusal.
// The records go into both tables, each where the table has its slot.
pub fn fill_rules(s: &[u8], m: Manner, p: usize, words: &mut [i32], bytes: &mut [u8]) -> RulesRead
    requires { length s.now ≤ 4096 }
    ensures { rules_into m (words.old, bytes.old) s.now p ≡ seen_rules_into result (words.new, bytes.new) }
{
    let mut slot: usize = 0;
    let mut warned: usize = 0;
    let mut at = p;
    let mut separator: u8 = 0;
    let mut broken = None;
    loop {
        let c = Cursor { at }.blanks(s);
        // A match in place of `?`: two must-fail edits answer otherwise in the arm of a refusal, and the proof names the arms.
        let (rule, d) = match fill_rule(s, m, c, separator, words, bytes, slot) {
            Ok(read) => read,
            Err(refusal) => return Err(refusal),
        };
        let (next, e) = parted(s, d)?;
        slot += rule.items + 1;
        warned += rule.warnings;
        broken = first_of(broken, rule.first);
        let Some(k) = next else {
            return counted(slot, warned, broken, e);
        };
        separator = k;
        at = e.at;
    }
}
