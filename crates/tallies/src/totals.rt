// The counts of an answer from word 24 on: answers, warnings, items by kind, marks.
ghost use Rattle.std.specs.Prelude.{◌≡◌};
ghost use Rattle.lent_slots.specs.Lent.{lent};
ghost use Rattle.lent_slots.specs.Slots as slots;
ghost use Rattle.tallies.specs.Counts as counts;
ghost use Rattle.tallies.specs.Sums as sums;

use crate::TOTALS;
use crate::marks::marks_of;
use lent_slots::Table;
use records::{between, byte};

// Where the answers are among these counts.
const ANSWERS: usize = 0;

// Where the warnings are.
const WARNINGS: usize = 1;

// Where the marks are; between the two, items are at their kind.
const MARKS: usize = 9;

// A record is counted: an item by its kind, and its marks; nothing, if a count would pass the limit.
#[tactic(auto, using(crate::proofs::Counting::record_steps))]
fn counted(c: [u32; TOTALS], w: [i32; 16]) -> Option<[u32; TOTALS]>
    ensures { result ≡ sums.sum_within c (counts.record_counts w) }
{
    if !between(w[0], 2, 8) {
        return Some(c);
    }
    let k = byte(w[0]) as usize;
    let mut r = c;
    r[k] = c[k].checked_add(1)?;
    r[MARKS] = c[MARKS].checked_add(marks_of(w))?;
    Some(r)
}

// One answer, its warnings, and the items and marks of its records; nothing, if a count would pass the limit.
#[tactic(auto, using(crate::proofs::Counting::total_steps))]
pub fn totals(warnings: u32, table: Table) -> Option<[u32; TOTALS]>
    ensures { result ≡ sums.sum_within (counts.own warnings) (counts.total (slots.records_of (lent table.entry))) }
{
    let mut c = [0; TOTALS];
    c[ANSWERS] = 1;
    c[WARNINGS] = warnings;
    for slot in 0..table.slots() {
        c = counted(c, table.record(slot))?;
    }
    Some(c)
}
