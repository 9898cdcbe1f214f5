// Tables of records, lent as words or as bytes: whether one fits.
#![tactic(auto)]

ghost use Rattle.std.specs.Prelude.{◌≡◌};
ghost use Rattle.lent_slots.specs.Lent.{lent};
ghost use Rattle.tables.specs.Tables as tables;

use lent_slots::Table;
use records::{between, head_fits, item_fits, number};

// Whether a record is a head.
pub fn is_head(w: [i32; 16]) -> bool
    ensures { result ≡ tables.is_head w }
{
    between(w[0], 1, 1)
}

// A record where so many items of a rule are to come: how many then are, if the record fits.
#[tactic(auto, using(crate::proofs::Tables::steps))]
fn stepped(left: usize, w: [i32; 16]) -> Option<usize>
    ensures { tables.Steps left w result }
{
    if left > 0 {
        item_fits(w).then_some(left - 1)
    } else if is_head(w) && head_fits(w) {
        Some(number(w[5]))
    } else {
        None
    }
}

// Whether the records of a table fit.
#[tactic(auto, using(crate::proofs::Tables::table_steps))]
pub fn table_fits(table: Table) -> bool
    ensures { result ≡ tables.table_fits (lent table.entry) }
{
    let n = table.slots();
    if n == 0 {
        return false;
    }
    let mut left = 0;
    for slot in 0..n {
        let Some(next) = stepped(left, table.record(slot)) else {
            return false;
        };
        left = next;
    }
    table.is_whole() && left == 0
}
