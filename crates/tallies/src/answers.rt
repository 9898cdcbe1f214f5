// Whether an answer and its records fit, and a tally that takes them in.
ghost use Rattle.std.specs.Prelude.{◌<◌, ◌≡◌};
ghost use Rattle.lent_slots.specs.Lent.{lent};
ghost use Rattle.tallies.specs.Answers as answers;
ghost use Rattle.tallies.specs.Counts as counts;
ghost use Rattle.tallies.specs.Sums as sums;

use crate::sums::summed;
use crate::totals::totals;
use crate::{Answer, COUNTS, Tally, TallyRefusal};
use lent_slots::Table;
use tables::table_fits;

// A number that a reading of a sheet can answer. (Ranges of C's numbers: the answer is whatever C's callers give.)
#[tactic(auto, unfolding(crate::specs::Answers::number_fits, names::specs::Tests::within))]
fn number_fits(n: u32) -> bool
    ensures { result ≡ answers.number_fits n }
{
    matches!(n, 0..=1 | 3..=13 | 19 | 22..=23)
}

// An answer and its records fit.
#[tactic(auto, using(crate::proofs::Judged::fit_steps))]
fn answer_fits(a: Answer, table: Table) -> bool
    ensures { result ≡ answers.answer_fits a (lent table.entry) }
{
    if a.number == 0 {
        a.records as usize == table.slots() && table_fits(table)
    } else {
        number_fits(a.number)
            && a.records == 0
            && a.warnings == 0
            && table.words.is_empty()
            && table.bytes.is_empty()
    }
}

// The counts of an answer and its records are added to others; nothing, if one would pass the limit.
#[tactic(auto, using(crate::proofs::Judged::add_steps))]
fn added(t: [u32; COUNTS], a: Answer, table: Table) -> Option<[u32; COUNTS]>
    requires { a.number < 24 }
    ensures { result ≡ sums.sum_within t (counts.counts_of a (lent table.entry)) }
{
    let more = totals(a.warnings, table)?;
    summed(t, a.number as usize, more)
}

// A tally takes in an answer and its records: 16 if they do not fit, then 15 if a count would pass the limit; a refusal leaves the tally.
#[tactic(auto, using(crate::proofs::Judged::take_steps))]
pub fn taken_in(tally: Tally, a: Answer, table: Table) -> Result<Tally, TallyRefusal>
    ensures { answers.numbers tally.counts result ≡ answers.taken_in tally.counts a (lent table.entry) }
{
    if !answer_fits(a, table) {
        return Err(TallyRefusal::NoFit);
    }
    let counts = added(tally.counts, a, table).ok_or(TallyRefusal::OverTheLimit)?;
    Ok(Tally { counts })
}
