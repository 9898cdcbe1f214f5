// What has to stand at a place, and what is said where it does not.
ghost use Rattle.std.specs.Prelude.{◌≡◌};
ghost use Rattle.names.specs.Read.{follow, pure};
ghost use Rattle.records.specs.Seen.{seen_item};
ghost use Rattle.items.specs.Musts as musts;
ghost use Rattle.items.specs.Seen.{Lacking};

use names::{Cursor, Reason, Refusal};
use records::ItemRead;

// Whether a quote stands in a text.
#[tactic(auto, using(crate::proofs::Quotes::quote_any))]
fn has_quote(s: &[u8]) -> bool
    ensures { result ≡ musts.has_quote s.now }
{
    s.contains(&b'"')
}

// Whether a broken quote stands at a place.
#[tactic(auto, using(crate::proofs::Quotes::broken))]
fn at_broken_quote(s: &[u8], at: usize) -> bool
    ensures { result ≡ musts.at_broken_quote s.now at }
{
    (Cursor { at }).byte(s) == b'"'
        && ((Cursor { at: at + 1 }).byte(s) == b'"' || !has_quote(&s[at + 1..]))
}

// What is missing at c, after its blanks: why it is refused, and where.
#[tactic(auto, unfolding(crate::specs::Musts::missing_at))]
pub fn missing(s: &[u8], c: Cursor) -> Refusal
    ensures { Lacking s.now c.at result }
{
    let place = c.blanks(s).at;
    let reason = if at_broken_quote(s, place) {
        Reason::BrokenQuote
    } else {
        Reason::NoShape
    };
    Refusal { reason, place }
}

// What was read at c, which has to stand there.
#[tactic(auto, using(crate::proofs::Quotes::lack_is))]
pub fn must(s: &[u8], c: Cursor, m: ItemRead) -> ItemRead
    ensures { follow s.now c.at (seen_item m) pure musts.missing ≡ seen_item result }
{
    match m? {
        None => Err(missing(s, c)),
        found => Ok(found),
    }
}
