// Which spans a sheet can have.
ghost use Rattle.std.specs.Prelude.{◌≡◌};
ghost use Rattle.sheet_texts.specs.Times as texts;

use records::Span;
use times::{good_end, good_start};

// The minutes of 24:00.
const MIDNIGHT: u16 = 1440;

// Not both repeat and open end.
#[tactic(auto, unfolding(sheet_texts::specs::Times::good_tail))]
fn good_tail(r: Option<u16>, plus: bool) -> bool
    ensures { result ≡ texts.good_tail r plus }
{
    match r {
        None => true,
        Some(m) => m < MIDNIGHT && !plus,
    }
}

// A span that is no time alone.
#[tactic(auto, unfolding(sheet_texts::specs::Times::good_span))]
pub fn good_span(r: Span) -> bool
    ensures { result ≡ texts.good_span r }
{
    good_start(r.start) && good_end(r.end) && good_tail(r.repeats, r.open_end) && !r.point
}
