// A span: its form, and its order after the earlier ones of its rule.
ghost use Rattle.std.specs.Prelude.{◌≡◌};
ghost use Rattle.house.specs.Spans as spans;

use names::{Reason, Refusal, Why};
use records::{Span, Time};

// The minutes of 24:00.
const MIDNIGHT: u16 = 1440;

// A clock time up to 24:00.
#[tactic(auto, unfolding(crate::specs::Spans::is_clock))]
fn is_clock(t: Time) -> bool
    ensures { result ≡ spans.is_clock t }
{
    match t {
        Time::Fixed(m) => m <= MIDNIGHT,
        _ => false,
    }
}

// The minutes of a clock time.
#[tactic(auto, unfolding(crate::specs::Spans::minutes))]
pub fn minutes(t: Time) -> u16
    ensures { result ≡ spans.minutes t }
{
    match t {
        Time::Fixed(m) => m,
        _ => 0,
    }
}

// Clock times up to 24:00.
#[tactic(auto, unfolding(crate::specs::Spans::of_clocks))]
fn of_clocks(x: Span) -> bool
    ensures { result ≡ spans.of_clocks x }
{
    is_clock(x.start) && is_clock(x.end)
}

// No repeat and no open end.
#[tactic(auto, unfolding(crate::specs::Spans::is_plain))]
fn is_plain(x: Span) -> bool
    ensures { result ≡ spans.is_plain x }
{
    x.repeats.is_none() && !x.open_end
}

// A span of clock times up to 24:00, without repeat or open end.
fn allowed(x: Span) -> bool
    ensures { result ≡ spans.allowed x }
{
    of_clocks(x) && is_plain(x)
}

// A span that ends after its start, and starts no earlier than the earlier ones of its rule end.
#[tactic(auto, unfolding(crate::specs::Spans::in_order))]
fn in_order(end: u16, x: Span) -> bool
    ensures { result ≡ spans.in_order end x }
{
    let start = minutes(x.start);
    start < minutes(x.end) && end <= start
}

// The break of a span at a place, after spans of its rule that end there.
#[tactic(auto, unfolding(crate::specs::Spans::span_break_as))]
pub fn span_break<R: Why>(end: u16, place: usize, x: Span) -> Option<Refusal<R>>
    ensures { result ≡ spans.span_break_as R.of_reason end place x }
{
    let reason = if !allowed(x) {
        Reason::HouseForm
    } else if !in_order(end, x) {
        Reason::HouseOrder
    } else {
        return None;
    };
    Some(Refusal {
        reason: R::of_reason(reason),
        place,
    })
}
