// What a span means: its numbers' ranges, and the item.
ghost use Rattle.std.specs.Prelude.{◌≡◌};
ghost use Rattle.names.specs.declared.Manner.{Manner};
ghost use Rattle.times.specs.Shapes.{Alone, Open, Until};
ghost use Rattle.times.specs.Seen.{spelt, tail_of};
ghost use Rattle.times.specs.Meanings as meanings;

use crate::{SpeltTime, Tail};
use names::{Manner, Reason};
use records::{Item, Meant, Span, Time};

// The minutes of 24:00.
const MIDNIGHT: u16 = 1440;

// The minutes of 48:00.
const NEXT_MIDNIGHT: u16 = 2880;

// The minutes of 24:00, added to an event.
const AHEAD: i16 = MIDNIGHT as i16;

// The minutes of 24:00, taken off.
const BACK: i16 = -AHEAD;

// What is added to an event, or taken off, in range: up to 24:00.
fn near(m: i16) -> bool
    ensures { result ≡ meanings.near m }
{
    (BACK..=AHEAD).contains(&m)
}

// A time in range: a clock time up to the last one, an event with up to 24:00 added or taken off.
fn good_time(last: u16, t: Time) -> bool
    ensures { result ≡ meanings.good_time last t }
{
    match t {
        Time::Fixed(c) => c <= last,
        // One arm for the four events gets no proof: a pattern of alternatives may not bind a number with a sign.
        Time::Dawn(m) => near(m),
        Time::Sunrise(m) => near(m),
        Time::Sunset(m) => near(m),
        Time::Dusk(m) => near(m),
    }
}

// A start in range.
pub fn good_start(t: Time) -> bool
    ensures { result ≡ meanings.good_start t }
{
    good_time(MIDNIGHT, t)
}

// An end in range.
pub fn good_end(t: Time) -> bool
    ensures { result ≡ meanings.good_end t }
{
    good_time(NEXT_MIDNIGHT, t)
}

// A repeat in range.
fn good_repeat(repeats: Option<u16>) -> bool
    ensures { result ≡ meanings.good_repeat repeats }
{
    repeats.is_none_or(|m| m < MIDNIGHT)
}

// What a time alone in range is: a span that ends where it starts in the second edition, and else refused.
fn alone_of(m: Manner, only: SpeltTime) -> Meant
    ensures { result ≡ meanings.alone_of m (spelt only) }
{
    match m {
        Manner::Second => Ok(Item::Times(Span {
            start: only.time,
            end: only.time,
            repeats: None,
            open_end: false,
            point: true,
            odd_start: only.odd,
            odd_end: false,
        })),
        _ => Err(Reason::PointInTime),
    }
}

// The meaning of a time alone.
#[tactic(auto, unfolding(crate::specs::Meanings::span_meaning))]
pub fn alone_meaning(m: Manner, only: SpeltTime) -> Meant
    ensures { result ≡ meanings.span_meaning m (Alone (spelt only)) }
{
    if good_start(only.time) {
        alone_of(m, only)
    } else {
        Err(Reason::Range)
    }
}

// The meaning of a time and a plus: `10:00+` ends at 24:00, open.
#[tactic(auto, unfolding(crate::specs::Meanings::span_meaning))]
pub fn open_meaning(start: SpeltTime) -> Meant
    ensures { (m : Manner) → result ≡ meanings.span_meaning m (Open (spelt start)) }
{
    if good_start(start.time) {
        Ok(Item::Times(Span {
            start: start.time,
            end: Time::Fixed(MIDNIGHT),
            repeats: None,
            open_end: true,
            point: false,
            odd_start: start.odd,
            odd_end: false,
        }))
    } else {
        Err(Reason::Range)
    }
}

// The meaning of two times and what stands after the end.
#[tactic(auto, unfolding(crate::specs::Meanings::span_meaning))]
pub fn until_meaning(start: SpeltTime, end: SpeltTime, tail: Tail) -> Meant
    ensures { (m : Manner) → result ≡ meanings.span_meaning m (Until (spelt start) (spelt end) (tail_of tail)) }
{
    if good_start(start.time) && good_end(end.time) && good_repeat(tail.repeats) {
        Ok(Item::Times(Span {
            start: start.time,
            end: end.time,
            repeats: tail.repeats,
            open_end: tail.open_end,
            point: false,
            odd_start: start.odd,
            odd_end: end.odd,
        }))
    } else {
        Err(Reason::Range)
    }
}
