// Span: time`+`; or time`-`end and then nothing, `+`, `/MM` or `/H:MM`; or a time alone.
ghost use Rattle.std.specs.Prelude.{◌≤◌, ◌<◌, ◌≡◌, length};
ghost use Rattle.names.specs.Seen.{seen};
ghost use Rattle.records.specs.Items.{meant};
ghost use Rattle.records.specs.Seen.{seen_item};
ghost use Rattle.times.specs.Meanings as meanings;
ghost use Rattle.times.specs.Shapes.{Until};
ghost use Rattle.times.specs.Spans as spans;
ghost use Rattle.times.specs.Seen.{seen_clock, spelt, tail_of, then_tail};
ghost use Rattle.times.specs.Times.{Spelt};

use crate::meanings::{alone_meaning, open_meaning, until_meaning};
use crate::times::{clock, event_time, minutes_of, time};
use crate::{SpeltTime, Tail};
use names::{Cursor, Manner, NameKind, Named};
use records::{ItemRead, judged};

// The end of a span, and what stands after it.
#[derive(Clone, Copy)]
struct Ending {
    end: SpeltTime,
    tail: Tail,
}

// After a slash: `H:MM` or `MM`.
#[tactic(auto, unfolding(crate::specs::Spans::repeated))]
fn repeated(s: &[u8], c: Cursor) -> Option<(u16, Cursor)>
    ensures { spans.repeated s.now c.at ≡ seen_clock result }
{
    clock(s, c).or_else(|| {
        let (m, c) = c.minutes(s)?;
        Some((minutes_of(0, m), c))
    })
}

// What stands after a span's end: `+`, `/MM` or `/H:MM`, or nothing.
#[tactic(auto, unfolding(crate::specs::Spans::tail))]
fn tail(s: &[u8], c: Cursor) -> (Tail, Cursor)
    ensures { spans.tail s.now c.at ≡ then_tail result }
{
    if let Some(d) = c.sign(s, b'+') {
        let open = Tail {
            repeats: None,
            open_end: true,
        };
        return (open, d);
    }
    if let Some(d) = c.sign(s, b'/')
        && let Some((minutes, e)) = repeated(s, d)
    {
        let again = Tail {
            repeats: Some(minutes),
            open_end: false,
        };
        return (again, e);
    }
    let nothing = Tail {
        repeats: None,
        open_end: false,
    };
    (nothing, c)
}

// After a start: `-` and an end, and what stands after it.
#[tactic(auto, unfolding(crate::specs::Spans::until_time))]
fn until_time(s: &[u8], c: Cursor) -> Option<(Ending, Cursor)>
    ensures { (start : Spelt) → spans.until_time start s.now c.at ≡ seen (λ r. Until start (spelt r.end) (tail_of r.tail)) result }
{
    let c = c.sign(s, b'-')?;
    let (end, c) = time(s, c)?;
    let (tail, c) = tail(s, c);
    Some((Ending { end, tail }, c))
}

// The item that begins at p, after its start: a plus, an end, or nothing.
#[tactic(auto, unfolding(crate::specs::Spans::span_after))]
fn span_item_after(s: &[u8], m: Manner, p: usize, c: Cursor, start: SpeltTime) -> ItemRead
    ensures { meant p (spans.span_after (spelt start)) (meanings.span_meaning m) s.now c.at ≡ seen_item result }
{
    if let Some(d) = c.sign(s, b'+') {
        return judged(p, open_meaning(start), d);
    }
    match until_time(s, c) {
        Some((Ending { end, tail }, d)) => judged(p, until_meaning(start, end, tail), d),
        None => judged(p, alone_meaning(m, start), c),
    }
}

// An item of a time list. A start that is a clock time is read where it stands: to read any time first was tried, and takes 60 instructions more an item.
#[tactic(auto, unfolding(crate::specs::Spans::time_item, crate::specs::Spans::span_shape, crate::specs::Times::time))]
pub fn time_item(s: &[u8], m: Manner, c: Cursor) -> ItemRead
    ensures { spans.time_item m s.now c.at ≡ seen_item result }
{
    if let Some((minutes, d)) = clock(s, c) {
        return span_item_after(s, m, c.at, d, SpeltTime::clock(minutes));
    }
    let Some((start, d)) = event_time(s, c) else {
        return Ok(None);
    };
    span_item_after(s, m, c.at, d, start)
}

// The item that begins at p with an event, after the event.
#[tactic(auto, unfolding(crate::specs::Spans::event_item_after))]
pub fn event_item_after(s: &[u8], m: Manner, p: usize, c: Cursor, event: u8) -> ItemRead
    requires p_lt_at { p < c.at }
    requires at_in_bounds { c.at ≤ length s.now }
    ensures { spans.event_item_after m p event s.now c.at ≡ seen_item result }
{
    let odd = Cursor { at: p }.odd(s, NameKind::Event as u8, c);
    let start = SpeltTime::event(Named { value: event, odd }, 0);
    span_item_after(s, m, p, c, start)
}
