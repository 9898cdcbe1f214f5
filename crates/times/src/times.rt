// Time: `H:MM`, or an event, or `(event±H:MM)`.
ghost use Rattle.std.specs.Prelude.{◌≤◌, ◌≡◌, false};
ghost use Rattle.names.specs.Seen.{Reads};
ghost use Rattle.records.specs.declared.Time.TheVariants.{Fixed};
ghost use Rattle.times.specs.Times as times;
ghost use Rattle.times.specs.Seen.{spelt, seen_time};

use crate::SpeltTime;
use names::{Cursor, NameKind, Named};
use records::{Time, signed};

// The minutes of an hour.
const HOUR: u32 = 60;

// MM goes from 0 to 59.
const LAST_MINUTE: u32 = 59;

// What is read where MM is above 59: more minutes than any range allows, and than any clock time has (99:59 has 5,999).
// A number, and no None: the definition out_of_range (specs/Times.antt) is one, so that the range refuses it as any other.
const OUT_OF_RANGE: u16 = 9999;

// The minutes of `H:MM`.
pub fn minutes_of(h: u32, m: u32) -> u16
    requires { h ≤ 99 }
    ensures { (result ≡ times.minutes_of h m) × (result ≤ times.out_of_range) }
{
    if LAST_MINUTE < m {
        OUT_OF_RANGE
    } else {
        (h * HOUR + m) as u16
    }
}

// `H:MM`
#[tactic(auto, unfolding(crate::specs::Times::clock))]
pub fn clock(s: &[u8], c: Cursor) -> Option<(u16, Cursor)>
    ensures { Reads times.out_of_range (times.clock s.now c.at) result }
{
    let (h, c) = c.hour(s)?;
    let c = c.sign(s, b':')?;
    let (m, c) = c.minute(s)?;
    Some((minutes_of(h, m), c))
}

// An event by its number, with minutes added or taken off. (A number: the value of its name, as `Cursor::named` reads it.)
#[tactic(auto, unfolding(crate::specs::Times::event_of))]
fn event_of(event: u8, minutes: i16) -> Time
    ensures { result ≡ times.event_of event minutes }
{
    match event {
        1 => Time::Dawn(minutes),
        2 => Time::Sunrise(minutes),
        3 => Time::Sunset(minutes),
        _ => Time::Dusk(minutes),
    }
}

impl SpeltTime {
    // A clock time.
    pub fn clock(minutes: u16) -> SpeltTime
        ensures { spelt result ≡ (Fixed minutes, false) }
    {
        SpeltTime {
            time: Time::Fixed(minutes),
            odd: false,
        }
    }

    // An event, with minutes added or taken off.
    pub fn event(event: Named, minutes: i16) -> SpeltTime
        ensures { spelt result ≡ (times.event_of event.value minutes, event.odd) }
    {
        SpeltTime {
            time: event_of(event.value, minutes),
            odd: event.odd,
        }
    }
}

// A clock time that is added to an event, or taken off.
fn sun(s: &[u8], c: Cursor, event: Named, negative: bool) -> Option<(SpeltTime, Cursor)>
    ensures { times.sun_of (event.value, event.odd) negative (times.clock s.now c.at) ≡ seen_time result }
{
    let (minutes, c) = clock(s, c)?;
    Some((SpeltTime::event(event, signed(negative, minutes)), c))
}

// After `(` and an event: `±H:MM`.
#[tactic(auto, using(crate::proofs::Laws::with_offset_plus), unfolding(crate::specs::Times::with_offset))]
fn with_offset(s: &[u8], c: Cursor, event: Named) -> Option<(SpeltTime, Cursor)>
    ensures { times.with_offset (event.value, event.odd) s.now c.at ≡ seen_time result }
{
    if let Some(d) = c.sign(s, b'+') {
        return sun(s, d, event, false);
    }
    let c = c.sign(s, b'-')?;
    sun(s, c, event, true)
}

// `(event±H:MM)`
#[tactic(auto, unfolding(crate::specs::Times::event_with_offset))]
fn event_with_offset(s: &[u8], c: Cursor) -> Option<(SpeltTime, Cursor)>
    ensures { times.event_with_offset s.now c.at ≡ seen_time result }
{
    let c = c.sign(s, b'(')?;
    let (event, c) = c.named(s, NameKind::Event as u8)?;
    let (time, c) = with_offset(s, c, event)?;
    let c = c.sign(s, b')')?;
    Some((time, c))
}

// An event, or `(event±H:MM)`.
pub fn event_time(s: &[u8], c: Cursor) -> Option<(SpeltTime, Cursor)>
    ensures { times.event_time s.now c.at ≡ seen_time result }
{
    match c.named(s, NameKind::Event as u8) {
        Some((event, d)) => Some((SpeltTime::event(event, 0), d)),
        None => event_with_offset(s, c),
    }
}

// A time.
#[tactic(auto, unfolding(crate::specs::Times::time))]
pub fn time(s: &[u8], c: Cursor) -> Option<(SpeltTime, Cursor)>
    ensures { times.time s.now c.at ≡ seen_time result }
{
    match clock(s, c) {
        Some((minutes, d)) => Some((SpeltTime::clock(minutes), d)),
        None => event_time(s, c),
    }
}
