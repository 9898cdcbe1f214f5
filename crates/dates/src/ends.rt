// Date item: date[offset], then nothing, `+`, or `-` and an end, which is a date or a bare `D`, with [offset].
ghost use Rattle.std.specs.Prelude.{◌≡◌};
ghost use Rattle.names.specs.Seen.{seen, seen_then};
ghost use Rattle.dates.specs.Ends as ends;

use crate::dates::date;
use crate::{RawDate, RawDates, RawEnd};
use days::offset;
use names::Cursor;

// After a minus: a date, with [offset].
#[tactic(auto, unfolding(crate::specs::Ends::until_date))]
fn until_date(s: &[u8], c: Cursor) -> Option<(RawEnd, Cursor)>
    ensures { ends.until_date s.now c.at ≡ seen (λ a. a) result }
{
    let (last, d) = date(s, c)?;
    let (o, e) = offset(s, d);
    Some((RawEnd::Until(last, o), e))
}

// After a minus: a bare `D`, with [offset].
#[tactic(auto, unfolding(crate::specs::Ends::bare_day))]
fn bare_day(s: &[u8], c: Cursor) -> Option<(RawEnd, Cursor)>
    ensures { ends.bare_day s.now c.at ≡ seen (λ a. a) result }
{
    let (n, d) = c.short(s)?;
    let (o, e) = offset(s, d);
    Some((RawEnd::Bare(n as u8, o), e))
}

// After a minus: a date or a bare `D`, with [offset].
#[tactic(auto, unfolding(crate::specs::Ends::until))]
fn until(s: &[u8], c: Cursor) -> Option<(RawEnd, Cursor)>
    ensures { ends.until s.now c.at ≡ seen (λ a. a) result }
{
    until_date(s, c).or_else(|| bare_day(s, c))
}

// `+`, or `-` and an end, or nothing.
#[tactic(auto, unfolding(crate::specs::Ends::end_shape))]
fn end_shape(s: &[u8], c: Cursor) -> (RawEnd, Cursor)
    ensures { ends.end_shape s.now c.at ≡ seen_then (λ a. a) result }
{
    if let Some(d) = c.sign(s, b'+') {
        return (RawEnd::Plus, d);
    }
    if let Some(d) = c.sign(s, b'-')
        && let Some(end) = until(s, d)
    {
        return end;
    }
    (RawEnd::Nothing, c)
}

// The shape of a date item after its date.
#[tactic(auto, unfolding(crate::specs::Ends::dates_after))]
pub fn dates_after(s: &[u8], c: Cursor, date: RawDate) -> (RawDates, Cursor)
    ensures { ends.dates_after date s.now c.at ≡ seen_then (λ a. a) result }
{
    let (offset, d) = offset(s, c);
    let (end, e) = end_shape(s, d);
    (RawDates { date, offset, end }, e)
}
