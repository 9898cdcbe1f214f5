// Offset: `+Wd` or `-Wd`, or a day offset, or both in that order. Day offset: blank, sign, `N`, blank, `day` or `days`.
ghost use Rattle.std.specs.Prelude.{◌≡◌};
ghost use Rattle.names.specs.Seen.{seen, seen_then};
ghost use Rattle.days.specs.Offsets as offsets;

use crate::RawOffset;
use names::{Cursor, NameKind};
use records::signed;

// N goes from 0 to 32,767.
const MOST_DAYS: u32 = i16::MAX as u32;

// What is read where N is above 32,767: no number of days in range.
// A number, and no None: the definition out_of_range (specs/Offsets.antt) is one, less than all in range.
pub const OUT_OF_RANGE: i16 = i16::MIN;

// A plus or a minus: whether it is a minus.
#[tactic(auto, unfolding(crate::specs::Offsets::plus_or_minus))]
fn plus_or_minus(s: &[u8], c: Cursor) -> Option<(bool, Cursor)>
    ensures { offsets.plus_or_minus s.now c.at ≡ seen (λ a. a) result }
{
    if let Some(d) = c.sign(s, b'+') {
        return Some((false, d));
    }
    let d = c.sign(s, b'-')?;
    Some((true, d))
}

// Days that are added, or taken off. A shape is read whatever its number, and judged after that.
fn days_of(negative: bool, n: u32) -> i16
    ensures { result ≡ offsets.days_of negative n }
{
    if n <= MOST_DAYS {
        signed(negative, n as u16)
    } else {
        OUT_OF_RANGE
    }
}

// Day offset: blank, sign, `N`, blank, `day` or `days`.
#[tactic(auto, unfolding(crate::specs::Offsets::day_offset))]
pub fn day_offset(s: &[u8], c: Cursor) -> Option<(i16, Cursor)>
    ensures { offsets.day_offset s.now c.at ≡ seen (λ a. a) result }
{
    let d = c.blank(s)?;
    let (negative, e) = plus_or_minus(s, d)?;
    let (n, f) = e.count(s)?;
    let g = f.blank(s)?;
    let (_, next) = g.name(s, NameKind::Day as u8)?;
    Some((days_of(negative, n), next))
}

// A day offset, or none.
#[tactic(auto, unfolding(crate::specs::Offsets::any_days))]
pub fn any_days(s: &[u8], c: Cursor) -> (i16, Cursor)
    ensures { offsets.any_days s.now c.at ≡ seen_then (λ a. a) result }
{
    day_offset(s, c).unwrap_or((0, c))
}

// `+Wd` or `-Wd`, and whether the name calls for a warning.
#[tactic(auto, unfolding(crate::specs::Offsets::wday_offset))]
fn wday_offset(s: &[u8], c: Cursor) -> Option<((i16, bool), Cursor)>
    ensures { offsets.wday_offset s.now c.at ≡ seen (λ a. a) result }
{
    let (negative, d) = plus_or_minus(s, c)?;
    let (name, next) = d.named(s, NameKind::Weekday as u8)?;
    Some(((signed(negative, name.value as u16), name.odd), next))
}

// An offset, or none.
#[tactic(auto, unfolding(crate::specs::Offsets::offset))]
pub fn offset(s: &[u8], c: Cursor) -> (RawOffset, Cursor)
    ensures { offsets.offset s.now c.at ≡ seen_then (λ a. a) result }
{
    let ((wday, odd), d) = wday_offset(s, c).unwrap_or(((0, false), c));
    let (days, next) = any_days(s, d);
    (RawOffset { wday, days, odd }, next)
}
