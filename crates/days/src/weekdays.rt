// Weekday: `Wd`, `Wd-Wd`, or `Wd[entries]` with optional day offset. In the second edition `Wd` or `Wd-Wd`, each with optional `[entries]` and optional day offset.
ghost use Rattle.std.specs.Prelude.{◌≤◌, ◌<◌, ◌≡◌, length};
ghost use Rattle.names.specs.Read.{map};
ghost use Rattle.names.specs.Seen.{ReadsName, seen, seen_then};
ghost use Rattle.records.specs.Seen.{seen_item};
ghost use Rattle.days.specs.Weekdays as weekdays;

use crate::entries::{bits, entries, no_marks};
use crate::offsets::{OUT_OF_RANGE, any_days};
use crate::{Marks, RawWeekdays};
use names::{Cursor, Manner, NameKind, Named, Reason};
use records::{Item, ItemRead, Meant, WeekDayRange, judged};

// All five flags.
const ALL: u8 = 31;

// The same weekday once more: its name stands once.
fn again(w: Named) -> Named
    ensures { (result.value, result.odd) ≡ weekdays.again (w.value, w.odd) }
{
    Named { odd: false, ..w }
}

// Weekdays as they are read.
fn raw_weekdays(first: Named, last: Named, marks: Marks, days: i16) -> RawWeekdays
    ensures { result ≡ weekdays.raw_weekdays (first.value, first.odd) (last.value, last.odd) marks days }
{
    RawWeekdays {
        first: first.value,
        last: last.value,
        marks,
        days,
        odd_first: first.odd,
        odd_last: last.odd,
    }
}

// The meaning of weekdays without marks and days: all ten flags are set.
#[tactic(auto, unfolding(crate::specs::Weekdays::weekday_meaning, crate::specs::Weekdays::flagged, crate::specs::Entries::bits))]
fn plain(first: Named, last: Named) -> Meant
    ensures { result ≡ weekdays.weekday_meaning (weekdays.plain (first.value, first.odd) (last.value, last.odd)) }
{
    Ok(Item::Weekdays(WeekDayRange {
        first: first.value,
        last: last.value,
        days: 0,
        starts: ALL,
        ends: ALL,
        odd_first: first.odd,
        odd_last: last.odd,
    }))
}

// `-Wd`
#[tactic(auto, unfolding(crate::specs::Weekdays::last_weekday))]
fn last_weekday(s: &[u8], c: Cursor) -> Option<(Named, Cursor)>
    ensures { ReadsName 12 (weekdays.last_weekday s.now c.at) result }
{
    let d = c.sign(s, b'-')?;
    d.named(s, NameKind::Weekday as u8)
}

// `[entries]`
#[tactic(auto, unfolding(crate::specs::Weekdays::bracketed))]
fn bracketed(s: &[u8], c: Cursor) -> Option<(Marks, Cursor)>
    ensures { weekdays.bracketed s.now c.at ≡ seen (λ a. a) result }
{
    let d = c.sign(s, b'[')?;
    let (marks, e) = entries(s, d)?;
    let next = e.sign(s, b']')?;
    Some((marks, next))
}

// After the first: `[entries]` with optional day offset.
#[tactic(auto, unfolding(crate::specs::Weekdays::with_entries))]
fn with_entries(s: &[u8], c: Cursor, first: Named) -> Option<(RawWeekdays, Cursor)>
    ensures { weekdays.with_entries (first.value, first.odd) s.now c.at ≡ seen (λ a. a) result }
{
    let (marks, d) = bracketed(s, c)?;
    let (days, next) = any_days(s, d);
    Some((raw_weekdays(first, again(first), marks, days), next))
}

// After the first, in the first edition: `-Wd`, or `[entries]` with optional day offset, or nothing.
#[tactic(auto, unfolding(crate::specs::Weekdays::narrow_after, crate::specs::Weekdays::until_weekday))]
fn narrow_after(s: &[u8], c: Cursor, first: Named) -> (Meant, Cursor)
    ensures { map weekdays.weekday_meaning (weekdays.narrow_after (first.value, first.odd)) s.now c.at ≡ seen_then (λ a. a) result }
{
    if let Some((last, next)) = last_weekday(s, c) {
        return (plain(first, last), next);
    }
    // Most weekdays have no marks: they are told before entries are read.
    if c.byte(s) == b'[' {
        if let Some((raw, next)) = with_entries(s, c, first) {
            return (weekday_meaning(raw), next);
        }
    }
    (plain(first, again(first)), c)
}

// After the first, in the second edition: `-Wd` or none, `[entries]` or none, a day offset or none.
#[tactic(auto, unfolding(crate::specs::Weekdays::wide_after))]
fn wide_after(s: &[u8], c: Cursor, first: Named) -> (Meant, Cursor)
    ensures { map weekdays.weekday_meaning (weekdays.wide_after (first.value, first.odd)) s.now c.at ≡ seen_then (λ a. a) result }
{
    let (last, d) = last_weekday(s, c).unwrap_or((again(first), c));
    let (marks, e) = bracketed(s, d).unwrap_or((no_marks(), d));
    let (days, next) = any_days(s, e);
    (
        weekday_meaning(raw_weekdays(first, last, marks, days)),
        next,
    )
}

// The shape after the first weekday, and its meaning.
fn weekday_after(s: &[u8], m: Manner, c: Cursor, first: Named) -> (Meant, Cursor)
    ensures { map weekdays.weekday_meaning (weekdays.weekday_after m (first.value, first.odd)) s.now c.at ≡ seen_then (λ a. a) result }
{
    match m {
        Manner::Second => wide_after(s, c, first),
        Manner::First | Manner::House => narrow_after(s, c, first),
    }
}

// These weekdays; if no flag of the ten is set, all ten are.
#[tactic(auto, unfolding(crate::specs::Weekdays::flagged))]
fn flagged(r: WeekDayRange) -> Meant
    ensures { result ≡ weekdays.flagged (r.first, r.odd_first) (r.last, r.odd_last) r.days r.starts r.ends }
{
    if r.starts == 0 && r.ends == 0 {
        return Ok(Item::Weekdays(WeekDayRange {
            starts: ALL,
            ends: ALL,
            ..r
        }));
    }
    Ok(Item::Weekdays(r))
}

// The meaning.
#[tactic(auto, unfolding(crate::specs::Weekdays::weekday_meaning))]
fn weekday_meaning(r: RawWeekdays) -> Meant
    ensures { result ≡ weekdays.weekday_meaning r }
{
    if r.marks.good && OUT_OF_RANGE < r.days {
        flagged(WeekDayRange {
            first: r.first,
            last: r.last,
            odd_first: r.odd_first,
            odd_last: r.odd_last,
            days: r.days,
            starts: bits(r.marks.starts),
            ends: bits(r.marks.ends),
        })
    } else {
        Err(Reason::Range)
    }
}

// The item that begins at p, after its first weekday.
#[tactic(auto, unfolding(crate::specs::Weekdays::weekday_item_after))]
pub fn weekday_item_after(s: &[u8], m: Manner, p: usize, c: Cursor, first: u8) -> ItemRead
    requires p_lt_at { p < c.at }
    requires at_in_bounds { c.at ≤ length s.now }
    ensures { weekdays.weekday_item_after m p first s.now c.at ≡ seen_item result }
{
    let odd = Cursor { at: p }.odd(s, NameKind::Weekday as u8, c);
    let (meant, next) = weekday_after(s, m, c, Named { value: first, odd });
    judged(p, meant, next)
}

// A weekday item.
pub fn weekday_item(s: &[u8], m: Manner, c: Cursor) -> ItemRead
    ensures { weekdays.weekday_item m s.now c.at ≡ seen_item result }
{
    let Some((first, d)) = c.name(s, NameKind::Weekday as u8) else {
        return Ok(None);
    };
    weekday_item_after(s, m, c.at, d, first)
}
