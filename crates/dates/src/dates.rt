// Date: [`YYYY` blank] then `easter`, `Mon` blank `D`, or `Mon` blank `Wd[n]` or `Wd[-n]`.
ghost use Rattle.std.specs.Prelude.{◌≡◌};
ghost use Rattle.names.specs.Seen.{numbers, seen, seen_then};
ghost use Rattle.dates.specs.Dates as dates;
ghost use Rattle.dates.specs.Seen.{spelt, seen_day};

use crate::{RawDate, RawDay};
use names::{Cursor, NameKind};
use records::{Day, signed};

// [`YYYY` blank]
#[tactic(auto, unfolding(crate::specs::Dates::optional_year))]
pub fn optional_year(s: &[u8], c: Cursor) -> (Option<u16>, Cursor)
    ensures { dates.optional_year s.now c.at ≡ seen_then (λ a. a) result }
{
    if let Some((year, d)) = c.year(s)
        && let Some(e) = d.blank(s)
    {
        return (Some(year as u16), e);
    }
    (None, c)
}

// `-n`
#[tactic(auto, unfolding(crate::specs::Dates::back_nth))]
fn back_nth(s: &[u8], c: Cursor) -> Option<(i16, Cursor)>
    ensures { dates.back_nth s.now c.at ≡ seen (λ a. a) result }
{
    let (n, d) = c.sign(s, b'-')?.ordinal(s)?;
    Some((signed(true, n as u16), d))
}

// `n`
#[tactic(auto, unfolding(crate::specs::Dates::front_nth))]
fn front_nth(s: &[u8], c: Cursor) -> Option<(i16, Cursor)>
    ensures { dates.front_nth s.now c.at ≡ seen (λ a. a) result }
{
    let (n, d) = c.ordinal(s)?;
    Some((signed(false, n as u16), d))
}

// `n` or `-n`
#[tactic(auto, unfolding(crate::specs::Dates::nth))]
fn nth(s: &[u8], c: Cursor) -> Option<(i16, Cursor)>
    ensures { dates.nth s.now c.at ≡ seen (λ a. a) result }
{
    back_nth(s, c).or_else(|| front_nth(s, c))
}

// After a month and a blank: `Wd[n]` or `Wd[-n]`.
#[tactic(auto, unfolding(crate::specs::Dates::weekday_of))]
fn weekday_of(s: &[u8], c: Cursor, month: u8) -> Option<(RawDay, Cursor)>
    ensures { dates.weekday_of month s.now c.at ≡ seen_day result }
{
    let (weekday, d) = c.named(s, NameKind::Weekday as u8)?;
    let (n, e) = nth(s, d.sign(s, b'[')?)?;
    let f = e.sign(s, b']')?;
    let day = Day::Weekday(month, weekday.value, n);
    Some((
        RawDay {
            day,
            odd: weekday.odd,
        },
        f,
    ))
}

// After a month: a blank, and `D` or a weekday.
#[tactic(auto, unfolding(crate::specs::Dates::day_of))]
fn day_of(s: &[u8], c: Cursor, month: u8) -> Option<(RawDay, Cursor)>
    ensures { dates.day_of month s.now c.at ≡ seen_day result }
{
    let d = c.blank(s)?;
    match d.short(s) {
        Some((n, e)) => {
            let day = Day::Fixed(month, n as u8);
            Some((RawDay { day, odd: false }, e))
        }
        None => weekday_of(s, d, month),
    }
}

// After a name of the kind of this number: nothing more after `easter`, a day after a month. (As `month_day_item_after` takes it.)
#[tactic(auto, unfolding(crate::specs::Dates::day_after))]
pub fn day_after(s: &[u8], c: Cursor, kind: u8, value: u8) -> Option<(RawDay, Cursor)>
    ensures { dates.day_after (kind, value) s.now c.at ≡ seen_day result }
{
    if kind == NameKind::Easter as u8 {
        let day = Day::Easter;
        Some((RawDay { day, odd: false }, c))
    } else if kind == NameKind::Month as u8 {
        day_of(s, c, value)
    } else {
        None
    }
}

// A date.
#[tactic(auto, unfolding(crate::specs::Dates::date))]
pub fn date(s: &[u8], c: Cursor) -> Option<(RawDate, Cursor)>
    ensures { dates.date s.now c.at ≡ seen (λ a. a) result }
{
    let (year, d) = optional_year(s, c);
    let (name, e) = d.spelled(s)?;
    let (rest, f) = day_after(s, e, name.word.kind.number(), name.word.value)?;
    Some((rest.dated(year, name.odd), f))
}

impl RawDay {
    // The date of this day, after its year and its first name.
    pub(crate) fn dated(self, year: Option<u16>, odd_name: bool) -> RawDate
        ensures { result ≡ dates.raw_date year odd_name (spelt self) }
    {
        RawDate {
            year,
            day: self.day,
            odd_name,
            odd_weekday: self.odd,
        }
    }
}
