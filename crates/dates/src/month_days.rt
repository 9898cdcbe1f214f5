// An item of a month-day list: a date item, or a month span: [`YYYY` blank] `Mon`[`-Mon`].
ghost use Rattle.std.specs.Prelude.{◌≡◌};
ghost use Rattle.records.specs.Seen.{seen_item};
ghost use Rattle.dates.specs.MonthDays as monthdays;
ghost use Rattle.dates.specs.Seen.{then_month};

use crate::RawMonths;
use crate::dates::{day_after, optional_year};
use crate::ends::dates_after;
use crate::meanings::{date_meaning, month_meaning};
use names::{Cursor, NameKind, Named, Spelled};
use records::{ItemRead, judged};

// After the first month: `-Mon`, or nothing, where the first stands alone.
#[tactic(auto, unfolding(crate::specs::MonthDays::last_month))]
fn month_after(s: &[u8], c: Cursor, first: u8) -> (Named, Cursor)
    ensures { monthdays.last_month first s.now c.at ≡ then_month result }
{
    if let Some(d) = c.sign(s, b'-')
        && let Some(last) = d.named(s, NameKind::Month as u8)
    {
        return last;
    }
    let alone = Named {
        value: first,
        odd: false,
    };
    (alone, c)
}

// The month span that begins at p, after its first name. (Its kind is a number, as `month_day_item_after` takes it.)
#[tactic(auto, unfolding(crate::specs::MonthDays::month_item_after, crate::specs::MonthDays::month_after))]
fn month_item_after(
    s: &[u8],
    p: usize,
    c: Cursor,
    year: Option<u16>,
    kind: u8,
    first: u8,
    odd: bool,
) -> ItemRead
    ensures { monthdays.month_item_after p year ((kind, first), odd) s.now c.at ≡ seen_item result }
{
    if kind != NameKind::Month as u8 {
        return Ok(None);
    }
    let (last, d) = month_after(s, c, first);
    let months = RawMonths {
        year,
        first,
        last: last.value,
        odd_first: odd,
        odd_last: last.odd,
    };
    judged(p, month_meaning(months), d)
}

// The item that begins at p, after its year and its first name: a date is longer than the month span that it begins with.
// (The name's kind is a number: a caller may give any, as docs/CONTRACTS.md says.)
#[tactic(auto, unfolding(crate::specs::MonthDays::month_day_after, crate::specs::MonthDays::date_item_after))]
pub fn month_day_item_after(
    s: &[u8],
    p: usize,
    c: Cursor,
    year: Option<u16>,
    kind: u8,
    first: u8,
    odd: bool,
) -> ItemRead
    ensures { monthdays.month_day_after p year ((kind, first), odd) s.now c.at ≡ seen_item result }
{
    match day_after(s, c, kind, first) {
        Some((rest, d)) => {
            let (dates, e) = dates_after(s, d, rest.dated(year, odd));
            judged(p, date_meaning(dates), e)
        }
        None => month_item_after(s, p, c, year, kind, first, odd),
    }
}

// An item of a month-day list.
#[tactic(auto, unfolding(crate::specs::MonthDays::month_day_item))]
pub fn month_day_item(s: &[u8], c: Cursor) -> ItemRead
    ensures { monthdays.month_day_item s.now c.at ≡ seen_item result }
{
    let (year, d) = optional_year(s, c);
    match d.spelled(s) {
        Some((Spelled { word, odd }, e)) => {
            month_day_item_after(s, c.at, e, year, word.kind.number(), word.value, odd)
        }
        None => Ok(None),
    }
}
