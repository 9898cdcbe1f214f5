// One look at a place: a name is looked up once, and the item goes by its kind; else by its numbers.
ghost use Rattle.std.specs.Prelude.{◌≤◌, ◌<◌, ◌||◌, [], ◌∷◌, ◌≡◌, length};
ghost use Rattle.names.specs.Read.{got, none};
ghost use Rattle.names.specs.Names.{word};
ghost use Rattle.names.specs.Seen.{number_of, numbers};
ghost use Rattle.names.specs.declared.Manner.{Manner};
ghost use Rattle.names.specs.Numbers.{year as yearNumber};
ghost use Rattle.records.specs.Seen.{seen_item};
ghost use Rattle.dates.specs.Weeks.{week_item};
ghost use Rattle.dates.specs.MonthDays.{month_day_item};
ghost use Rattle.items.specs.Kinds.{after_blank, item_in};
ghost use Rattle.items.specs.Sets.{has_kind, picked, yearly, numbered, kinds_of};
ghost use Rattle.items.specs.Seen.{Standing, at_place, with_kind, Finds, after_name, place_of};
ghost use Rattle.items.specs.declared.Kind.TheVariants.{Years, MonthDays, Times};

use crate::musts::must;
use crate::{Kind, Kinds, PlacedItem, Stands};
use dates::{month_day_item_after, week_item, year_item_after};
use days::{holiday_item_after, weekday_item_after};
use names::{Cursor, Manner, NameKind, Refusal, Spelled, Word};
use records::ItemRead;
use times::{event_item_after, time_item};

// What reading an item that is wanted finds.
type PlacedRead = Result<Option<(PlacedItem, Cursor)>, Refusal>;

// A blank and a week.
fn week_after_blank(s: &[u8], c: Cursor) -> ItemRead
    ensures { after_blank week_item s.now c.at ≡ seen_item result }
{
    match c.blank(s) {
        Some(d) => week_item(s, d),
        None => Ok(None),
    }
}

// What reading an item of this kind at c finds, and its place.
fn found(s: &[u8], c: Cursor, m: ItemRead, kind: Kind) -> PlacedRead
    ensures { Finds (with_kind kind (at_place s.now c.at c.at (seen_item m))) result }
{
    let place = c.at;
    match m? {
        Some((item, d)) => Ok(Some((PlacedItem { item, place, kind }, d))),
        None => Ok(None),
    }
}

// The item at c that begins with this name, up to d.
#[tactic(auto, unfolding(crate::specs::Seen::after_name))]
fn begun(s: &[u8], m: Manner, c: Cursor, name: Word, d: Cursor) -> ItemRead
    requires at_lt_at { c.at < d.at }
    requires at_in_bounds { d.at ≤ length s.now }
    ensures { after_name m c.at (number_of name.kind) name.value s.now d.at ≡ seen_item result }
{
    match name.kind {
        NameKind::Weekday => weekday_item_after(s, m, c.at, d, name.value),
        NameKind::Month | NameKind::Easter => {
            let odd = c.odd(s, name.kind.number(), d);
            month_day_item_after(s, c.at, d, None, name.kind.number(), name.value, odd)
        }
        NameKind::Event => event_item_after(s, m, c.at, d, name.value),
        NameKind::Holiday => holiday_item_after(s, c.at, d, name.value),
        NameKind::Week => must(s, d, week_after_blank(s, d)),
        NameKind::Modifier | NameKind::Day => Ok(None),
    }
}

// The place of an item at c that begins with a name of this kind, up to d: a week's is where its number begins.
#[tactic(auto, unfolding(crate::specs::Seen::place_of))]
fn place_of(s: &[u8], c: Cursor, name: NameKind, d: Cursor) -> usize
    ensures { result ≡ place_of (number_of name) c.at s.now d.at }
{
    if name == NameKind::Week {
        d.blanks(s).at
    } else {
        c.at
    }
}

// What stands at c, where this name stands, up to d.
#[tactic(auto, using(crate::proofs::Picks::begins))]
fn named(
    s: &[u8],
    m: Manner,
    c: Cursor,
    set: Kinds,
    name: Word,
    d: Cursor,
) -> Result<Stands, Refusal>
    requires { word s.now c.at ≡ got (numbers name) d.at }
    ensures { Standing m (kinds_of set.bits) s.now c.at result }
{
    let Some(kind) = set.wanted_as(name.kind) else {
        return Ok(Stands::Name(name, d));
    };
    let Some((item, e)) = begun(s, m, c, name, d)? else {
        return Ok(Stands::Name(name, d));
    };
    let place = place_of(s, c, name.kind, d);
    Ok(Stands::Item(PlacedItem { item, place, kind }, e))
}

// A month day at c, where a year stands, up to d.
// (Three functions ask that it stands: a fact of the text, so that a type of the year and the place after it would have to hold the text too.)
#[tactic(auto, using(crate::proofs::Standing::dated_is, crate::proofs::Standing::undated_name, crate::proofs::Standing::undated_blank))]
fn dated(s: &[u8], c: Cursor, y: u16, d: Cursor) -> ItemRead
    requires { yearNumber s.now c.at ≡ got y d.at }
    ensures { month_day_item s.now c.at ≡ seen_item result }
{
    let Some(e) = d.blank(s) else {
        return Ok(None);
    };
    let Some((Spelled { word, odd }, f)) = e.spelled(s) else {
        return Ok(None);
    };
    month_day_item_after(s, c.at, f, Some(y), word.kind.number(), word.value, odd)
}

// A month day at c, where one is wanted and a year stands, up to d.
#[tactic(auto, using(crate::proofs::Finding::alone), unfolding(crate::specs::Kinds::item_of))]
fn month_day(s: &[u8], c: Cursor, set: Kinds, y: u16, d: Cursor) -> PlacedRead
    requires { yearNumber s.now c.at ≡ got y d.at }
    ensures { (m : Manner) → Finds (item_in m (picked set.bits (MonthDays ∷ [])) s.now c.at) result }
{
    if set.has(Kind::MonthDays) {
        found(s, c, dated(s, c, y, d), Kind::MonthDays)
    } else {
        Ok(None)
    }
}

// An item at c that begins with a year, up to d. A year before a blank and a month or `easter` belongs to the date.
#[tactic(auto, using(crate::proofs::Standing::year_item_lem, crate::proofs::Finding::in_turn), unfolding(crate::specs::Kinds::item_of))]
fn with_year(s: &[u8], c: Cursor, set: Kinds, y: u16, d: Cursor) -> PlacedRead
    requires { yearNumber s.now c.at ≡ got y d.at }
    ensures { (m : Manner) → Finds (item_in m (picked set.bits yearly) s.now c.at) result }
{
    let date = month_day(s, c, set, y, d)?;
    if date.is_some() {
        return Ok(date);
    }
    if set.has(Kind::Years) {
        found(s, c, year_item_after(s, c.at, d, y), Kind::Years)
    } else {
        Ok(None)
    }
}

// Whether an item that begins with a year is wanted.
fn wants_years(set: Kinds) -> bool
    ensures { result ≡ (has_kind set.bits MonthDays || has_kind set.bits Years) }
{
    set.has(Kind::MonthDays) || set.has(Kind::Years)
}

// An item at c that begins with a year, where one is wanted.
#[tactic(auto, using(crate::proofs::Picks::pick_neither, crate::proofs::Picks::pick_yearless))]
fn year_first(s: &[u8], c: Cursor, set: Kinds) -> PlacedRead
    requires { word s.now c.at ≡ none }
    ensures { (m : Manner) → Finds (item_in m (picked set.bits yearly) s.now c.at) result }
{
    if !wants_years(set) {
        return Ok(None);
    }
    match c.year(s) {
        Some((y, d)) => with_year(s, c, set, y as u16, d),
        None => Ok(None),
    }
}

// A time at c, where one is wanted.
#[tactic(auto, using(crate::proofs::Finding::alone), unfolding(crate::specs::Kinds::item_of))]
fn time(s: &[u8], m: Manner, c: Cursor, set: Kinds) -> PlacedRead
    ensures { Finds (item_in m (picked set.bits (Times ∷ [])) s.now c.at) result }
{
    if set.has(Kind::Times) {
        found(s, c, time_item(s, m, c), Kind::Times)
    } else {
        Ok(None)
    }
}

// A time or a week's number at c.
#[tactic(auto, using(crate::proofs::Finding::in_turn), unfolding(crate::specs::Kinds::item_of))]
fn with_number(s: &[u8], m: Manner, c: Cursor, set: Kinds) -> PlacedRead
    ensures { Finds (item_in m (picked set.bits numbered) s.now c.at) result }
{
    let span = time(s, m, c, set)?;
    if span.is_some() {
        return Ok(span);
    }
    if set.has(Kind::WeekNumbers) {
        found(s, c, week_item(s, c), Kind::WeekNumbers)
    } else {
        Ok(None)
    }
}

// What stands at c, where no name does.
#[tactic(auto, using(crate::proofs::Finding::yearly_first, crate::proofs::Finding::yearly_after))]
fn unnamed(s: &[u8], m: Manner, c: Cursor, set: Kinds) -> Result<Stands, Refusal>
    requires { word s.now c.at ≡ none }
    ensures { Standing m (kinds_of set.bits) s.now c.at result }
{
    if let Some((item, d)) = year_first(s, c, set)? {
        return Ok(Stands::Item(item, d));
    }
    match with_number(s, m, c, set)? {
        Some((item, d)) => Ok(Stands::Item(item, d)),
        None => Ok(Stands::Nothing),
    }
}

// What stands at c, where items of these kinds are wanted.
pub fn look_at(s: &[u8], m: Manner, c: Cursor, set: Kinds) -> Result<Stands, Refusal>
    ensures { Standing m (kinds_of set.bits) s.now c.at result }
{
    match c.word(s) {
        Some((name, d)) => named(s, m, c, set, name, d),
        None => unnamed(s, m, c, set),
    }
}
