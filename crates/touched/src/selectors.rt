// Whether a day selector touches a day.
ghost use Rattle.std.specs.Prelude.{◌≡◌};
ghost use Rattle.touched.specs.Selectors as selectors;

use crate::Touch;
use crate::touches::decided;
use almanac::{OnDay, Ymd};
use names::within;
use records::{Date, DateOffset, DateSpan, Day, Item, MonthSpan, WeekDayRange};

// The marks of all five weekdays of a month.
const ALL_FIVE: u8 = 31;

// Whether n is in the range and on a step, counted from the first; step 0: only the first.
#[tactic(auto, using(names::proofs::Laws::within_range), unfolding(crate::specs::Selectors::stepped))]
fn stepped(first: u16, last: u16, step: u16, n: u16) -> bool
    ensures { result ≡ selectors.stepped first last step n }
{
    within(u32::from(first), u32::from(last), u32::from(n)) && (n - first).is_multiple_of(step)
}

// Whether n is from first to last, going round where last is less.
#[tactic(auto, unfolding(crate::specs::Selectors::round))]
pub fn round(first: u32, last: u32, n: u32) -> bool
    ensures { result ≡ selectors.round first last n }
{
    if first <= last {
        within(first, last, n)
    } else {
        first <= n || n <= last
    }
}

// Months go round; those of a year that run backwards are undecided.
#[tactic(auto, unfolding(crate::specs::Selectors::months_touch))]
fn months_touch(r: MonthSpan, d: OnDay) -> Touch
    ensures { result ≡ selectors.months_touch r d }
{
    let first = u32::from(r.first);
    let last = u32::from(r.last);
    let month = u32::from(d.month);
    if r.year == 0 {
        return decided(round(first, last, month));
    }
    if first > last {
        return Touch::Undecided;
    }
    decided(r.year == d.year && within(first, last, month))
}

// A day of a month as a number: 5 January is 105.
fn month_day(month: u8, day: u8) -> u32
    ensures { result ≡ selectors.month_day month day }
{
    u32::from(month) * 100 + u32::from(day)
}

// The same with its year: 5 January 2024 is 20240105.
fn dated(year: u16, month: u8, day: u8) -> u32
    ensures { result ≡ selectors.dated year month day }
{
    u32::from(year) * 10000 + month_day(month, day)
}

// From one day to another; the year 0 is none.
#[tactic(auto, unfolding(crate::specs::Selectors::fixed_touch))]
fn fixed_touch(a: Ymd, b: Ymd, d: OnDay) -> Touch
    ensures { result ≡ selectors.fixed_touch a.year (selectors.month_day a.month a.day) b.year (selectors.month_day b.month b.day) d }
{
    if a.year == 0 && b.year == 0 {
        return decided(round(
            month_day(a.month, a.day),
            month_day(b.month, b.day),
            month_day(d.month, d.day),
        ));
    }
    if a.year == 0 || b.year == 0 {
        return Touch::Undecided;
    }
    decided(within(
        dated(a.year, a.month, a.day),
        dated(b.year, b.month, b.day),
        dated(d.year, d.month, d.day),
    ))
}

// Both ends fixed.
#[tactic(auto, unfolding(crate::specs::Selectors::ends_touch))]
fn ends_touch(a: Date, b: Date, d: OnDay) -> Touch
    ensures { result ≡ selectors.ends_touch a.year a.day b.year b.day d }
{
    match (a.day, b.day) {
        (Day::Fixed(first_month, first), Day::Fixed(last_month, last)) => {
            let from = Ymd {
                year: a.year,
                month: first_month,
                day: first,
            };
            let to = Ymd {
                year: b.year,
                month: last_month,
                day: last,
            };
            fixed_touch(from, to, d)
        }
        _ => Touch::Undecided,
    }
}

// No offset.
#[tactic(auto, unfolding(crate::specs::Selectors::no_offset, crate::specs::Selectors::is_zero))]
pub fn no_offset(o: DateOffset) -> bool
    ensures { result ≡ selectors.no_offset o }
{
    o.wday == 0 && o.days == 0
}

// Dates without offsets.
#[tactic(auto, unfolding(crate::specs::Selectors::dates_touch))]
fn dates_touch(r: DateSpan, d: OnDay) -> Touch
    ensures { result ≡ selectors.dates_touch r d }
{
    if no_offset(r.start_offset) && no_offset(r.end_offset) {
        ends_touch(r.start, r.end, d)
    } else {
        Touch::Undecided
    }
}

// Weekdays go round; an offset is undecided, and so are marks unless all ten are set.
#[tactic(auto, unfolding(crate::specs::Selectors::weekdays_touch, crate::specs::Selectors::is_zero))]
fn weekdays_touch(r: WeekDayRange, d: OnDay) -> Touch
    ensures { result ≡ selectors.weekdays_touch r d }
{
    if r.days == 0 && r.starts == ALL_FIVE && r.ends == ALL_FIVE {
        decided(round(u32::from(r.first), u32::from(r.last), u32::from(d.weekday)))
    } else {
        Touch::Undecided
    }
}

// An item; holidays are undecided, and times are no day selectors.
#[tactic(auto, unfolding(crate::specs::Selectors::touch))]
pub fn item_touch(d: OnDay, a: Item) -> Touch
    ensures { result ≡ selectors.touch d a }
{
    match a {
        Item::Years(r) => decided(stepped(r.first, r.last, r.step, d.year)),
        Item::Months(r) => months_touch(r, d),
        Item::Dates(r) => dates_touch(r, d),
        Item::Weeks(r) => decided(stepped(r.first, r.last, r.step, d.week)),
        Item::Weekdays(r) => weekdays_touch(r, d),
        Item::Holidays(_) => Touch::Undecided,
        Item::Times(_) => Touch::Yes,
    }
}
