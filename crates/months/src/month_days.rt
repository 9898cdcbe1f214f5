// Whether a month-day item can touch a month in any year.
ghost use Rattle.std.specs.Prelude.{◌≡◌};
ghost use Rattle.months.specs.Months as months;

use records::{DateSpan, Day, Item};
use touched::{no_offset, round};

// From the month of one end to that of the other; a span within one month may leave it.
fn span_can(a: u8, b: u8, stays: bool, m: u8) -> bool
    ensures { result ≡ months.span_can a b stays m }
{
    (a == b && !stays) || round(u32::from(a), u32::from(b), u32::from(m))
}

// A span with these ends, without years and offsets.
#[tactic(auto, unfolding(crate::specs::Months::ends_can, crate::specs::Months::stays_in, crate::specs::Months::same_z))]
fn ends_can(a: Day, b: Day, x: u8) -> bool
    ensures { result ≡ months.ends_can a b x }
{
    match (a, b) {
        (Day::Fixed(m, d), Day::Fixed(n, e)) => span_can(m, n, d <= e, x),
        (Day::Weekday(m, v, j), Day::Weekday(n, w, k)) => span_can(m, n, v == w && j == k, x),
        (Day::Fixed(m, _), Day::Weekday(n, _, _)) => span_can(m, n, false, x),
        (Day::Weekday(m, _, _), Day::Fixed(n, _)) => span_can(m, n, false, x),
        (Day::Easter, _) | (_, Day::Easter) => true,
    }
}

// Dates: an offset or a year in an end means all months.
#[tactic(auto, unfolding(crate::specs::Months::dates_can))]
fn dates_can(r: DateSpan, x: u8) -> bool
    ensures { result ≡ months.dates_can r x }
{
    let plain = no_offset(r.start_offset)
        && no_offset(r.end_offset)
        && r.start.year == 0
        && r.end.year == 0;
    !plain || ends_can(r.start.day, r.end.day, x)
}

// An item; others than month-day items are not asked.
#[tactic(auto, unfolding(crate::specs::Months::item_can))]
pub fn item_can(a: Item, x: u8) -> bool
    ensures { result ≡ months.item_can a x }
{
    match a {
        Item::Months(r) => round(u32::from(r.first), u32::from(r.last), u32::from(x)),
        Item::Dates(r) => dates_can(r, x),
        _ => false,
    }
}
