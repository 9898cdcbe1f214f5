// The Gregorian calendar: leap years, the last day of a month, and which days there are. Year 0 stands for no year.
#![tactic(auto)]

ghost use Rattle.std.specs.Prelude.{◌≡◌};
ghost use Rattle.calendar.specs.Calendar as calendar;

use names::within;

// A leap year is divisible by 4 and not by 100, unless by 400.
#[tactic(auto, unfolding(crate::specs::Calendar::leap))]
pub fn leap(y: u16) -> bool
    ensures { result ≡ calendar.leap y }
{
    y % 4 == 0 && (y % 100 != 0 || y % 400 == 0)
}

// The last day of February: 29 in a leap year, and without a year.
#[tactic(auto, unfolding(crate::specs::Calendar::last_of_february))]
fn last_of_february(y: u16) -> u8
    ensures { result ≡ calendar.last_of_february y }
{
    if y == 0 || leap(y) { 29 } else { 28 }
}

// The last day of month m of year y.
#[tactic(auto, unfolding(crate::specs::Calendar::last_of, crate::specs::Calendar::has_thirty))]
pub fn last_of(y: u16, m: u8) -> u8
    ensures { result ≡ calendar.last_of y m }
{
    match m {
        2 => last_of_february(y),
        4 | 6 | 9 | 11 => 30,
        _ => 31,
    }
}

// Whether year y has a month m with a day d.
#[tactic(auto, unfolding(crate::specs::Calendar::is_day))]
pub fn is_day(y: u16, m: u8, d: u8) -> bool
    ensures { result ≡ calendar.is_day y m d }
{
    within(1, 12, m as u32) && within(1, last_of(y, m) as u32, d as u32)
}
