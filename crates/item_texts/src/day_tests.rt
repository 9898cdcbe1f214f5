// Which weekdays and holidays a sheet can have.
ghost use Rattle.std.specs.Prelude.{◌≡◌};
ghost use Rattle.sheet_texts.specs.Days as texts;

use day_texts::is_plain;
use names::within;
use records::{Holiday, WeekDayRange};

// A number of days in range.
pub fn good_days(x: i16) -> bool
    ensures { result ≡ texts.good_days x }
{
    x.unsigned_abs() <= 32767
}

// Flags: of five bits each, and not none at all.
#[tactic(auto, unfolding(sheet_texts::specs::Days::good_flags))]
fn good_flags(starts: u8, ends: u8) -> bool
    ensures { result ≡ texts.good_flags starts ends }
{
    starts <= 31 && ends <= 31 && !(starts == 0 && ends == 0)
}

// Marks or an offset only on a single weekday.
#[tactic(auto, using(sheet_texts::proofs::Named::weekday_is), unfolding(sheet_texts::specs::Days::good_weekdays))]
pub fn good_weekdays(r: WeekDayRange) -> bool
    ensures { result ≡ texts.good_weekdays r }
{
    within(1, 7, u32::from(r.first))
        && within(1, 7, u32::from(r.last))
        && good_days(r.days)
        && good_flags(r.starts, r.ends)
        && (r.first == r.last || is_plain(r))
}

#[tactic(auto, using(sheet_texts::proofs::Named::holiday_is), unfolding(sheet_texts::specs::Days::good_holiday))]
pub fn good_holiday(r: Holiday) -> bool
    ensures { result ≡ texts.good_holiday r }
{
    within(1, 2, u32::from(r.kind)) && good_days(r.days)
}
