// What may stand in a rule after an item of a kind: a row for each kind.
ghost use Rattle.std.specs.Prelude.{◌≡◌};
ghost use Rattle.items.specs.Sets.{kinds_of};
ghost use Rattle.rules.specs.Rows as rows;

use items::{
    HOLIDAYS, Kind, Kinds, LAST_HOLIDAYS, LAST_WEEKDAYS, MONTH_DAYS, NO_KIND, TIMES, WEEK_NUMBERS,
    WEEKDAYS, WEEKS, YEARS,
};

// A small part. (A constant is made of its bits: it calls no `|` of sets.)
pub const SMALL: Kinds = Kinds {
    bits: WEEKDAYS.bits | HOLIDAYS.bits | TIMES.bits,
};

// The first item of a rule.
pub const FIRST: Kinds = Kinds {
    bits: MONTH_DAYS.bits | YEARS.bits | WEEKS.bits | SMALL.bits,
};

// What a comma asks for.
#[tactic(auto, unfolding(items::specs::Sets::bit_of, items::specs::Sets::has, items::specs::Sets::kinds_of, items::specs::Sets::picked, crate::specs::Rows::listed))]
pub fn listed(kind: Kind) -> Kinds
    ensures { kinds_of result.bits ≡ rows.listed kind }
{
    match kind {
        Kind::Years => YEARS,
        Kind::MonthDays => MONTH_DAYS,
        Kind::Weeks | Kind::WeekNumbers => WEEK_NUMBERS,
        Kind::Weekdays => WEEKDAYS | LAST_HOLIDAYS,
        Kind::LastWeekdays => LAST_WEEKDAYS,
        Kind::Holidays => LAST_WEEKDAYS | HOLIDAYS,
        Kind::LastHolidays => LAST_HOLIDAYS,
        Kind::Times => TIMES,
    }
}

// What may stand after a blank.
#[tactic(auto, unfolding(items::specs::Sets::bit_of, items::specs::Sets::has, items::specs::Sets::kinds_of, items::specs::Sets::picked, crate::specs::Rows::following))]
pub fn following(kind: Kind) -> Kinds
    ensures { kinds_of result.bits ≡ rows.following kind }
{
    match kind {
        Kind::Years => MONTH_DAYS | WEEKS | SMALL,
        Kind::MonthDays => WEEKS | SMALL,
        Kind::Weeks | Kind::WeekNumbers => SMALL,
        Kind::Weekdays | Kind::LastWeekdays | Kind::Holidays | Kind::LastHolidays => TIMES,
        Kind::Times => NO_KIND,
    }
}

// Whether a kind belongs to the wide part, which may end in a colon.
#[tactic(auto, unfolding(crate::specs::Rows::is_wide))]
pub fn is_wide(kind: Kind) -> bool
    ensures { result ≡ rows.is_wide kind }
{
    match kind {
        Kind::Years | Kind::MonthDays | Kind::Weeks | Kind::WeekNumbers => true,
        Kind::Weekdays | Kind::LastWeekdays | Kind::Holidays | Kind::LastHolidays | Kind::Times =>
            false,
    }
}
