// Sets of kinds.
ghost use Rattle.std.specs.Prelude.{◌≡◌, None};
ghost use Rattle.std.specs.Int.Bits.{bit_or};
ghost use Rattle.names.specs.Seen.{number_of};
ghost use Rattle.items.specs.Sets as sets;
ghost use Rattle.items.specs.Seen.{wish_if, wished};

use crate::{Kind, Kinds};
use names::NameKind;
use std::ops::BitOr;

pub const NO_KIND: Kinds = Kinds { bits: 0 };

pub const YEARS: Kinds = Kinds { bits: 1 };

pub const MONTH_DAYS: Kinds = Kinds { bits: 2 };

pub const WEEKS: Kinds = Kinds { bits: 4 };

pub const WEEK_NUMBERS: Kinds = Kinds { bits: 8 };

pub const WEEKDAYS: Kinds = Kinds { bits: 16 };

pub const LAST_WEEKDAYS: Kinds = Kinds { bits: 32 };

pub const HOLIDAYS: Kinds = Kinds { bits: 64 };

pub const LAST_HOLIDAYS: Kinds = Kinds { bits: 128 };

pub const TIMES: Kinds = Kinds { bits: 256 };

impl Kind {
    // The set of this kind alone.
    #[tactic(auto, unfolding(crate::specs::Sets::bit_of))]
    fn alone(self) -> Kinds
        ensures { result.bits ≡ sets.bit_of self }
    {
        match self {
            Kind::Years => YEARS,
            Kind::MonthDays => MONTH_DAYS,
            Kind::Weeks => WEEKS,
            Kind::WeekNumbers => WEEK_NUMBERS,
            Kind::Weekdays => WEEKDAYS,
            Kind::LastWeekdays => LAST_WEEKDAYS,
            Kind::Holidays => HOLIDAYS,
            Kind::LastHolidays => LAST_HOLIDAYS,
            Kind::Times => TIMES,
        }
    }
}

impl BitOr for Kinds {
    type Output = Kinds;

    // The kinds of both.
    fn bitor(self, other: Kinds) -> Kinds
        ensures { result.bits ≡ bit_or self.bits other.bits }
    {
        Kinds {
            bits: self.bits | other.bits,
        }
    }
}

impl Kinds {
    // Whether a kind is one of them.
    #[tactic(auto, unfolding(crate::specs::Sets::has))]
    pub fn has(self, kind: Kind) -> bool
        ensures { result ≡ sets.has_kind self.bits kind }
    {
        self.bits & kind.alone().bits != 0
    }

    // This kind, where it is one of them.
    fn wish(self, kind: Kind) -> Option<Kind>
        ensures { result ≡ wish_if (sets.has_kind self.bits kind) kind None }
    {
        self.has(kind).then_some(kind)
    }

    // The first or the second of two kinds, where it is one of them.
    fn either(self, kind: Kind, other: Kind) -> Option<Kind>
        ensures { result ≡ wish_if (sets.has_kind self.bits kind) kind (wish_if (sets.has_kind self.bits other) other None) }
    {
        if self.has(kind) {
            Some(kind)
        } else {
            self.wish(other)
        }
    }

    // As what an item that begins with a name of this kind is wanted.
    #[tactic(auto, using(crate::proofs::Wishes::wishes))]
    pub fn wanted_as(self, name: NameKind) -> Option<Kind>
        ensures { result ≡ wished (number_of name) (sets.kinds_of self.bits) }
    {
        match name {
            NameKind::Weekday => self.either(Kind::Weekdays, Kind::LastWeekdays),
            NameKind::Month | NameKind::Easter => self.wish(Kind::MonthDays),
            NameKind::Event => self.wish(Kind::Times),
            NameKind::Holiday => self.either(Kind::Holidays, Kind::LastHolidays),
            NameKind::Week => self.wish(Kind::Weeks),
            NameKind::Modifier | NameKind::Day => None,
        }
    }
}
