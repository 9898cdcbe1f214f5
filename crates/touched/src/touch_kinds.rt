// A rule: the worst of its kinds, each of which is its best item.
ghost use Rattle.std.specs.Prelude.{◌≡◌};
ghost use Rattle.touched.specs.Kinds as kinds;
ghost use Rattle.touched.specs.Founds as founds;

use crate::selectors::item_touch;
use crate::touches::{best, worst};
use crate::{Found, SelectorKind, Touch};
use almanac::OnDay;
use records::Item;

// The kind of a day selector; times are of none.
pub fn kind_of(a: Item) -> Option<SelectorKind>
    ensures { kinds.number_of result ≡ kinds.kind_of a }
{
    match a {
        Item::Years(_) => Some(SelectorKind::Year),
        Item::Months(_) | Item::Dates(_) => Some(SelectorKind::MonthDay),
        Item::Weeks(_) => Some(SelectorKind::Week),
        Item::Weekdays(_) | Item::Holidays(_) => Some(SelectorKind::Weekday),
        Item::Times(_) => None,
    }
}

// A kind with an item more.
fn keep(kind: Option<Touch>, t: Touch) -> Option<Touch>
    ensures { result ≡ founds.keep kind t }
{
    Some(kind.map_or(t, |b| best(b, t)))
}

// What a kind comes to: yes where it has no item.
fn come(kind: Option<Touch>) -> Touch
    ensures { result ≡ founds.come kind }
{
    kind.unwrap_or(Touch::Yes)
}

impl Found {
    // Before a rule's items.
    pub fn begun() -> Found
        ensures { result ≡ founds.begun }
    {
        Found {
            years: None,
            month_days: None,
            weeks: None,
            weekdays: None,
        }
    }

    // With an item more. (A match: the kinds are these and no others.)
    #[tactic(auto, unfolding(crate::specs::Founds::with_item))]
    pub fn with(self, d: OnDay, a: Item) -> Found
        ensures { result ≡ founds.with_item d self a }
    {
        let t = item_touch(d, a);
        match kind_of(a) {
            Some(SelectorKind::Year) => Found {
                years: keep(self.years, t),
                ..self
            },
            Some(SelectorKind::MonthDay) => Found {
                month_days: keep(self.month_days, t),
                ..self
            },
            Some(SelectorKind::Week) => Found {
                weeks: keep(self.weeks, t),
                ..self
            },
            Some(SelectorKind::Weekday) => Found {
                weekdays: keep(self.weekdays, t),
                ..self
            },
            None => self,
        }
    }

    // What the rule comes to.
    pub fn ended(self) -> Touch
        ensures { result ≡ founds.ended self }
    {
        worst(
            come(self.years),
            worst(
                come(self.month_days),
                worst(come(self.weeks), come(self.weekdays)),
            ),
        )
    }
}
