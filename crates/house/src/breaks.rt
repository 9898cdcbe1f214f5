// The rules and their items, one after another: the first break is kept. Only a house sheet is judged.
ghost use Rattle.std.specs.Prelude.{◌≡◌};
ghost use Rattle.records.specs.declared.Item.TheVariants.{Times};
ghost use Rattle.house.specs.Breaks as breaks;

use crate::Judgement;
use crate::spans::{minutes, span_break};
use names::{Manner, Reason, Refusal, Why};
use records::{Item, Span};

// A break, or else another.
pub fn first_of<T: Copy>(a: Option<T>, b: Option<T>) -> Option<T>
    ensures { result ≡ breaks.first_of a b }
{
    a.or(b)
}

// The break of a rule's separator, at the rule's place.
#[tactic(auto, unfolding(crate::specs::Breaks::separator_break))]
fn separator_break(separator: u8, place: usize) -> Option<Refusal>
    ensures { result ≡ breaks.separator_break separator place }
{
    if separator == 0 {
        return None;
    }
    Some(Refusal {
        reason: Reason::HouseForm,
        place,
    })
}

impl Judgement {
    // Of a rule of which no item is judged yet.
    pub fn begun(m: Manner, separator: u8, place: usize) -> Judgement
        ensures { result ≡ breaks.begun m separator place }
    {
        let first = match m {
            Manner::House => separator_break(separator, place),
            _ => None,
        };
        Judgement { first, end: 0 }
    }
}

impl<R: Why> Judgement<R> {
    // With a span more, in a house sheet.
    fn span(self, x: Span, place: usize) -> Judgement<R>
        ensures { result ≡ breaks.with_house_item_as R.of_reason self (Times x, place) }
    {
        Judgement {
            first: first_of(self.first, span_break(self.end, place, x)),
            end: minutes(x.end),
        }
    }

    // With an item more.
    pub fn item(self, m: Manner, a: Item, place: usize) -> Judgement<R>
        ensures { result ≡ breaks.with_item_as R.of_reason m self (a, place) }
    {
        match a {
            Item::Times(x) => match m {
                Manner::House => self.span(x, place),
                _ => self,
            },
            _ => self,
        }
    }
}
