// A rule's head.
ghost use Rattle.std.specs.Prelude.{◌≤◌, ◌≡◌};
ghost use Rattle.records.specs.Warnings.{most_warnings};
ghost use Rattle.rules.specs.Rules as rules;

use crate::Tail;
use records::{Comment, Head};

// The modifier's comment wins over the wide part's.
#[tactic(auto, unfolding(crate::specs::Rules::wins))]
fn wins(c: Comment, wide: Comment) -> Comment
    ensures { result ≡ rules.wins c wide }
{
    if c.length == 0 { wide } else { c }
}

// How many warnings the word of a rule's modifier calls for.
fn tail_warnings(t: Tail) -> usize
    ensures { result ≡ rules.tail_warnings t }
{
    usize::from(t.odd)
}

// A rule's head: its items call for so many warnings.
pub fn head_of(
    place: usize,
    separator: u8,
    t: Tail,
    wide: Comment,
    items: usize,
    warned: usize,
) -> Head
    requires { warned ≤ most_warnings }
    ensures { result ≡ rules.head_of place separator t wide items warned }
{
    Head {
        place,
        separator,
        state: t.state,
        comment: wins(t.comment, wide),
        items,
        warnings: warned + tail_warnings(t),
    }
}
