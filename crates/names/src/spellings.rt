// How a name should be written; where it is not, it calls for a warning.
// A kind is its number here: a caller may give any, as docs/CONTRACTS.md says, and each number has its answer.
ghost use Rattle.std.specs.Prelude.{◌≤◌, ◌<◌, ◌≡◌, length};
ghost use Rattle.std.proofs.Math.Seq.{slice};
ghost use Rattle.names.specs.Spellings as spellings;
ghost use Rattle.names.specs.Seen.{ReadsName, seen_spelled};

use crate::{Cursor, NameKind, Named, Spelled, Word};

// Whether a letter is small: the capitals come before `a`.
fn is_small(b: u8) -> bool
    ensures { result ≡ spellings.is_small b }
{
    b'a' <= b
}

// Whether a name of this kind should begin so: a weekday or a month with a capital, an event, a modifier or `easter` with a small letter.
#[tactic(auto, unfolding(crate::specs::Spellings::well_begun))]
fn well_begun(kind: u8, b: u8) -> bool
    ensures { result ≡ spellings.well_begun kind b }
{
    if kind <= NameKind::Month.number() {
        !is_small(b)
    } else {
        is_small(b)
    }
}

// Whether these letters are small.
fn all_small(letters: &[u8]) -> bool
    ensures { result ≡ spellings.all_small letters.now }
{
    letters.iter().all(|b| is_small(*b))
}

impl Cursor {
    // Whether the name of this kind that stands from here to another place calls for a warning.
    pub fn odd(self, s: &[u8], kind: u8, to: Cursor) -> bool
        requires at_lt_at { self.at < to.at }
        requires at_in_bounds { to.at ≤ length s.now }
        ensures { result ≡ spellings.odd kind s.now self.at to.at }
    {
        if NameKind::Holiday.number() <= kind {
            return false;
        }
        let at = self.at;
        if well_begun(kind, s[at]) {
            !all_small(&s[at + 1..to.at])
        } else {
            true
        }
    }

    // A name of this kind: which one, and whether it calls for a warning.
    #[tactic(auto, unfolding(crate::specs::Spellings::named))]
    pub fn named(self, s: &[u8], kind: u8) -> Option<(Named, Cursor)>
        ensures { ReadsName 12 (spellings.named kind s.now self.at) result }
    {
        let (value, c) = self.name(s, kind)?;
        let odd = self.odd(s, kind, c);
        Some((Named { value, odd }, c))
    }

    // The longest name that stands here, and whether it calls for a warning.
    #[tactic(auto, unfolding(crate::specs::Spellings::spelled))]
    pub fn spelled(self, s: &[u8]) -> Option<(Spelled, Cursor)>
        ensures { spellings.spelled s.now self.at ≡ seen_spelled result }
    {
        let (word, c) = self.word(s)?;
        let odd = self.odd(s, word.kind.number(), c);
        Some((Spelled { word, odd }, c))
    }
}
