// The names, and the search for the longest one that stands at a place (`build_wday`, `build_month` and the names of the Rust's grammar).
ghost use Rattle.std.specs.Prelude.{◌+◌, ◌^◌, ◌≤◌, ◌<◌, ◌≡◌, length};
ghost use Rattle.names.specs.Names as names;
ghost use Rattle.names.specs.Table as table;
ghost use Rattle.names.specs.Read.{got, when};
ghost use Rattle.names.specs.Seen.{number_of, seen_step, seen_word, Reads};

use crate::{Cursor, NameKind, Word};

const WEEKDAYS: [[u8; 2]; 7] = [*b"mo", *b"tu", *b"we", *b"th", *b"fr", *b"sa", *b"su"];

const MONTHS: [[u8; 3]; 12] = [
    *b"jan", *b"feb", *b"mar", *b"apr", *b"may", *b"jun", *b"jul", *b"aug", *b"sep", *b"oct",
    *b"nov", *b"dec",
];

impl NameKind {
    // Its number.
    #[tactic(auto, unfolding(crate::specs::Seen::number_of))]
    pub fn number(self) -> u8
        ensures { result ≡ number_of self }
    {
        self as u8
    }

    // Whether names of this kind are spelled as they stand: `PH`, `SH`, `week`, `day`, `days`. The others take any case.
    #[tactic(auto, unfolding(crate::specs::Names::spelled_so))]
    pub fn is_spelled_so(self) -> bool
        ensures { result ≡ names.spelled_so (number_of self) }
    {
        match self {
            NameKind::Holiday | NameKind::Week | NameKind::Day => true,
            _ => false,
        }
    }
}

// As what a byte of the text is compared with a letter of a name of this kind.
// The bit 32 makes a capital its small letter, and a letter of no other byte: shorter work than a test.
#[tactic(auto, unfolding(crate::specs::Table::compared, crate::specs::Table::fold))]
fn letter(kind: NameKind, b: u8) -> u8
    ensures { result ≡ table.compared (number_of kind) b }
{
    if kind.is_spelled_so() { b } else { b | 32 }
}

impl Cursor {
    // The place after a name of this kind, where its letters stand here.
    fn past(self, s: &[u8], kind: NameKind, name: &[u8]) -> Option<Cursor>
        requires { self.at + length name.now < 2 ^ 64 }
        ensures { when (table.stand (number_of kind) name.now s.now self.at) (got tt (self.at + length name.now)) ≡ seen_step result }
    {
        let stands = name.iter().enumerate().all(|(j, x)| {
            let b = Cursor { at: self.at + j }.byte(s);
            letter(kind, b) == *x
        });
        stands.then_some(Cursor {
            at: self.at + name.len(),
        })
    }

    // One of these names, of N letters each: the first has this value, each later one 1 more.
    // (That a byte stands here is asked by this function and eight below. It is a fact of a place and a text together: a type of both for these would be no plainer.)
    fn one_of<const N: usize>(
        self,
        s: &[u8],
        kind: NameKind,
        first: u8,
        names: &[[u8; N]],
    ) -> Option<(Word, Cursor)>
        requires names_bound { first + length names.now ≤ 254 }
        requires at_in_bounds { self.at < length s.now }
        ensures { table.first_in (table.rows (number_of kind) first names.now) s.now self.at ≡ seen_word result }
    {
        for (row, name) in names.iter().enumerate() {
            if let Some(c) = self.past(s, kind, name) {
                let value = first + row as u8;
                return Some((Word { kind, value }, c));
            }
        }
        None
    }

    // Names of seven letters.
    #[tactic(auto, using(crate::proofs::Search::seven_lem))]
    fn seven(self, s: &[u8]) -> Option<(Word, Cursor)>
        requires { self.at < length s.now }
        ensures { names.first_of names.seven s.now self.at ≡ seen_word result }
    {
        self.one_of(s, NameKind::Event, 2, &[*b"sunrise"])
            .or_else(|| self.one_of(s, NameKind::Modifier, 2, &[*b"unknown"]))
    }

    // Names of six letters.
    #[tactic(auto, using(crate::proofs::Search::six_lem))]
    fn six(self, s: &[u8]) -> Option<(Word, Cursor)>
        requires { self.at < length s.now }
        ensures { names.first_of names.six s.now self.at ≡ seen_word result }
    {
        self.one_of(s, NameKind::Modifier, 1, &[*b"closed"])
            .or_else(|| self.one_of(s, NameKind::Easter, 0, &[*b"easter"]))
            .or_else(|| self.one_of(s, NameKind::Event, 3, &[*b"sunset"]))
    }

    // Names of four letters.
    #[tactic(auto, using(crate::proofs::Search::four_lem))]
    fn four(self, s: &[u8]) -> Option<(Word, Cursor)>
        requires { self.at < length s.now }
        ensures { names.first_of names.four s.now self.at ≡ seen_word result }
    {
        self.one_of(s, NameKind::Event, 1, &[*b"dawn"])
            .or_else(|| self.one_of(s, NameKind::Event, 4, &[*b"dusk"]))
            .or_else(|| self.one_of(s, NameKind::Modifier, 0, &[*b"open"]))
            .or_else(|| self.one_of(s, NameKind::Week, 0, &[*b"week"]))
            .or_else(|| self.one_of(s, NameKind::Day, 0, &[*b"days"]))
    }

    // Names of three letters.
    fn three(self, s: &[u8]) -> Option<(Word, Cursor)>
        requires { self.at < length s.now }
        ensures { names.first_of names.three s.now self.at ≡ seen_word result }
    {
        self.one_of(s, NameKind::Modifier, 1, &[*b"off"])
            .or_else(|| self.one_of(s, NameKind::Day, 0, &[*b"day"]))
            .or_else(|| self.one_of(s, NameKind::Month, 1, &MONTHS))
    }

    // Names of two letters.
    fn two(self, s: &[u8]) -> Option<(Word, Cursor)>
        requires { self.at < length s.now }
        ensures { names.first_of names.two s.now self.at ≡ seen_word result }
    {
        self.one_of(s, NameKind::Weekday, 1, &WEEKDAYS)
            .or_else(|| self.one_of(s, NameKind::Holiday, 1, &[*b"PH", *b"SH"]))
    }

    // The longest name of four letters or more. None stands where the fourth byte comes before the letters, as a digit, a sign and a blank do, or the text ends before it.
    #[tactic(auto, using(crate::proofs::Search::four_or_more_lem))]
    fn four_or_more(self, s: &[u8]) -> Option<(Word, Cursor)>
        requires { self.at < length s.now }
        ensures { names.first_of names.four_or_more s.now self.at ≡ seen_word result }
    {
        if (Cursor { at: self.at + 3 }).byte(s) < b'A' {
            return None;
        }
        self.seven(s)
            .or_else(|| self.six(s))
            .or_else(|| self.four(s))
    }

    // The longest name of three letters or more: the same with the third byte.
    #[tactic(auto, using(crate::proofs::Search::three_or_more_lem))]
    fn three_or_more(self, s: &[u8]) -> Option<(Word, Cursor)>
        requires { self.at < length s.now }
        ensures { names.first_of names.three_or_more s.now self.at ≡ seen_word result }
    {
        if (Cursor { at: self.at + 2 }).byte(s) < b'A' {
            return None;
        }
        self.four_or_more(s).or_else(|| self.three(s))
    }

    // The longest name of any length: the search goes from the longest names to the shortest, and stops at the name it has found.
    #[tactic(auto, using(crate::proofs::Search::two_or_more_lem))]
    fn two_or_more(self, s: &[u8]) -> Option<(Word, Cursor)>
        requires { self.at < length s.now }
        ensures { names.word s.now self.at ≡ seen_word result }
    {
        self.three_or_more(s).or_else(|| self.two(s))
    }

    // The longest name that stands here. It is searched for in the rest of the text, where its place is 0: that takes fewer registers.
    pub fn word(self, s: &[u8]) -> Option<(Word, Cursor)>
        ensures { names.word s.now self.at ≡ seen_word result }
    {
        let at = self.at;
        // No name begins with a digit or a sign, nor at the text's end.
        if self.byte(s) < b'A' {
            return None;
        }
        let (word, c) = Cursor { at: 0 }.two_or_more(&s[at..])?;
        Some((word, Cursor { at: at + c.at }))
    }

    // A name of the kind of this number: which one. (A number: a caller may give any, as docs/CONTRACTS.md says, and that of no kind has no name.)
    #[tactic(auto, unfolding(crate::specs::Names::name))]
    pub fn name(self, s: &[u8], kind: u8) -> Option<(u8, Cursor)>
        ensures { Reads 12 (names.name kind s.now self.at) result }
    {
        let (word, c) = self.word(s)?;
        if word.kind.number() == kind {
            Some((word.value, c))
        } else {
            None
        }
    }
}
