// Bytes that stand as they are, and blanks.
ghost use Rattle.std.specs.Prelude.{◌≡◌, get_or};
ghost use Rattle.names.specs.Read.{got};
ghost use Rattle.names.specs.Tests.{within};
ghost use Rattle.names.specs.Chain as chain;
ghost use Rattle.names.specs.Texts as texts;
ghost use Rattle.names.specs.Seen.{seen_step};

use crate::Cursor;

impl Cursor {
    // The byte at the cursor, and 0 past the end.
    pub fn byte(self, s: &[u8]) -> u8
        ensures { result ≡ get_or s.now self.at 0 }
    {
        let at = self.at;
        if at < s.len() { s[at] } else { 0 }
    }

    // This byte.
    pub fn sign(self, s: &[u8], b: u8) -> Option<Cursor>
        ensures { texts.byte b s.now self.at ≡ seen_step result }
    {
        let at = self.at;
        if s.len() <= at {
            return None;
        }
        if b != s[at] {
            return None;
        }
        Some(Cursor { at: at + 1 })
    }

    // The place after bytes from lo to hi, as many as there are.
    pub fn skip(self, s: &[u8], lo: u8, hi: u8) -> Cursor
        ensures { chain.skip (within lo hi) s.now self.at ≡ got tt result.at }
    {
        let mut at = self.at;
        // By hand: a `for` over the places takes three instructions more for each byte where it is inlined.
        while at < s.len() && (lo..=hi).contains(&s[at]) {
            at += 1;
        }
        Cursor { at }
    }

    // The place after bytes 32, or none.
    pub fn blanks(self, s: &[u8]) -> Cursor
        ensures { texts.blanks s.now self.at ≡ got tt result.at }
    {
        self.skip(s, b' ', b' ')
    }

    // A blank: one or more bytes 32.
    #[tactic(auto, unfolding(crate::specs::Texts::blank))]
    pub fn blank(self, s: &[u8]) -> Option<Cursor>
        ensures { texts.blank s.now self.at ≡ seen_step result }
    {
        let c = self.sign(s, b' ')?;
        Some(c.blanks(s))
    }

    // A comma of a list: no blank follows it.
    #[tactic(auto, unfolding(crate::specs::Texts::comma, crate::specs::Read::ahead))]
    pub fn comma(self, s: &[u8]) -> Option<Cursor>
        ensures { texts.comma s.now self.at ≡ seen_step result }
    {
        let c = self.sign(s, b',')?;
        if c.byte(s) == b' ' { None } else { Some(c) }
    }
}
