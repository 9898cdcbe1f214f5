// Characters of well-formed UTF-8 (RFC 3629), as they may stand between the quotes of a comment. (The Rust has its text as `str`, and no such test.)
#![tactic(auto)]

ghost use Rattle.std.specs.Prelude.{◌≡◌};
ghost use Rattle.names.specs.Read.{got};
ghost use Rattle.names.specs.Seen.{seen_step};
ghost use Rattle.utf8.specs.Letters as letters;
ghost use Rattle.utf8.specs.Utf8 as utf8;

use names::Cursor;

// A byte from lo to hi.
fn octet(s: &[u8], c: Cursor, lo: u8, hi: u8) -> Option<Cursor>
    ensures { utf8.octet lo hi s.now c.at ≡ seen_step result }
{
    let b = s.get(c.at)?;
    if (lo..=hi).contains(b) {
        Some(Cursor { at: c.at + 1 })
    } else {
        None
    }
}

// A tail: a byte after a character's first.
#[tactic(auto, unfolding(crate::specs::Utf8::utf8_tail))]
fn tail(s: &[u8], c: Cursor) -> Option<Cursor>
    ensures { utf8.utf8_tail s.now c.at ≡ seen_step result }
{
    octet(s, c, 0x80, 0xbf)
}

// A byte from lo to hi and a tail.
fn two_more(s: &[u8], c: Cursor, lo: u8, hi: u8) -> Option<Cursor>
    ensures { utf8.two_more lo hi s.now c.at ≡ seen_step result }
{
    tail(s, octet(s, c, lo, hi)?)
}

// A byte from lo to hi and two tails.
#[tactic(auto, unfolding(crate::specs::Utf8::utf8_tail))]
fn three_more(s: &[u8], c: Cursor, lo: u8, hi: u8) -> Option<Cursor>
    ensures { utf8.three_more lo hi s.now c.at ≡ seen_step result }
{
    two_more(s, octet(s, c, lo, hi)?, 0x80, 0xbf)
}

// A character of more than one byte. Its first byte tells how many it has, and of which bytes its second is.
fn longer(s: &[u8], c: Cursor) -> Option<Cursor>
    ensures { utf8.longer s.now c.at ≡ seen_step result }
{
    let at = c.at;
    if s.len() <= at {
        return None;
    }
    let d = Cursor { at: at + 1 };
    match s[at] {
        0xc2..=0xdf => tail(s, d),
        0xe0 => two_more(s, d, 0xa0, 0xbf),
        0xe1..=0xec | 0xee..=0xef => two_more(s, d, 0x80, 0xbf),
        0xed => two_more(s, d, 0x80, 0x9f),
        0xf0 => three_more(s, d, 0x90, 0xbf),
        0xf1..=0xf3 => three_more(s, d, 0x80, 0xbf),
        0xf4 => three_more(s, d, 0x80, 0x8f),
        _ => None,
    }
}

// A character of a comment. Most are of one byte, so these are told first, by one comparison and the quote's.
fn letter(s: &[u8], c: Cursor) -> Option<Cursor>
    ensures { letters.letter s.now c.at ≡ seen_step result }
{
    let b = c.byte(s);
    if !(b' '..=0x7f).contains(&b) {
        longer(s, c)
    } else if b == b'"' {
        None
    } else {
        Some(Cursor { at: c.at + 1 })
    }
}

// The place after the characters of a comment, as many as there are.
pub fn letters(s: &[u8], c: Cursor) -> Cursor
    ensures { letters.letters s.now c.at ≡ got tt result.at }
{
    let mut c = c;
    while let Some(next) = letter(s, c) {
        c = next;
    }
    c
}
