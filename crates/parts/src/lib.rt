// Parts: a quote flips inside and outside, a part ends at a `;` outside.
#![tactic(auto)]

ghost use Rattle.std.specs.Prelude.{◌≡◌};
ghost use Rattle.names.specs.Quotes as quotes;
ghost use Rattle.parts.specs.Parts as parts;

// A quote flips inside and outside.
pub fn flips(b: u8, inside: bool) -> bool
    ensures { result ≡ quotes.flips b inside }
{
    if b == b'"' { !inside } else { inside }
}

// Whether the bytes of a text lead from outside to inside.
fn inside_of(s: &[u8]) -> bool
    ensures { result ≡ quotes.inside_of s.now }
{
    let mut inside = false;
    for b in s {
        inside = flips(*b, inside);
    }
    inside
}

// Whether a place is a part's beginning: the sheet's, or after a `;` outside.
pub fn begins(s: &[u8], place: usize) -> bool
    ensures { result ≡ parts.begins s.now place }
{
    match s.get(..place) {
        Some([]) => true,
        Some([before @ .., last]) => *last == b';' && !inside_of(before),
        None => false,
    }
}

// Where the part that begins at p ends.
pub fn part_end(s: &[u8], p: usize) -> usize
    ensures { result ≡ parts.part_end s.now p }
{
    let mut inside = false;
    for i in p..s.len() {
        let b = s[i];
        if b != b';' {
            inside = flips(b, inside);
        } else if !inside {
            return i;
        }
    }
    // Where the text has ended before p, the part is empty.
    p.max(s.len())
}
