// Rules are parted by `;` (0), by `,` followed by a blank (1), or by `||` (2).
ghost use Rattle.std.specs.Prelude.{◌≡◌};
ghost use Rattle.names.specs.Seen.{seen_step};
ghost use Rattle.rules.specs.Separators as separators;
ghost use Rattle.rules.specs.Seen.{seen_next};

use names::Cursor;

// `,` followed by a blank.
#[tactic(auto, unfolding(crate::specs::Separators::comma_blank, names::specs::Read::ahead))]
fn comma_blank(s: &[u8], c: Cursor) -> Option<Cursor>
    ensures { separators.comma_blank s.now c.at ≡ seen_step result }
{
    let d = c.sign(s, b',')?;
    if d.byte(s) == b' ' { Some(d) } else { None }
}

// `||`
#[tactic(auto, unfolding(crate::specs::Separators::bars))]
fn bars(s: &[u8], c: Cursor) -> Option<Cursor>
    ensures { separators.bars s.now c.at ≡ seen_step result }
{
    let d = c.sign(s, b'|')?;
    d.sign(s, b'|')
}

// What parts a rule from the next.
#[tactic(auto, unfolding(crate::specs::Separators::separator))]
fn separator(s: &[u8], c: Cursor) -> Option<(Option<u8>, Cursor)>
    ensures { separators.separator s.now c.at ≡ seen_next result }
{
    if let Some(d) = c.sign(s, b';') {
        return Some((Some(0), d));
    }
    if let Some(d) = comma_blank(s, c) {
        return Some((Some(1), d));
    }
    let d = bars(s, c)?;
    Some((Some(2), d))
}

// The number of what parts a rule from the next, or none at the text's end; and the place after it.
#[tactic(auto, unfolding(crate::specs::Separators::next, names::specs::Read::at_end))]
pub fn next_rule(s: &[u8], c: Cursor) -> Option<(Option<u8>, Cursor)>
    ensures { separators.next s.now c.at ≡ seen_next result }
{
    if c.at == s.len() {
        return Some((None, c));
    }
    separator(s, c)
}
