// One rule: the loop over its items that counts and judges them and puts its records into tables.
ghost use Rattle.std.specs.Prelude.{◌≤◌, ◌≡◌, length};
ghost use Rattle.names.specs.Read.{got};
ghost use Rattle.rules.specs.Rules.{opening};
ghost use Rattle.text_rules.specs.Into.{rule_into};
ghost use Rattle.text_rules.specs.Seen.{seen_rule_into};

use crate::{Known, RuleRead};
use house::Judgement;
use names::{Cursor, Manner};
use records::{keep_head, keep_item, warnings_in};
use rules::{Opening, Piece, Spot, begin, head_of};

// A rule that begins at a place is read on from c, where its opening ends.
fn fill_pieces(
    s: &[u8],
    m: Manner,
    place: usize,
    separator: u8,
    start: Opening,
    c: Cursor,
    words: &mut [i32],
    bytes: &mut [u8],
    slot: usize,
) -> RuleRead
    requires { (length s.now ≤ 4096) × (slot ≤ 4096) × (opening s.now place ≡ got start c.at) }
    ensures { rule_into m (words.old, bytes.old) slot separator s.now place ≡ seen_rule_into result (words.new, bytes.new) }
{
    let mut n: usize = 0;
    let mut warned: usize = 0;
    let mut spot = Spot {
        at: c.at,
        stage: start.stage,
    };
    let mut judged = Judgement::begun(m, separator, place);
    loop {
        let (piece, d) = spot.piece(s, m)?;
        match piece {
            Piece::Item(a) => {
                n += 1;
                spot = Spot::after(d, a.kind);
                judged = judged.item(m, a.item, a.place);
                keep_item(words, bytes, slot + n, a.item, a.place);
                warned += warnings_in(a.item) as usize;
            }
            Piece::End(t) => {
                let head = head_of(place, separator, t, start.comment, n, warned);
                keep_head(words, bytes, slot, head);
                let known = Known {
                    items: n,
                    warnings: head.warnings,
                    first: judged.first,
                };
                return Ok((known, d));
            }
        }
    }
}

// A rule is read: how many items it has, how many warnings, its first break and the place after it, or its refusal.
// Its records go into both tables from a slot on, its head first, then its items, each where the table has its slot.
pub fn fill_rule(
    s: &[u8],
    m: Manner,
    c: Cursor,
    separator: u8,
    words: &mut [i32],
    bytes: &mut [u8],
    slot: usize,
) -> RuleRead
    requires s_len_bound { length s.now ≤ 4096 }
    requires slot_bound { slot ≤ 4096 }
    ensures { rule_into m (words.old, bytes.old) slot separator s.now c.at ≡ seen_rule_into result (words.new, bytes.new) }
{
    let (start, d) = begin(s, c)?;
    fill_pieces(s, m, c.at, separator, start, d, words, bytes, slot)
}
