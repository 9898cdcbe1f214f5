// The pieces of a rule, in order: an item, or the rule's end.
ghost use Rattle.std.specs.Prelude.{false, ◌≡◌};
ghost use Rattle.std.proofs.Common.{inl, inr};
ghost use Rattle.names.specs.Read.{branch, pure, map};
ghost use Rattle.names.specs.declared.Manner.{Manner};
ghost use Rattle.names.specs.Seen.{seen_step};
ghost use Rattle.items.specs.Sets.{kinds_of};
ghost use Rattle.rules.specs.Comments.{comment};
ghost use Rattle.rules.specs.Modifiers.{tail_of};
ghost use Rattle.rules.specs.Pieces as pieces;
ghost use Rattle.rules.specs.Seen.{seen_piece, Lacks, turned, ColonTurns, BlankTurns};
ghost use Rattle.rules.specs.declared.Stage.TheVariants as stage;

use crate::comments::{NO_COMMENT, comment};
use crate::modifiers::{open_end, with_comment};
use crate::rows::{FIRST, SMALL, following, is_wide, listed};
use crate::separators::next_rule;
use crate::{Piece, PieceRead, Spot, Stage, Turn};
use items::{Kind, Kinds, NO_KIND, Stands, look_at, missing};
use names::{Cursor, Manner, NameKind, Reason, Refusal};

// After a colon a blank and a small part have to stand.
#[tactic(auto, using(crate::proofs::Turns::colons), unfolding(items::specs::Sets::bit_of, items::specs::Sets::has, items::specs::Sets::kinds_of, items::specs::Sets::picked))]
fn after_colon(s: &[u8], c: Cursor) -> Turn
    ensures { ColonTurns s.now c.at result }
{
    let (at, wanted) = match c.blank(s) {
        Some(d) => (d, SMALL),
        None => (c, NO_KIND),
    };
    let must = true;
    Turn { at, wanted, must }
}

// After a blank one of these kinds may stand.
#[tactic(auto, using(crate::proofs::Turns::blanks))]
fn after_blank(s: &[u8], c: Cursor, wanted: Kinds) -> Option<Turn>
    ensures { BlankTurns (kinds_of wanted.bits) s.now c.at result }
{
    let at = c.blank(s)?;
    let must = false;
    Some(Turn { at, wanted, must })
}

// The colon of a wide part.
#[tactic(auto, unfolding(crate::specs::Pieces::colon_sign))]
fn colon_sign(s: &[u8], c: Cursor, kind: Kind) -> Option<Cursor>
    ensures { pieces.colon_sign kind s.now c.at ≡ seen_step result }
{
    if is_wide(kind) { c.sign(s, b':') } else { None }
}

// After an item of this kind.
#[tactic(auto, using(crate::proofs::Turns::after_items))]
fn after_item(s: &[u8], c: Cursor, kind: Kind) -> Option<Turn>
    ensures { (m : Manner) → pieces.piece m (stage.After kind) s.now c.at ≡ turned m s.now (stage.After kind) c.at result }
{
    if let Some(at) = c.comma(s) {
        let wanted = listed(kind);
        let must = true;
        return Some(Turn { at, wanted, must });
    }
    match colon_sign(s, c, kind) {
        Some(d) => Some(after_colon(s, d)),
        None => after_blank(s, c, following(kind)),
    }
}

// What has to stand at c and does not.
#[tactic(auto, using(items::proofs::Quotes::lack_is))]
fn lacking(s: &[u8], c: Cursor) -> PieceRead
    ensures { Lacks s.now c.at result }
{
    Err(missing(s, c))
}

// A rule at c of which nothing was read: it is empty, or something else stands there.
#[tactic(auto, using(crate::proofs::Turns::nothings))]
fn nothing_read(s: &[u8], c: Cursor) -> PieceRead
    ensures { map inr (pieces.plain_end stage.Beginning) s.now c.at ≡ seen_piece result }
{
    match next_rule(s, c) {
        Some(_) => Err(Refusal {
            reason: Reason::EmptyRule,
            place: c.at,
        }),
        None => lacking(s, c),
    }
}

impl Spot {
    // After an item of this kind, up to c.
    pub fn after(c: Cursor, kind: Kind) -> Spot
        ensures { (result.stage ≡ stage.After kind) × (result.at ≡ c.at) }
    {
        Spot {
            at: c.at,
            stage: Stage::After(kind),
        }
    }

    // Where the rule goes on; nowhere, where it ends.
    #[tactic(auto, using(crate::proofs::Turns::stages), unfolding(items::specs::Sets::bit_of, items::specs::Sets::has, items::specs::Sets::kinds_of, items::specs::Sets::picked))]
    fn turn(self, s: &[u8]) -> Option<Turn>
        ensures { (m : Manner) → pieces.piece m self.stage s.now self.at ≡ turned m s.now self.stage self.at result }
    {
        let c = Cursor { at: self.at };
        match self.stage {
            Stage::Beginning => Some(Turn {
                at: c,
                wanted: FIRST,
                must: false,
            }),
            Stage::Always => after_blank(s, c, NO_KIND),
            Stage::Colon => Some(after_colon(s, c)),
            Stage::After(kind) => after_item(s, c, kind),
        }
    }

    // The rule's end, where neither an item nor a modifier stands: open, if it has selectors.
    #[tactic(auto, using(crate::proofs::Laws::open_end))]
    fn ended(self, s: &[u8]) -> PieceRead
        ensures { map inr (pieces.plain_end self.stage) s.now self.at ≡ seen_piece result }
    {
        let c = Cursor { at: self.at };
        match self.stage {
            Stage::Beginning => nothing_read(s, c),
            _ => Ok((open_end(NO_COMMENT), c)),
        }
    }

    // A comment alone at c, or else the rule's end.
    fn noted(self, s: &[u8], c: Cursor) -> PieceRead
        ensures { branch comment (λ m. pure (inr (tail_of 0 m false))) (λ s _. map inr (pieces.plain_end self.stage) s self.at) s.entry.now c.at ≡ seen_piece result }
    {
        match comment(s, c)? {
            Some((alone, d)) => Ok((open_end(alone), d)),
            None => self.ended(s),
        }
    }

    // The next piece of a rule.
    #[tactic(auto, using(crate::proofs::Turns::turns))]
    pub fn piece(self, s: &[u8], m: Manner) -> PieceRead
        ensures { pieces.piece m self.stage s.now self.at ≡ seen_piece result }
    {
        let Some(turn) = self.turn(s) else {
            return self.ended(s);
        };
        let c = turn.at;
        match look_at(s, m, c, turn.wanted)? {
            Stands::Item(item, d) => Ok((Piece::Item(item), d)),
            Stands::Name(..) | Stands::Nothing if turn.must => lacking(s, c),
            Stands::Name(name, d) if name.kind == NameKind::Modifier => {
                with_comment(s, d, name.value, c.odd(s, name.kind.number(), d))
            }
            Stands::Name(..) => self.ended(s),
            Stands::Nothing => self.noted(s, c),
        }
    }
}
