// How a rule begins: `24/7`, or the comment of a wide part and `:`, or neither.
ghost use Rattle.std.specs.Prelude.{◌≡◌};
ghost use Rattle.names.specs.Seen.{seen_step, seen_judged};
ghost use Rattle.names.specs.Texts.{bytes, all_of};
ghost use Rattle.rules.specs.Rules as rules;
ghost use Rattle.rules.specs.Seen.{seen_opening};

use crate::comments::{NO_COMMENT, comment};
use crate::{Opening, OpeningRead, Stage};
use names::{Cursor, Refusal};

// `24/7`
#[tactic(auto, using(crate::proofs::Laws::always_is))]
fn always(s: &[u8], c: Cursor) -> Option<Cursor>
    ensures { all_of (λ b. b) (bytes "24/7") s.now c.at ≡ seen_step result }
{
    c.sign(s, b'2')?.sign(s, b'4')?.sign(s, b'/')?.sign(s, b'7')
}

// The comment of a wide part and `:`.
#[tactic(auto, unfolding(crate::specs::Rules::wide_comment))]
fn wide_comment(s: &[u8], c: Cursor) -> Result<Option<(Opening, Cursor)>, Refusal>
    ensures { rules.wide_comment s.now c.at ≡ seen_judged (λ o. o) result }
{
    let Some((comment, d)) = comment(s, c)? else {
        return Ok(None);
    };
    let Some(e) = d.sign(s, b':') else {
        return Ok(None);
    };
    let stage = Stage::Colon;
    Ok(Some((Opening { stage, comment }, e)))
}

// An opening without a comment.
fn plain(stage: Stage, c: Cursor) -> OpeningRead
    ensures { result ≡ rules.plain_at stage c }
{
    let comment = NO_COMMENT;
    Ok((Opening { stage, comment }, c))
}

// How a rule begins.
#[tactic(auto, using(crate::proofs::Laws::no_wide_lem), unfolding(crate::specs::Rules::opening, crate::specs::Rules::always))]
pub fn begin(s: &[u8], c: Cursor) -> OpeningRead
    ensures { rules.opening s.now c.at ≡ seen_opening result }
{
    if let Some(d) = always(s, c) {
        return plain(Stage::Always, d);
    }
    // Most rules begin with no quote: they are told before a comment is read.
    if c.sign(s, b'"').is_none() {
        return plain(Stage::Beginning, c);
    }
    match wide_comment(s, c)? {
        Some(wide) => Ok(wide),
        None => plain(Stage::Beginning, c),
    }
}
