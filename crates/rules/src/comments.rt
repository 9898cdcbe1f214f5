// Comment: `"`, one or more bytes from 32 up except `"`, `"`. These bytes are well-formed UTF-8, or it is refused.
ghost use Rattle.std.specs.Prelude.{◌≡◌};
ghost use Rattle.names.specs.Read.{got};
ghost use Rattle.names.specs.Chain as chain;
ghost use Rattle.names.specs.Seen.{seen};
ghost use Rattle.utf8.specs.Letters.{is_inner};
ghost use Rattle.rules.specs.Comments as comments;
ghost use Rattle.rules.specs.Seen.{seen_comment};

use crate::CommentRead;
use names::{Cursor, Reason, Refusal};
use records::Comment;
use utf8::letters;

// No comment.
pub const NO_COMMENT: Comment = Comment {
    start: 0,
    length: 0,
};

// A byte of a comment: from 32 up except `"`.
#[tactic(auto, unfolding(utf8::specs::Letters::is_inner))]
fn is_inner(b: u8) -> bool
    ensures { result ≡ is_inner b }
{
    b' ' <= b && b != b'"'
}

// The place after bytes of a comment, as many as there are.
#[tactic(auto, using(crate::proofs::Laws::skip_on, names::proofs::Skips::skip_stop, names::proofs::Skips::skip_end))]
fn inner(s: &[u8], c: Cursor) -> Cursor
    ensures { chain.skip is_inner s.now c.at ≡ got tt result.at }
{
    for at in c.at..s.len() {
        if !is_inner(s[at]) {
            return Cursor { at };
        }
    }
    Cursor {
        at: c.at.max(s.len()),
    }
}

// The closing quote after the characters of a comment from start on.
#[tactic(auto, unfolding(crate::specs::Comments::closed))]
fn closed(s: &[u8], c: Cursor, start: usize) -> Option<(Comment, Cursor)>
    ensures { comments.closed start s.now c.at ≡ seen (λ a. a) result }
{
    let d = c.sign(s, b'"')?;
    let end = c.at;
    if end <= start {
        return None;
    }
    let length = end - start;
    Some((Comment { start, length }, d))
}

// The closing quote after other bytes: only where characters end before it is it looked for.
fn ill_formed(s: &[u8], c: Cursor, place: usize) -> CommentRead
    ensures { comments.ill_formed place s.now c.at ≡ seen_comment result }
{
    let d = inner(s, c);
    if d.at <= c.at || d.sign(s, b'"').is_none() {
        return Ok(None);
    }
    let reason = Reason::IllFormedComment;
    Err(Refusal { reason, place })
}

// A comment, judged when its closing quote is read.
#[tactic(auto, unfolding(crate::specs::Comments::comment))]
pub fn comment(s: &[u8], c: Cursor) -> CommentRead
    ensures { comments.comment s.now c.at ≡ seen_comment result }
{
    let Some(d) = c.sign(s, b'"') else {
        return Ok(None);
    };
    let e = letters(s, d);
    match closed(s, e, d.at) {
        Some(good) => Ok(Some(good)),
        None => ill_formed(s, e, c.at),
    }
}

// A blank and a comment.
#[tactic(auto, unfolding(crate::specs::Comments::comment_apart))]
pub fn comment_after_blank(s: &[u8], c: Cursor) -> CommentRead
    ensures { comments.comment_apart s.now c.at ≡ seen_comment result }
{
    match c.blank(s) {
        Some(d) => comment(s, d),
        None => Ok(None),
    }
}
