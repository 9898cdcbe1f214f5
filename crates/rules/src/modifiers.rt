// Modifier: `open`, `closed`, `off` or `unknown`, optionally both blank and comment; or a comment alone (open).
ghost use Rattle.std.specs.Prelude.{◌≡◌, false};
ghost use Rattle.std.proofs.Common.{inr};
ghost use Rattle.names.specs.Read.{map};
ghost use Rattle.rules.specs.Modifiers.{tail_of, with_comment};
ghost use Rattle.rules.specs.Seen.{piece_of, seen_piece};

use crate::comments::{NO_COMMENT, comment_after_blank};
use crate::{Piece, PieceRead, Tail};
use names::Cursor;
use records::Comment;

// The end of an open rule, with no modifier's word.
pub fn open_end(comment: Comment) -> Piece
    ensures { piece_of result ≡ inr (tail_of 0 comment false) }
{
    Piece::End(Tail {
        state: 0,
        comment,
        odd: false,
    })
}

// After a modifier's word: optionally both blank and comment.
#[tactic(auto, unfolding(crate::specs::Modifiers::with_comment))]
pub fn with_comment(s: &[u8], c: Cursor, state: u8, odd: bool) -> PieceRead
    ensures { map inr (with_comment state odd) s.now c.at ≡ seen_piece result }
{
    let (comment, d) = comment_after_blank(s, c)?.unwrap_or((NO_COMMENT, c));
    Ok((
        Piece::End(Tail {
            state,
            comment,
            odd,
        }),
        d,
    ))
}
