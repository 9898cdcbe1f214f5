// One rule: its pieces in order, its end, and its head.
#![tactic(auto)]

mod comments;
mod heads;
mod modifiers;
mod openings;
mod pieces;
mod rows;
mod separators;

pub use heads::head_of;
use items::{Kind, Kinds, PlacedItem};
use names::{Cursor, Refusal};
pub use openings::begin;
use records::Comment;
pub use separators::next_rule;

// What was read last in a rule: nothing yet, `24/7`, the comment of a wide part and its colon, or an item of a kind.
#[derive(Clone, Copy)]
pub enum Stage {
    Beginning,
    Always,
    Colon,
    After(Kind),
}

// How a rule begins: what was read, and the wide part's comment.
#[derive(Clone, Copy)]
pub struct Opening {
    pub stage: Stage,
    pub comment: Comment,
}

// How a rule ends: 0 open, 1 closed, 2 unknown, the modifier's comment, and whether the modifier's word is written unusually.
// (The state stays a number: it is the value of the modifier's word in the table of names, and what the rule's record holds. An enum would only be turned back.)
#[derive(Clone, Copy)]
pub struct Tail {
    pub state: u8,
    pub comment: Comment,
    pub odd: bool,
}

// A place in a rule, and what was read last before it.
#[derive(Clone, Copy)]
pub struct Spot {
    pub at: usize,
    pub stage: Stage,
}

// A piece of a rule: an item, or the rule's end.
#[derive(Clone, Copy)]
pub enum Piece {
    Item(PlacedItem),
    End(Tail),
}

// Where a rule goes on: the place, what may stand there and whether it has to.
#[derive(Clone, Copy)]
struct Turn {
    at: Cursor,
    wanted: Kinds,
    must: bool,
}

// What reading a comment finds: it and the place after it, none, or a refusal.
pub type CommentRead = Result<Option<(Comment, Cursor)>, Refusal>;

// A piece of a rule and the place after it, or a refusal.
pub type PieceRead = Result<(Piece, Cursor), Refusal>;

// How a rule begins, and the place after it; or a refusal.
pub type OpeningRead = Result<(Opening, Cursor), Refusal>;
