// A whole feed: many sheets, one a line.
#![tactic(auto)]

mod answers;
mod feeds;
mod lines;

pub use feeds::{read_feed, read_feed_bytes};

// What reading a feed answers: its numbers, as C's callers get them.
#[derive(Clone, Copy)]
pub struct FeedAnswer {
    pub number: u8,
    pub lines: usize,
    pub records: usize,
}
