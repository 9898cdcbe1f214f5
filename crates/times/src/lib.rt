// Times: clock times, sun events and spans of them.
#![tactic(auto)]

mod meanings;
mod spans;
mod times;

pub use meanings::{good_end, good_start};
use records::Time;
pub use spans::{event_item_after, time_item};

// A time as it is written, and whether the name of its event calls for a warning.
#[derive(Clone, Copy)]
struct SpeltTime {
    time: Time,
    odd: bool,
}

// What stands after a span's end: after how many minutes it is repeated, if it is, and whether the end is open.
#[derive(Clone, Copy)]
struct Tail {
    repeats: Option<u16>,
    open_end: bool,
}
