// The house profile, a judgement over the rules that were read: only `;` between rules; only clock times, up to 24:00, without repeat or open end;
// and within a rule spans in rising order, each end after its start and no two overlapping.
#![tactic(auto)]

mod breaks;
mod spans;

pub use breaks::first_of;
use names::{Reason, Refusal};

// What is known of a rule after some of its items: its first break, if it has one, and where its spans end.
#[derive(Clone, Copy)]
pub struct Judgement<R = Reason> {
    pub first: Option<Refusal<R>>,
    pub end: u16,
}
