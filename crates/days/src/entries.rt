// Entry: `n`, `n-n`, `-n`. Entries set flag n; a descending pair sets none.
ghost use Rattle.std.specs.Prelude.{◌≡◌};
ghost use Rattle.names.specs.Seen.{seen};
ghost use Rattle.days.specs.Entries as entries;

use crate::{Entry, Flags, Marks};
use names::Cursor;

// `-n`
#[tactic(auto, unfolding(crate::specs::Entries::back_entry))]
fn back_entry(s: &[u8], c: Cursor) -> Option<(Entry, Cursor)>
    ensures { entries.back_entry s.now c.at ≡ seen (λ a. a) result }
{
    let d = c.sign(s, b'-')?;
    let (n, next) = d.ordinal(s)?;
    let entry = Entry {
        back: true,
        first: n as u8,
        last: n as u8,
    };
    Some((entry, next))
}

// `n` or `n-n`
#[tactic(auto, unfolding(crate::specs::Entries::front_entry))]
fn front_entry(s: &[u8], c: Cursor) -> Option<(Entry, Cursor)>
    ensures { entries.front_entry s.now c.at ≡ seen (λ a. a) result }
{
    let (first, d) = c.ordinal(s)?;
    let (last, next) = d
        .sign(s, b'-')
        .and_then(|e| e.ordinal(s))
        .unwrap_or((first, d));
    let entry = Entry {
        back: false,
        first: first as u8,
        last: last as u8,
    };
    Some((entry, next))
}

// Entry: `n`, `n-n`, `-n`.
#[tactic(auto, unfolding(crate::specs::Entries::entry))]
fn entry(s: &[u8], c: Cursor) -> Option<(Entry, Cursor)>
    ensures { entries.entry s.now c.at ≡ seen (λ a. a) result }
{
    back_entry(s, c).or_else(|| front_entry(s, c))
}

// A comma and an entry.
#[tactic(auto, unfolding(crate::specs::Entries::next_entry))]
fn next_entry(s: &[u8], c: Cursor) -> Option<(Entry, Cursor)>
    ensures { entries.next_entry s.now c.at ≡ seen (λ a. a) result }
{
    let d = c.sign(s, b',')?;
    entry(s, d)
}

// Flag n of those that were set, with those from first to last.
#[tactic(auto, unfolding(names::specs::Tests::within))]
fn set(old: bool, first: u8, last: u8, n: u8) -> bool
    ensures { result ≡ entries.set old first last n }
{
    old || (first..=last).contains(&n)
}

// These flags, with those from first to last: a descending pair sets none.
#[tactic(auto, unfolding(crate::specs::Entries::set_all))]
fn set_all(f: Flags, first: u8, last: u8) -> Flags
    ensures { result ≡ entries.set_all f first last }
{
    Flags {
        one: set(f.one, first, last, 1),
        two: set(f.two, first, last, 2),
        three: set(f.three, first, last, 3),
        four: set(f.four, first, last, 4),
        five: set(f.five, first, last, 5),
    }
}

// n from 1 to 5.
#[tactic(auto, unfolding(crate::specs::Entries::good_entry, names::specs::Tests::within))]
fn good_entry(e: Entry) -> bool
    ensures { result ≡ entries.good_entry e }
{
    (1..=5).contains(&e.first) && (1..=5).contains(&e.last)
}

// No entry yet.
pub fn no_marks() -> Marks
    ensures { result ≡ entries.no_marks }
{
    let none = Flags {
        one: false,
        two: false,
        three: false,
        four: false,
        five: false,
    };
    Marks {
        starts: none,
        ends: none,
        good: true,
    }
}

// What one entry more sets.
#[tactic(auto, unfolding(crate::specs::Entries::marked))]
fn marked(m: Marks, e: Entry) -> Marks
    ensures { result ≡ entries.marked m e }
{
    let good = m.good && good_entry(e);
    if e.back {
        Marks {
            ends: set_all(m.ends, e.first, e.last),
            good,
            ..m
        }
    } else {
        Marks {
            starts: set_all(m.starts, e.first, e.last),
            good,
            ..m
        }
    }
}

// One or more entries, commas between: what they set.
#[tactic(auto, using(crate::proofs::Laws::marked_none, crate::proofs::Laws::marked_first, crate::proofs::Laws::marked_more, crate::proofs::Laws::marked_done))]
pub fn entries(s: &[u8], c: Cursor) -> Option<(Marks, Cursor)>
    ensures { entries.entries s.now c.at ≡ seen (λ a. a) result }
{
    let (first, d) = entry(s, c)?;
    let mut marks = marked(no_marks(), first);
    let mut next = d;
    while let Some((more, after)) = next_entry(s, next) {
        marks = marked(marks, more);
        next = after;
    }
    Some((marks, next))
}

// A flag as a number: n where it is set. (By `u8::from`, a product would stand for each branch: no plainer.)
fn bit(b: bool, n: u8) -> u8
    ensures { result ≡ entries.bit b n }
{
    if b { n } else { 0 }
}

// Bit n-1 for n.
#[tactic(auto, unfolding(crate::specs::Entries::bits))]
pub fn bits(f: Flags) -> u8
    ensures { result ≡ entries.bits f }
{
    bit(f.one, 1) + bit(f.two, 2) + bit(f.three, 4) + bit(f.four, 8) + bit(f.five, 16)
}
