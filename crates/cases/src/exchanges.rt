// A sheet, and the same with one part exchanged: every other part has its old answer and records, its places moved.

use crate::lines::digit;
use crate::readings::{first_words, fresh_table};
use calls::read_part;
use notes::note;
use prints::print_number;
use sheet::PartAnswer;
use std::io::Error;

// A part: its sheet, its place there, and what its reading gave.
#[derive(Clone, Copy)]
struct Part<'a> {
    sheet: &'a [u8],
    place: usize,
    answer: PartAnswer,
    table: &'a [i32],
}

// The reading of a part in both sheets: whether it is the same, and the next parts' places, unless it was the last.
#[derive(Clone, Copy)]
struct Pair {
    is_same: bool,
    next: Option<(usize, usize)>,
}

// How many parts are read alike, and how many are not.
#[derive(Clone, Copy)]
struct Tally {
    same: u64,
    other: u64,
}

impl Tally {
    // One part more. (Of 4,097 none is left out.)
    fn count(&mut self, is_same: bool) {
        if is_same {
            self.same = self.same.saturating_add(1);
        } else {
            self.other = self.other.saturating_add(1);
        }
    }
}

// Reads the part at a place.
fn read<'a>(sheet: &'a [u8], place: usize, table: &'a mut [i32]) -> Part<'a> {
    let answer = read_part(sheet, place, table);
    Part {
        sheet,
        place,
        answer,
        table,
    }
}

impl<'a> Part<'a> {
    // A place counted from the part's beginning.
    fn from(self, place: usize) -> usize {
        place.wrapping_sub(self.place)
    }

    // The place of a refusal, counted so; a 0 where there is none is left.
    fn refused_at(self) -> usize {
        if self.answer.number == 0 {
            self.answer.place
        } else {
            self.from(self.answer.place)
        }
    }

    // The next part's place, counted so; a 0 after the last is left.
    fn next(self) -> usize {
        if self.answer.last {
            self.answer.next
        } else {
            self.from(self.answer.next)
        }
    }

    // The place of a record, counted so.
    fn place_of(self, record: &[i32; 16]) -> usize {
        if record[15] < 0 {
            0
        } else {
            self.from(record[15] as usize)
        }
    }

    // The bytes of a head's comment.
    fn comment(self, head: &[i32; 16]) -> &'a [u8] {
        note(self.sheet, &self.sheet[..0], head[3], head[4])
    }
}

// Whether two parts have the same answer, places moved.
fn is_same_answer(one: Part, other: Part) -> bool {
    let (a, b) = (one.answer, other.answer);
    a.number == b.number
        && a.records == b.records
        && a.warnings == b.warnings
        && a.last == b.last
        && one.refused_at() == other.refused_at()
        && one.next() == other.next()
}

// Whether two parts' records are the same, places moved; a comment by its bytes and not by its place.
fn is_same_record(one: Part, t: &[i32; 16], other: Part, u: &[i32; 16]) -> bool {
    if one.place_of(t) != other.place_of(u) {
        return false;
    }
    if t[0] != 1 {
        return t[..15] == u[..15];
    }
    t[..3] == u[..3] && t[4..15] == u[4..15] && one.comment(t) == other.comment(u)
}

// Whether two parts' first n records are the same.
fn is_same_records(one: Part, other: Part, n: usize) -> bool {
    let (t, _) = one.table.as_chunks::<16>();
    let (u, _) = other.table.as_chunks::<16>();
    n <= t.len()
        && n <= u.len()
        && t.iter()
            .zip(u)
            .take(n)
            .all(|(t, u)| is_same_record(one, t, other, u))
}

// The part at p of one sheet and that at q of the other, each with a fresh table of so many words.
fn read_pair(one: &[u8], p: usize, other: &[u8], q: usize, words: usize) -> Pair {
    let mut t = fresh_table();
    let mut u = fresh_table();
    let a = read(one, p, first_words(&mut t, words));
    let b = read(other, q, first_words(&mut u, words));
    Pair {
        is_same: is_same_answer(a, b) && is_same_records(a, b, a.answer.records),
        next: if a.answer.last || b.answer.last {
            None
        } else {
            Some((a.answer.next, b.answer.next))
        },
    }
}

// All parts but number k.
fn compare(one: &[u8], other: &[u8], k: usize, words: usize) -> Tally {
    let mut tally = Tally { same: 0, other: 0 };
    let (mut p, mut q) = (0, 0);
    for i in 0..4097 {
        let pair = read_pair(one, p, other, q, words);
        if i != k {
            tally.count(pair.is_same);
        }
        let Some(next) = pair.next else {
            break;
        };
        (p, q) = next;
    }
    tally
}

// Two sheets with byte 9 between them.
pub fn run_exchange(rt: &impl Print, part: u8, sheets: &[u8], words: usize) -> Result<(), Error> {
    let Some(at) = sheets.iter().position(|b| *b == b'\t') else {
        return Ok(());
    };
    let tally = compare(&sheets[..at], &sheets[at + 1..], digit(part), words);
    rt.write_all(b"X ")?;
    print_number(rt, tally.same, b' ')?;
    print_number(rt, tally.other, b'\n')
}
