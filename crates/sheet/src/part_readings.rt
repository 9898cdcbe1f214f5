// Reading a part.
ghost use Rattle.std.specs.Prelude.{◌*◌, ◌≡◌};
ghost use Rattle.sheet.specs.PartReadings as parts;
ghost use Rattle.text_rules.specs.Into.{into};

use crate::sheets::{read_text, refusal};
use crate::{Answer, LONGEST, PartAnswer};
use names::{Manner, Reason};
use parts::{begins, part_end};

// An answer, the next part's place and whether this was the last.
fn part_answer_of(a: Answer, next: usize, last: bool) -> PartAnswer
    ensures { result ≡ parts.part_answer_of a next last }
{
    PartAnswer {
        number: a.number,
        place: a.place,
        records: a.records,
        warnings: a.warnings,
        next,
        last,
    }
}

// The answer of a part that ends at e.
fn with_next(s: &[u8], e: usize, a: Answer) -> PartAnswer
    ensures { result ≡ parts.with_next s.now e a }
{
    if e < s.len() {
        part_answer_of(a, e + 1, false)
    } else {
        part_answer_of(a, 0, true)
    }
}

// 1, 2 and 19 give next 0, last.
pub fn part_refusal(number: u8) -> PartAnswer
    ensures { result ≡ (parts.part_refusal number).0 }
{
    part_answer_of(refusal(number, 0), 0, true)
}

// The part that begins at a place is read into both tables, if there is room for its records.
pub fn part_into(
    sheet: &[u8],
    m: Manner,
    place: usize,
    room: usize,
    words: &mut [i32],
    bytes: &mut [u8],
) -> PartAnswer
    ensures { (result, (words.new, bytes.new)) ≡ into (words.old, bytes.old) (parts.part_by m sheet.now place (room * 16)) }
{
    if LONGEST < sheet.len() {
        return part_refusal(Reason::TooLong as u8);
    }
    if !begins(sheet, place) {
        return part_refusal(Reason::NoPart as u8);
    }
    let e = part_end(sheet, place);
    let a = read_text(&sheet[..e], m, place, room, words, bytes);
    with_next(sheet, e, a)
}
