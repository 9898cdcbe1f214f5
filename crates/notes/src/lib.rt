// The note shown for a rule.
#![tactic(auto)]

ghost use Rattle.std.specs.Prelude.{◌≡◌};
ghost use Rattle.notes.specs.Notes as notes;

use std::ops::Range;

// Which bytes a note is: the sheet's, or else the standing note's, from where and to where.
// (Two numbers, and no range: a range is not copied.)
#[derive(Clone, Copy)]
pub enum NotePart {
    Sheet { from: usize, to: usize },
    Standing { from: usize, to: usize },
}

// Where a comment stands in a sheet of so many bytes, by its numbers.
fn comment(sheet: usize, start: i32, length: i32) -> Option<Range<usize>>
    ensures { notes.place_of result ≡ notes.comment sheet start length }
{
    let from = usize::try_from(start).ok()?;
    let to = from + usize::try_from(length).ok()?;
    if to <= sheet { Some(from..to) } else { None }
}

// Which part of the sheet, or else of the caller's standing note, it is, by their lengths.
pub fn note_part(sheet: usize, standing: usize, start: i32, length: i32) -> NotePart
    ensures { notes.numbers_of result ≡ notes.note_part sheet standing start length }
{
    if length == 0 {
        return NotePart::Standing {
            from: 0,
            to: standing,
        };
    }
    match comment(sheet, start, length) {
        Some(Range { start, end }) => NotePart::Sheet {
            from: start,
            to: end,
        },
        None => NotePart::Standing { from: 0, to: 0 },
    }
}

// Its comment out of the sheet, or the caller's standing note, whole, if the length is 0; for numbers outside the sheet the empty part at the note's start.
pub fn note<'a>(sheet: &'a [u8], standing: &'a [u8], start: i32, length: i32) -> &'a [u8]
    ensures { notes.CutFrom (notes.note_of sheet.entry standing.entry start length) result.ref_ptr result.now }
{
    match note_part(sheet.len(), standing.len(), start, length) {
        NotePart::Sheet { from, to } => &sheet[from..to],
        NotePart::Standing { from, to } => &standing[from..to],
    }
}
