// The calls for C: the readings over bytes, the note's numbers, tallies, and what is asked of a table. include/lorukinde.h has the same words.
#![tactic(auto)]

mod figures;
mod rule_calls;

ghost use Rattle.std.specs.Prelude.{◌≤◌, [], ◌∷◌, ◌≡◌};
ghost use Rattle.records.specs.Warnings.{most_warnings};
ghost use Rattle.c_calls.specs.Calls.{flag, sheet_numbers, part_numbers, sheet_call, sheet_call_in, house_call, part_call, part_call_in, house_part_call, note_call, feed_call};

use calls::{
    read_house_part_bytes, read_house_sheet_bytes, read_part_bytes, read_part_bytes_in,
    read_sheet_bytes, read_sheet_bytes_in,
};
use feed::read_feed_bytes;
pub use figures::{lorukinde_tally_add, lorukinde_tally_join};
use notes::{NotePart, note_part};
pub use rule_calls::{lorukinde_renew_months, lorukinde_rule_days, lorukinde_rule_months};
use sheet::{Answer, PartAnswer};

// A reading's numbers: the number is returned, place, records and warnings are stored.
fn answer_numbers(a: Answer, place: &mut u32, records: &mut u32, warnings: &mut u32) -> u32
    requires { (a.place ≤ 4096) × (a.records ≤ 4096) × (a.warnings ≤ most_warnings) }
    ensures { (result ∷ place.new ∷ records.new ∷ warnings.new ∷ []) ≡ sheet_numbers a }
{
    *place = a.place as u32;
    *records = a.records as u32;
    *warnings = a.warnings as u32;
    a.number as u32
}

// The numbers of a part's reading: also the next part's place is stored, and 1 if this was the last, else 0.
fn part_numbers(
    part: PartAnswer,
    place: &mut u32,
    records: &mut u32,
    warnings: &mut u32,
    next: &mut u32,
    last: &mut u32,
) -> u32
    requires { (part.place ≤ 4096) × (part.records ≤ 4096) × (part.warnings ≤ most_warnings) × (part.next ≤ 4096) }
    ensures { (result ∷ place.new ∷ records.new ∷ warnings.new ∷ next.new ∷ last.new ∷ []) ≡ part_numbers part }
{
    *place = part.place as u32;
    *records = part.records as u32;
    *warnings = part.warnings as u32;
    *next = part.next as u32;
    *last = u32::from(part.last);
    part.number as u32
}

// Reads a sheet: the number is returned, place, records and warnings are stored.
pub fn lorukinde_read_sheet(
    sheet: &[u8],
    table: &mut [u8],
    place: &mut u32,
    records: &mut u32,
    warnings: &mut u32,
) -> u32
    ensures { (result ∷ place.new ∷ records.new ∷ warnings.new ∷ [], table.new) ≡ sheet_call sheet.now table.old }
{
    let a = read_sheet_bytes(sheet, table);
    answer_numbers(a, place, records, warnings)
}

// Reads a sheet in an edition, named by its number.
pub fn lorukinde_read_sheet_in(
    edition: u32,
    sheet: &[u8],
    table: &mut [u8],
    place: &mut u32,
    records: &mut u32,
    warnings: &mut u32,
) -> u32
    ensures { (result ∷ place.new ∷ records.new ∷ warnings.new ∷ [], table.new) ≡ sheet_call_in edition sheet.now table.old }
{
    let a = read_sheet_bytes_in(edition, sheet, table);
    answer_numbers(a, place, records, warnings)
}

// Reads a house sheet.
pub fn lorukinde_read_house_sheet(
    sheet: &[u8],
    table: &mut [u8],
    place: &mut u32,
    records: &mut u32,
    warnings: &mut u32,
) -> u32
    ensures { (result ∷ place.new ∷ records.new ∷ warnings.new ∷ [], table.new) ≡ house_call sheet.now table.old }
{
    let a = read_house_sheet_bytes(sheet, table);
    answer_numbers(a, place, records, warnings)
}

// Reads the part that begins at a place: also the next part's place is stored, and 1 if this was the last, else 0.
pub fn lorukinde_read_part(
    sheet: &[u8],
    begin: usize,
    table: &mut [u8],
    place: &mut u32,
    records: &mut u32,
    warnings: &mut u32,
    next: &mut u32,
    last: &mut u32,
) -> u32
    ensures { (result ∷ place.new ∷ records.new ∷ warnings.new ∷ next.new ∷ last.new ∷ [], table.new)
        ≡ part_call sheet.now begin table.old }
{
    let part = read_part_bytes(sheet, begin, table);
    part_numbers(part, place, records, warnings, next, last)
}

// Reads the part that begins at a place in an edition, named by its number.
pub fn lorukinde_read_part_in(
    edition: u32,
    sheet: &[u8],
    begin: usize,
    table: &mut [u8],
    place: &mut u32,
    records: &mut u32,
    warnings: &mut u32,
    next: &mut u32,
    last: &mut u32,
) -> u32
    ensures { (result ∷ place.new ∷ records.new ∷ warnings.new ∷ next.new ∷ last.new ∷ [], table.new)
        ≡ part_call_in edition sheet.now begin table.old }
{
    let part = read_part_bytes_in(edition, sheet, begin, table);
    part_numbers(part, place, records, warnings, next, last)
}

// Reads the part of a house sheet that begins at a place.
pub fn lorukinde_read_house_part(
    sheet: &[u8],
    begin: usize,
    table: &mut [u8],
    place: &mut u32,
    records: &mut u32,
    warnings: &mut u32,
    next: &mut u32,
    last: &mut u32,
) -> u32
    ensures { (result ∷ place.new ∷ records.new ∷ warnings.new ∷ next.new ∷ last.new ∷ [], table.new)
        ≡ house_part_call sheet.now begin table.old }
{
    let part = read_house_part_bytes(sheet, begin, table);
    part_numbers(part, place, records, warnings, next, last)
}

// The note shown for a rule: 1 where it is a part of the sheet, 0 of the caller's standing note; from where and to where is stored.
pub fn lorukinde_note(
    sheet_len: usize,
    note_len: usize,
    start: i32,
    length: i32,
    from: &mut usize,
    to: &mut usize,
) -> u32
    ensures { (result ∷ from.new ∷ to.new ∷ []) ≡ note_call sheet_len note_len start length }
{
    let (flag, begin, end) = match note_part(sheet_len, note_len, start, length) {
        NotePart::Sheet { from, to } => (1, from, to),
        NotePart::Standing { from, to } => (0, from, to),
    };
    *from = begin;
    *to = end;
    flag
}

// Reads a feed: the number is returned, lines and records are stored.
pub fn lorukinde_read_feed(
    feed: &[u8],
    answers: &mut [u8],
    table: &mut [u8],
    lines: &mut usize,
    records: &mut usize,
) -> u32
    ensures { (result ∷ lines.new ∷ records.new ∷ [], (answers.new, table.new)) ≡ feed_call feed.now answers.old table.old }
{
    let a = read_feed_bytes(feed, answers, table);
    *lines = a.lines;
    *records = a.records;
    a.number as u32
}
