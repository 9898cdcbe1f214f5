// Reading a part: by edition 1, or by an edition that the caller names.
ghost use Rattle.std.specs.Prelude.{◌≡◌};
ghost use Rattle.sheet.specs.PartReadings as parts;
ghost use Rattle.calls.specs.Editions as editions;

use crate::editions::edition_of;
use names::{Manner, Reason};
use sheet::{PartAnswer, part_into, part_refusal};

// The part that begins at a place is read into a table of words, in a manner. (Two functions, as `sheet_words` and `sheet_bytes` are.)
pub fn part_words(sheet: &[u8], m: Manner, place: usize, table: &mut [i32]) -> PartAnswer
    ensures { (result, table.new) ≡ parts.part_reading_by m sheet.now place table.old }
{
    let mut none = [0u8; 0];
    part_into(sheet, m, place, table.len() / 16, table, &mut none)
}

// The part that begins at a place is read into a table of bytes, in a manner.
pub fn part_bytes(sheet: &[u8], m: Manner, place: usize, table: &mut [u8]) -> PartAnswer
    ensures { (result, table.new) ≡ parts.part_reading_bytes_by m sheet.now place table.old }
{
    let mut none = [0i32; 0];
    part_into(sheet, m, place, table.len() / 64, &mut none, table)
}

// The part that begins at a place is read into a table of words.
pub fn read_part(sheet: &[u8], place: usize, table: &mut [i32]) -> PartAnswer
    ensures { (result, table.new) ≡ parts.part_reading sheet.now place table.old }
{
    part_words(sheet, Manner::First, place, table)
}

// The part that begins at a place is read into a table of bytes.
pub fn read_part_bytes(sheet: &[u8], place: usize, table: &mut [u8]) -> PartAnswer
    ensures { (result, table.new) ≡ parts.part_reading_bytes sheet.now place table.old }
{
    part_bytes(sheet, Manner::First, place, table)
}

// The part that begins at a place is read in an edition into a table of words.
#[tactic(auto, unfolding(crate::specs::Editions::part_reading_in))]
pub fn read_part_in(edition: u32, sheet: &[u8], place: usize, table: &mut [i32]) -> PartAnswer
    ensures { (result, table.new) ≡ editions.part_reading_in edition sheet.now place table.old }
{
    match edition_of(edition) {
        Some(m) => part_words(sheet, m, place, table),
        None => part_refusal(Reason::UnknownEdition as u8),
    }
}

// The part that begins at a place is read in an edition into a table of bytes.
#[tactic(auto, unfolding(crate::specs::Editions::part_reading_bytes_in))]
pub fn read_part_bytes_in(edition: u32, sheet: &[u8], place: usize, table: &mut [u8]) -> PartAnswer
    ensures { (result, table.new) ≡ editions.part_reading_bytes_in edition sheet.now place table.old }
{
    match edition_of(edition) {
        Some(m) => part_bytes(sheet, m, place, table),
        None => part_refusal(Reason::UnknownEdition as u8),
    }
}
