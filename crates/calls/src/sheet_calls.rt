// Reading a sheet: by edition 1, or by an edition that the caller names.
ghost use Rattle.std.specs.Prelude.{◌≡◌};
ghost use Rattle.sheet.specs.Sheets as sheets;
ghost use Rattle.calls.specs.Editions as editions;

use crate::editions::edition_of;
use names::{Manner, Reason};
use sheet::{Answer, refusal, sheet_into};

// A sheet is read into a table of words, in a manner. (A reading takes a table of words and one of bytes: of these two functions each lends one of them, and the other is empty.)
pub fn sheet_words(sheet: &[u8], m: Manner, table: &mut [i32]) -> Answer
    ensures { (result, table.new) ≡ sheets.sheet_reading_by m sheet.now table.old }
{
    let mut none = [0u8; 0];
    sheet_into(sheet, m, table.len() / 16, table, &mut none)
}

// A sheet is read into a table of bytes, in a manner.
pub fn sheet_bytes(sheet: &[u8], m: Manner, table: &mut [u8]) -> Answer
    ensures { (result, table.new) ≡ sheets.sheet_reading_bytes_by m sheet.now table.old }
{
    let mut none = [0i32; 0];
    sheet_into(sheet, m, table.len() / 64, &mut none, table)
}

// A sheet is read into a table of words.
pub fn read_sheet(sheet: &[u8], table: &mut [i32]) -> Answer
    ensures { (result, table.new) ≡ sheets.sheet_reading sheet.now table.old }
{
    sheet_words(sheet, Manner::First, table)
}

// A sheet is read into a table of bytes.
pub fn read_sheet_bytes(sheet: &[u8], table: &mut [u8]) -> Answer
    ensures { (result, table.new) ≡ sheets.sheet_reading_bytes sheet.now table.old }
{
    sheet_bytes(sheet, Manner::First, table)
}

// A sheet is read in an edition into a table of words.
#[tactic(auto, unfolding(crate::specs::Editions::sheet_reading_in))]
pub fn read_sheet_in(edition: u32, sheet: &[u8], table: &mut [i32]) -> Answer
    ensures { (result, table.new) ≡ editions.sheet_reading_in edition sheet.now table.old }
{
    match edition_of(edition) {
        Some(m) => sheet_words(sheet, m, table),
        None => refusal(Reason::UnknownEdition as u8, 0),
    }
}

// A sheet is read in an edition into a table of bytes.
#[tactic(auto, unfolding(crate::specs::Editions::sheet_reading_bytes_in))]
pub fn read_sheet_bytes_in(edition: u32, sheet: &[u8], table: &mut [u8]) -> Answer
    ensures { (result, table.new) ≡ editions.sheet_reading_bytes_in edition sheet.now table.old }
{
    match edition_of(edition) {
        Some(m) => sheet_bytes(sheet, m, table),
        None => refusal(Reason::UnknownEdition as u8, 0),
    }
}
