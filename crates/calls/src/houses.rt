// House sheets: edition 1, judged by the house profile besides.
ghost use Rattle.std.specs.Prelude.{◌≡◌};
ghost use Rattle.calls.specs.Houses as houses;

use crate::part_calls::{part_bytes, part_words};
use crate::sheet_calls::{sheet_bytes, sheet_words};
use names::Manner;
use sheet::{Answer, PartAnswer};

// A house sheet is read into a table of words.
pub fn read_house_sheet(sheet: &[u8], table: &mut [i32]) -> Answer
    ensures { (result, table.new) ≡ houses.house_reading sheet.now table.old }
{
    sheet_words(sheet, Manner::House, table)
}

// A house sheet is read into a table of bytes.
pub fn read_house_sheet_bytes(sheet: &[u8], table: &mut [u8]) -> Answer
    ensures { (result, table.new) ≡ houses.house_reading_bytes sheet.now table.old }
{
    sheet_bytes(sheet, Manner::House, table)
}

// The part of a house sheet that begins at a place is read into a table of words.
pub fn read_house_part(sheet: &[u8], place: usize, table: &mut [i32]) -> PartAnswer
    ensures { (result, table.new) ≡ houses.house_part_reading sheet.now place table.old }
{
    part_words(sheet, Manner::House, place, table)
}

// The part of a house sheet that begins at a place is read into a table of bytes.
pub fn read_house_part_bytes(sheet: &[u8], place: usize, table: &mut [u8]) -> PartAnswer
    ensures { (result, table.new) ≡ houses.house_part_reading_bytes sheet.now place table.old }
{
    part_bytes(sheet, Manner::House, place, table)
}
