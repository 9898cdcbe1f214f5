// What the program writes for a sheet: the answer's four numbers, then each record, one line each.
#![tactic(auto)]

ghost use Rattle.std.specs.Prelude.{◌+◌, ◌*◌, ◌≤◌, [], ◌∷◌, ◌++◌, ◌≡◌, length};
ghost use Rattle.prints.specs.Decimals.{decimal};
ghost use Rattle.prints.specs.Lines.{line, lines};
ghost use Rattle.prints.specs.Pens.{Writes};
ghost use Rattle.outputs.specs.Outputs.{numbers_of, output_of, filled, longest};
ghost use Rattle.lent_slots.specs.Tables.{records_in};

use calls::read_sheet;
use prints::LentPen;
use sheet::Answer;

// A table for 512 records.
const WORDS: usize = 512 * 16;

// The bytes that are enough for every output (`longest`).
pub const MOST: usize = 4 * 21 + 512 * 16 * 12;

// A number, and the byte after it.
fn put_ended(pen: &mut LentPen, n: u64, end: u8)
    ensures most { pen.new.at ≤ pen.old.at + 21 }
    ensures whole { Writes (decimal n ++ (end ∷ [])) pen.old pen.new }
{
    pen.put_number(n);
    pen.put(end);
}

// The answer's line.
fn put_answer(pen: &mut LentPen, a: Answer)
    ensures most { pen.new.at ≤ pen.old.at + 84 }
    ensures whole { Writes (line (numbers_of a)) pen.old pen.new }
{
    put_ended(pen, u64::from(a.number), b' ');
    put_ended(pen, a.place as u64, b' ');
    put_ended(pen, a.records as u64, b' ');
    put_ended(pen, a.warnings as u64, b'\n');
}

// The whole output for a sheet is written over the front of lent bytes; a byte that has no room is counted and not written.
pub fn output(sheet: &[u8], out: &mut [u8]) -> usize
    ensures most { result ≤ longest }
    ensures whole { (result, out.new) ≡ filled (output_of sheet.now) out.old }
{
    let mut table = [0i32; WORDS];
    let a = read_sheet(sheet, &mut table);
    let mut pen = LentPen { out, at: 0 };
    put_answer(&mut pen, a);
    let (records, _) = table.as_chunks::<16>();
    pen.put_lines(&records[..a.records]);
    pen.at
}
