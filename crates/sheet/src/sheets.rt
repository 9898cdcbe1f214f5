// Reading a text, and a sheet.
ghost use Rattle.std.specs.Prelude.{◌*◌, ◌≤◌, ◌≡◌, length};
ghost use Rattle.lent_slots.specs.Tables.{all_kept, records_in};
ghost use Rattle.sheet.specs.Sheets as sheets;
ghost use Rattle.text_rules.specs.Into.{into};

use crate::{Answer, LONGEST};
use lent_slots::{keep, words_at};
use names::{Manner, Reason};
use text_rules::fill_rules;

// A refusal gives 0 records and 0 warnings. (It is a number, as an answer's is.)
pub fn refusal(number: u8, place: usize) -> Answer
    ensures { result ≡ (sheets.refusal number place).0 }
{
    Answer {
        number,
        place,
        records: 0,
        warnings: 0,
    }
}

// How many records a table of our own keeps while a text is counted.
const FEW: usize = 7;

// The first n records of a table of words go into both tables, each where the table has its slot.
fn put_records(from: &[i32], n: usize, words: &mut [i32], bytes: &mut [u8])
    requires { n * 16 ≤ length from.now }
    ensures { (words.new, bytes.new) ≡ all_kept (words.old, bytes.old) 0 (records_in n from.now) }
{
    for slot in 0..n {
        keep(words, bytes, slot, words_at(from, slot));
    }
}

// The text from place p on to the end of s is read into both tables, if there is room for its records.
// They are kept in a table of our own until they are counted; more than it holds are read again.
pub fn read_text(
    s: &[u8],
    m: Manner,
    p: usize,
    room: usize,
    words: &mut [i32],
    bytes: &mut [u8],
) -> Answer
    requires { length s.now ≤ 4096 }
    ensures { (result, (words.new, bytes.new)) ≡ into (words.old, bytes.old) (sheets.text_of m s.now p (room * 16)) }
{
    let mut few = [0i32; FEW * 16];
    let mut none = [0u8; 0];
    match fill_rules(s, m, p, &mut few, &mut none) {
        Ok((counted, _)) => {
            let n = counted.records;
            if room < n {
                return refusal(Reason::NoRoom as u8, p);
            }
            if FEW < n {
                let _ = fill_rules(s, m, p, words, bytes);
            } else {
                put_records(&few, n, words, bytes);
            }
            Answer {
                number: 0,
                place: 0,
                records: n,
                warnings: counted.warnings,
            }
        }
        Err(refused) => refusal(refused.reason.number(), refused.place),
    }
}

// A sheet is read into both tables, if there is room for its records: one of over 4,096 bytes is not read.
pub fn sheet_into(
    sheet: &[u8],
    m: Manner,
    room: usize,
    words: &mut [i32],
    bytes: &mut [u8],
) -> Answer
    ensures { (result, (words.new, bytes.new)) ≡ into (words.old, bytes.old) (sheets.sheet_by m sheet.now (room * 16)) }
{
    if LONGEST < sheet.len() {
        return refusal(Reason::TooLong as u8, 0);
    }
    read_text(sheet, m, 0, room, words, bytes)
}
