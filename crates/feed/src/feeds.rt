// Reading a feed, line by line.
ghost use Rattle.std.specs.Prelude.{◌≤◌, ◌≡◌};
ghost use Rattle.sheet.specs.Sheets.{sheet_of};
ghost use Rattle.feed.specs.Feeds as feeds;
ghost use Rattle.feed.specs.Lines.{lines};
ghost use Rattle.feed.specs.Into as into;

use crate::FeedAnswer;
use crate::answers::keep_answer;
use crate::lines::{after_line, line_end, lines_in};
use names::Manner;
use sheet::{Answer, sheet_into};

// The answer table has fewer places than the feed has lines. (The only refusal of a feed: it stays the number that C gets.)
const FEW_PLACES: u8 = 14;

// Where a table of so many cells is free from a slot on: at the slot, or, where it has no such slot, at its end.
fn free_from(len: usize, width: usize, slot: usize) -> usize
    requires { 1 ≤ width }
    ensures { (result ≡ into.free_from len width slot) × (result ≤ len) }
{
    if slot < len / width {
        slot * width
    } else {
        len
    }
}

// A line is read into both tables from a slot on, if a table of `size` words has room for its records.
fn line_into(line: &[u8], size: usize, words: &mut [i32], bytes: &mut [u8], slot: usize) -> Answer
    ensures { (result, (words.new, bytes.new)) ≡ into.line_into (words.old, bytes.old) slot (sheet_of line.now size) }
{
    let w = free_from(words.len(), 16, slot);
    let b = free_from(bytes.len(), 64, slot);
    sheet_into(
        line,
        Manner::First,
        size / 16,
        &mut words[w..],
        &mut bytes[b..],
    )
}

// The lines of a feed are read one after another, each into what a table of `size` words still has room for.
fn lines_into(
    feed: &[u8],
    size: usize,
    answer_words: &mut [i32],
    answer_bytes: &mut [u8],
    words: &mut [i32],
    bytes: &mut [u8],
) -> FeedAnswer
    ensures { (result, ((answer_words.new, answer_bytes.new), (words.new, bytes.new)))
        ≡ into.feed_into (answer_words.old, answer_bytes.old) (words.old, bytes.old) (feeds.all_of (feeds.readings (lines feed.now) size)) }
{
    let mut n: usize = 0;
    let mut records: usize = 0;
    // A step goes on by a line: no range counts it.
    let mut at: usize = 0;
    while at < feed.len() {
        let e = line_end(feed, at);
        let a = line_into(&feed[at..e], size - records * 16, words, bytes, records);
        keep_answer(answer_words, answer_bytes, n, a);
        n += 1;
        records += a.records;
        at = after_line(feed, e);
    }
    FeedAnswer {
        number: 0,
        lines: n,
        records,
    }
}

// A feed is read into the tables, if there are places for the answers of all its lines.
fn feed_into(
    feed: &[u8],
    places: usize,
    size: usize,
    answer_words: &mut [i32],
    answer_bytes: &mut [u8],
    words: &mut [i32],
    bytes: &mut [u8],
) -> FeedAnswer
    ensures { (result, ((answer_words.new, answer_bytes.new), (words.new, bytes.new)))
        ≡ into.feed_into (answer_words.old, answer_bytes.old) (words.old, bytes.old) (feeds.feed_of feed.now places size) }
{
    if places < lines_in(feed) {
        return FeedAnswer {
            number: FEW_PLACES,
            lines: 0,
            records: 0,
        };
    }
    lines_into(feed, size, answer_words, answer_bytes, words, bytes)
}

// A feed is read into tables of words, one for its lines' answers and one for their records.
pub fn read_feed(feed: &[u8], answers: &mut [i32], table: &mut [i32]) -> FeedAnswer
    ensures { (result, (answers.new, table.new)) ≡ feeds.feed_reading feed.now answers.old table.old }
{
    let mut no_answers = [0u8; 0];
    let mut none = [0u8; 0];
    feed_into(
        feed,
        answers.len() / 4,
        table.len(),
        answers,
        &mut no_answers,
        table,
        &mut none,
    )
}

// The same of tables of bytes. (Two of one shape: a feed is read into both kinds of tables, and each of the two lends its own.)
pub fn read_feed_bytes(feed: &[u8], answers: &mut [u8], table: &mut [u8]) -> FeedAnswer
    ensures { (result, (answers.new, table.new)) ≡ feeds.feed_reading_bytes feed.now answers.old table.old }
{
    let mut no_answers = [0i32; 0];
    let mut none = [0i32; 0];
    feed_into(
        feed,
        answers.len() / 16,
        table.len() / 64 * 16,
        &mut no_answers,
        answers,
        &mut none,
        table,
    )
}
