// A line's answer in a table of words and in one of bytes.
ghost use Rattle.std.specs.Prelude.{◌≡◌};
ghost use Rattle.feed.specs.Feeds.{answer_words};
ghost use Rattle.feed.specs.Into.{Small, answer_kept};

use lent_slots::keep_in;
use sheet::Answer;

// An answer's four words.
fn words_of(a: Answer) -> [i32; 4]
    requires { Small a }
    ensures { result ≡ answer_words a }
{
    [
        a.number as i32,
        a.place as i32,
        a.records as i32,
        a.warnings as i32,
    ]
}

// An answer goes into its slot of each table, where that table has the slot.
pub fn keep_answer(words: &mut [i32], bytes: &mut [u8], slot: usize, a: Answer)
    requires { Small a }
    ensures { (words.new, bytes.new) ≡ answer_kept (words.old, bytes.old) slot (answer_words a) }
{
    let answer = words_of(a);
    keep_in(bytes, slot, answer);
    keep_in(words, slot, answer);
}
