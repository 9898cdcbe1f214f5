// The cells of a lent table, in which the words of records lie: a word is one cell of a table of words, and four of a table of bytes.
ghost use Rattle.std.specs.Prelude.{ℕ, ◌+◌, ◌*◌, ◌≤◌, List, [], ◌∷◌, ℤ, ◌≡◌, length};
ghost use Rattle.std.proofs.lemmas.List.Edits.{sets};
ghost use Rattle.lent_slots.specs.Bytes.{record_bytes};
ghost use Rattle.lent_slots.specs.SlotCells.{CellLaws, words_laws, bytes_laws, Slot};
ghost use Rattle.lent_slots.specs.Tables.{kept};

use crate::bytes::put_word;

pub trait Cell: Copy {
    // How many cells a word has.
    ghost PER_WORD: { ℕ };

    const PER_WORD: usize;

    // The cells of words, one after another.
    ghost cells: { List ℤ → List Self };

    // A word goes into its cells.
    fn put(table: &mut [Self], at: usize, word: i32)
        requires { at + PER_WORD ≤ length table.old }
        ensures { table.new ≡ sets table.old at (cells (word ∷ [])) };

    // The cells of more words stand after those of a word, and a word has so many.
    ghost laws: { CellLaws PER_WORD cells };
}

impl Cell for i32 {
    ghost PER_WORD = { 1 };

    const PER_WORD: usize = 1;

    ghost cells = { λ words. words };

    ghost laws = { words_laws };

    fn put(table: &mut [i32], at: usize, word: i32) {
        table[at] = word;
    }
}

impl Cell for u8 {
    ghost PER_WORD = { 4 };

    const PER_WORD: usize = 4;

    ghost cells = { record_bytes };

    ghost laws = { bytes_laws };

    #[tactic(auto, unfolding(crate::specs::Bytes::record_bytes))]
    fn put(table: &mut [u8], at: usize, word: i32) {
        put_word(table, at, word.cast_unsigned());
    }
}

// Words are stored in cells that the table has.
fn store<C: Cell, const N: usize>(table: &mut [C], at: usize, words: [i32; N])
    requires { at + N * C.PER_WORD ≤ length table.old }
    ensures { table.new ≡ sets table.old at (C.cells words.entry) }
{
    let mut p = at;
    for word in words {
        C::put(table, p, word);
        p += C::PER_WORD;
    }
}

// Words go into their slot, where the table has that slot.
pub fn keep_in<C: Cell, const N: usize>(table: &mut [C], slot: usize, words: [i32; N])
    requires some { 1 ≤ N }
    requires few { N ≤ 16 }
    ensures { table.new ≡ kept (Slot C.PER_WORD C.cells N) table.old slot words.entry }
{
    let width = N * C::PER_WORD;
    if slot < table.len() / width {
        store(table, slot * width, words);
    }
}
