// Numbers and lines of numbers, written into lent bytes.
ghost use Rattle.std.specs.Prelude.{◌+◌, ◌*◌, ◌≤◌, [], ◌∷◌, ◌≡◌, length};
ghost use Rattle.prints.specs.Decimals.{decimal, signed};
ghost use Rattle.prints.specs.Lines.{line, lines};
ghost use Rattle.prints.specs.Pens.{Writes, wrote};

// Lent bytes, and a writing place: how many bytes the text before it has. A byte that has no room is counted and not written. (No `Vec`: a text is written without a heap.)
#[derive(Drop)]
pub struct LentPen<'a> {
    pub out: &'a mut [u8],
    pub at: usize,
}

impl<'a> LentPen<'a> {
    // A byte. (The count stops at the largest number.)
    pub fn put(&mut self, b: u8)
        ensures { Writes (b ∷ []) self.old self.new }
    {
        if self.at < self.out.len() {
            self.out[self.at] = b;
        }
        self.at = self.at.saturating_add(1);
    }

    // Bytes.
    pub fn put_all(&mut self, text: &[u8])
        ensures { Writes text.now self.old self.new }
    {
        for &b in text {
            self.put(b);
        }
    }

    // A number, of 20 digits at most.
    pub fn put_number(&mut self, n: u64)
        ensures most { self.new.at ≤ self.old.at + 20 }
        ensures whole { Writes (decimal n) self.old self.new }
    {
        let mut digits = [0u8; 20];
        let k = io::decimal(n, &mut digits);
        self.put_all(&digits[..k]);
    }

    // A word, of a sign and ten digits at most.
    pub fn put_word(&mut self, w: i32)
        ensures most { self.new.at ≤ self.old.at + 11 }
        ensures whole { Writes (signed w) self.old self.new }
    {
        if w < 0 {
            self.put(b'-');
        }
        self.put_number(u64::from(w.unsigned_abs()));
    }

    // Words on a line: of a word and the byte after it, 12 bytes at most.
    pub fn put_line(&mut self, words: &[i32])
        ensures most { self.new.at ≤ self.old.at + 12 * length words.now }
        ensures whole { Writes (line words.now) self.old self.new }
    {
        let Some((last, others)) = words.split_last() else {
            return;
        };
        for &w in others {
            self.put_word(w);
            self.put(b' ');
        }
        self.put_word(*last);
        self.put(b'\n');
    }

    // Records, each on a line of 192 bytes at most.
    pub fn put_lines(&mut self, records: &[[i32; 16]])
        ensures most { self.new.at ≤ self.old.at + 192 * length records.now }
        ensures whole { Writes (lines records.now) self.old self.new }
    {
        for words in records {
            self.put_line(words);
        }
    }
}

// A writing place alone, which outlives the lending of the bytes: how many bytes the text before it has. Each step takes it by value and hands it back moved on.
#[derive(Clone, Copy)]
pub struct Pen {
    pub at: usize,
}

impl Pen {
    // A byte.
    pub fn put(self, out: &mut [u8], b: u8) -> Pen
        ensures { (result.at, out.new) ≡ wrote (b ∷ []) self.at out.old }
    {
        let mut pen = LentPen { out, at: self.at };
        pen.put(b);
        Pen { at: pen.at }
    }

    // Bytes.
    pub fn put_all(self, out: &mut [u8], text: &[u8]) -> Pen
        ensures { (result.at, out.new) ≡ wrote text.now self.at out.old }
    {
        let mut pen = LentPen { out, at: self.at };
        pen.put_all(text);
        Pen { at: pen.at }
    }

    // A number, of 20 digits at most.
    pub fn put_number(self, out: &mut [u8], n: u64) -> Pen
        ensures most { result.at ≤ self.at + 20 }
        ensures whole { (result.at, out.new) ≡ wrote (decimal n) self.at out.old }
    {
        let mut pen = LentPen { out, at: self.at };
        pen.put_number(n);
        Pen { at: pen.at }
    }

    // A word, of a sign and ten digits at most.
    pub fn put_word(self, out: &mut [u8], w: i32) -> Pen
        ensures most { result.at ≤ self.at + 11 }
        ensures whole { (result.at, out.new) ≡ wrote (signed w) self.at out.old }
    {
        let mut pen = LentPen { out, at: self.at };
        pen.put_word(w);
        Pen { at: pen.at }
    }

    // Words on a line: of a word and the byte after it, 12 bytes at most.
    pub fn put_line(self, out: &mut [u8], words: &[i32]) -> Pen
        ensures most { result.at ≤ self.at + 12 * length words.now }
        ensures whole { (result.at, out.new) ≡ wrote (line words.now) self.at out.old }
    {
        let mut pen = LentPen { out, at: self.at };
        pen.put_line(words);
        Pen { at: pen.at }
    }
}
