// Digits and numbers (`build_positive_number` of the Rust, with widths; ranges are judged by the items).
ghost use Rattle.std.specs.Prelude.{◌≤◌, ◌-◌, ◌^◌, [], ◌≡◌};
ghost use Rattle.names.specs.Numbers as numbers;
ghost use Rattle.names.specs.Seen.{Reads, seen_num, seen_step};

use crate::Cursor;

// A byte of 0 to 9.
#[tactic(auto, unfolding(crate::specs::Numbers::is_digit, crate::specs::Tests::within))]
fn is_digit(b: u8) -> bool
    ensures { result ≡ numbers.is_digit b }
{
    b.is_ascii_digit()
}

// The number sum of n digits, where that is enough.
fn enough(n: u32, least: u32, sum: u32, c: Cursor) -> Option<(u32, Cursor)>
    ensures { numbers.enough (least - n) sum [] c.at ≡ seen_num result }
{
    if n < least { None } else { Some((sum, c)) }
}

impl Cursor {
    // One digit.
    fn digit(self, s: &[u8]) -> Option<(u32, Cursor)>
        ensures { Reads 9 (numbers.digit s.now self.at) result }
    {
        let at = self.at;
        let b = self.byte(s);
        if is_digit(b) {
            Some(((b - b'0') as u32, Cursor { at: at + 1 }))
        } else {
            None
        }
    }

    // The value of so many digits at least, and at most, as many as there are.
    fn digits(self, s: &[u8], least: u32, most: u32) -> Option<(u32, Cursor)>
        requires { most ≤ 5 }
        ensures { Reads (10 ^ most - 1) (numbers.digits least most s.now self.at) result }
    {
        let mut sum: u32 = 0;
        let mut c = self;
        for n in 0..most {
            let Some((d, next)) = c.digit(s) else {
                return enough(n, least, sum, c);
            };
            sum = sum * 10 + d;
            c = next;
        }
        enough(most, least, sum, c)
    }

    // The rest of a clock time, after some of its hour's digits: the others, `:` and a digit, which stays.
    #[tactic(auto, unfolding(crate::specs::Numbers::clock_after, crate::specs::Numbers::is_digit, crate::specs::Read::ahead))]
    fn clock_after(self, s: &[u8]) -> Option<Cursor>
        ensures { numbers.clock_after s.now self.at ≡ seen_step result }
    {
        let c = self.skip(s, b'0', b'9').sign(s, b':')?;
        if is_digit(c.byte(s)) { Some(c) } else { None }
    }

    // A number that is no clock time's hour.
    #[tactic(auto, unfolding(crate::specs::Numbers::number))]
    pub fn number(self, s: &[u8], least: u32, most: u32) -> Option<(u32, Cursor)>
        requires { most ≤ 5 }
        ensures { Reads (10 ^ most - 1) (numbers.number least most s.now self.at) result }
    {
        let (n, c) = self.digits(s, least, most)?;
        match c.clock_after(s) {
            Some(_) => None,
            None => Some((n, c)),
        }
    }

    // A year: 4 digits.
    pub fn year(self, s: &[u8]) -> Option<(u32, Cursor)>
        ensures { Reads 9999 (numbers.year s.now self.at) result }
    {
        self.number(s, 4, 4)
    }

    // N: 1 to 5 digits.
    pub fn count(self, s: &[u8]) -> Option<(u32, Cursor)>
        ensures { Reads 99999 (numbers.count s.now self.at) result }
    {
        self.number(s, 1, 5)
    }

    // n: 1 digit.
    pub fn ordinal(self, s: &[u8]) -> Option<(u32, Cursor)>
        ensures { Reads 9 (numbers.ordinal s.now self.at) result }
    {
        self.number(s, 1, 1)
    }

    // D and W: 1 or 2 digits.
    pub fn short(self, s: &[u8]) -> Option<(u32, Cursor)>
        ensures { Reads 99 (numbers.short s.now self.at) result }
    {
        self.number(s, 1, 2)
    }

    // MM that stands alone: 2 digits.
    pub fn minutes(self, s: &[u8]) -> Option<(u32, Cursor)>
        ensures { Reads 99 (numbers.minutes s.now self.at) result }
    {
        self.number(s, 2, 2)
    }

    // H of a clock time: 1 or 2 digits.
    pub fn hour(self, s: &[u8]) -> Option<(u32, Cursor)>
        ensures { Reads 99 (numbers.hour s.now self.at) result }
    {
        self.digits(s, 1, 2)
    }

    // MM of a clock time: 2 digits.
    pub fn minute(self, s: &[u8]) -> Option<(u32, Cursor)>
        ensures { Reads 99 (numbers.minute s.now self.at) result }
    {
        self.digits(s, 2, 2)
    }
}
