// Why a tally is left as it was.
ghost use Rattle.std.specs.Prelude.{◌≡◌};
ghost use Rattle.tallies.specs.Refusals as refusals;

// Why a tally is left as it was, by the numbers that are answered.
#[derive(Clone, Copy, PartialEq, Eq)]
pub enum TallyRefusal {
    // a count would pass the limit
    OverTheLimit = 15,
    // the answer or its records do not fit, or the bytes are no tally
    NoFit = 16,
}

impl TallyRefusal {
    // Its number.
    pub fn number(self) -> u32
        ensures { result ≡ refusals.number self }
    {
        self as u32
    }
}
