// Why a text is refused, as what hands refusals on takes it: a reason of the table, or any number.
ghost use Rattle.std.specs.Prelude.{ℕ, ◌≡◌, refl};
ghost use Rattle.names.specs.Refusals as refusals;

use crate::Reason;

pub trait Why: Copy {
    ghost use Rattle.names.specs.declared.refusals.Reason.{Reason};

    // Its number.
    ghost number: { Self → ℕ };

    // What a reason is here.
    ghost of_reason: { Reason → Self };

    // A reason of the table, as it is here.
    fn of_reason(reason: Reason) -> Self
        ensures { result ≡ of_reason reason };

    // It has the reason's number.
    ghost laws: { (r : Reason) → number (of_reason r) ≡ refusals.number r };
}

impl Why for Reason {
    ghost number = { refusals.number };

    ghost of_reason = { λ r. r };

    ghost laws = { λ r. refl };

    fn of_reason(reason: Reason) -> Reason {
        reason
    }
}

impl Why for u8 {
    ghost number = { λ n. n };

    ghost of_reason = { refusals.number };

    ghost laws = { λ r. refl };

    fn of_reason(reason: Reason) -> u8 {
        reason.number()
    }
}
