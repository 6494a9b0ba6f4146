// What comes of auditing payments for an input.
ghost use Rattle.std.specs.Prelude.{Some};
ghost use Rattle.text.specs.Auditing.{outcome_said};

use audit::unaudited::Unaudited;
use audit::verdict::Verdict;
use book::refusal::Refusal;
use std::fmt;

#[derive(Clone, Copy)]
pub enum Outcome {
    // so many people have no book
    NoCrew,
    // the first payment that is not in order
    Unsound { at: usize },
    Judged(Verdict),
}

// In words, as `refused 1 at 0`, `payment refused 12 at 5` or `fewest and least`.
impl fmt::Display for Outcome {
    ghost output = { λ o. Some (outcome_said o) };

    fn fmt<W: fmt::Write>(&self, f: &mut fmt::Formatter<W>) -> fmt::Result {
        match self {
            Outcome::NoCrew => write!(f, "{}", Refusal::CrewSize),
            Outcome::Unsound { at } => {
                // one is printed only here, so `Unaudited` has no words of its own
                let number = Unaudited::Payment { at: *at }.number();
                write!(f, "payment refused {number} at {at}")
            }
            Outcome::Judged(verdict) => write!(f, "{verdict}"),
        }
    }
}
