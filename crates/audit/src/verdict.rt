// The verdict on a list of payments. Each case has its words, by the definition `verdict_said`.
ghost use Rattle.audit.specs.Words.{verdict_said};
ghost use Rattle.std.specs.Prelude.{Some};

use std::fmt;

#[derive(Clone, Copy, Debug, PartialEq, Eq)]
pub enum Verdict {
    // settles; no list that settles has fewer payments, and none moves less money
    FewestAndLeast,
    // settles with the fewest payments, and another list moves less
    FewestOnly,
    // settles and moves the least money, and another list has fewer payments
    LeastOnly,
    // settles, and other lists have fewer payments and move less
    SettlesOnly,
    // the first person whose balance the payments do not bring to 0
    NotQuit { person: u8 },
}

// In words, as `fewest and least` or `3 is not quit`.
impl fmt::Display for Verdict {
    ghost output = { λ v. Some (verdict_said v) };

    fn fmt<W: fmt::Write>(&self, f: &mut fmt::Formatter<W>) -> fmt::Result {
        match self {
            Verdict::FewestAndLeast => write!(f, "fewest and least"),
            Verdict::FewestOnly => write!(f, "fewest"),
            Verdict::LeastOnly => write!(f, "least"),
            Verdict::SettlesOnly => write!(f, "settles"),
            Verdict::NotQuit { person } => write!(f, "{person} is not quit"),
        }
    }
}
