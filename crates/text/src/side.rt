// A person's side of the balances: who is even has none.
ghost use Rattle.std.specs.Prelude.{◌≡◌, Some};
ghost use Rattle.balances.specs.Signed.{credit, debt};
ghost use Rattle.text.specs.Sides.{side, side_said};

use std::fmt;

// So many cents, above 0.
#[derive(Clone, Copy)]
pub enum Side {
    Owes { person: u8, cents: u64 },
    IsOwed { person: u8, cents: u64 },
}

impl Side {
    // The side of a person with this balance: below 0 it owes, above 0 it is owed.
    pub fn of(person: u8, balance: i64) -> Option<Side>
        ensures { result ≡ side person (debt balance) (credit balance) }
    {
        let cents = balance.unsigned_abs();
        match balance {
            ..0 => Some(Side::Owes { person, cents }),
            0 => None,
            1.. => Some(Side::IsOwed { person, cents }),
        }
    }
}

// In words, as `0 is owed 57` or `1 owes 23`.
impl fmt::Display for Side {
    ghost output = { λ s. Some (side_said s) };

    fn fmt<W: fmt::Write>(&self, f: &mut fmt::Formatter<W>) -> fmt::Result {
        match self {
            Side::Owes { person, cents } => write!(f, "{person} owes {cents}"),
            Side::IsOwed { person, cents } => write!(f, "{person} is owed {cents}"),
        }
    }
}
