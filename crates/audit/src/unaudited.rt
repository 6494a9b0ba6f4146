// Why payments were not audited. Each case has a number and a place, by the definition `unaudited_code`.
ghost use Rattle.std.specs.Prelude.{◌≡◌};
ghost use Rattle.audit.specs.Refused.{unaudited_code};
ghost use Rattle.audit.specs.declared.unaudited.Unaudited.TheVariants as variant;

use groups::short::Short;

#[derive(Clone, Copy, Debug, PartialEq, Eq)]
pub enum Unaudited {
    // a table has too few entries
    Short(Short),
    // the first payment that is not in order
    Payment { at: usize },
}

// By two methods of its own, as `Short` has: no code is generic over what is refused.
impl Unaudited {
    // Its number in the list of refusals.
    pub fn number(self) -> u8
        ensures { result ≡ (unaudited_code self).0 }
    {
        match self {
            Unaudited::Short(short) => short.number(),
            Unaudited::Payment { .. } => 12,
        }
    }

    // The place that it names: a table, or a payment.
    pub fn place(self) -> usize
        ensures { result ≡ (unaudited_code self).1 }
    {
        match self {
            Unaudited::Short(short) => short.place(),
            Unaudited::Payment { at } => at,
        }
    }
}

// A table that is too short is told as that table.
impl From<Short> for Unaudited {
    ghost from_gives = { λ table e. e ≡ variant.Short table };

    fn from(table: Short) -> Unaudited {
        Unaudited::Short(table)
    }
}
