// Why tables cannot take the sums and counts of all sets. Each case has a number and a place, by the definition `short_code`.
ghost use Rattle.std.specs.Prelude.{◌≡◌};
ghost use Rattle.groups.specs.Shorts.{short_code};

// The table that has too few entries.
#[derive(Clone, Copy, Debug, PartialEq, Eq)]
pub enum Short {
    Sums,
    Counts,
}

// By two methods of its own: no code is generic over `Short`, `Refusal` and `Unaudited`, so that a trait would add but a name.
impl Short {
    // Its number in the list of refusals.
    pub fn number(self) -> u8
        ensures { result ≡ (short_code self).0 }
    {
        match self {
            Short::Sums | Short::Counts => 11,
        }
    }

    // The place that it names.
    pub fn place(self) -> usize
        ensures { result ≡ (short_code self).1 }
    {
        match self {
            Short::Sums => 1,
            Short::Counts => 2,
        }
    }
}
