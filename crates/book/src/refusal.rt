// Why a book or a line is turned away. Each case has a number and a place, by the definition `code`.
ghost use Rattle.std.specs.Prelude.{◌≡◌, Some};
ghost use Rattle.book.specs.Codes.{code};
ghost use Rattle.book.specs.Words.{refused_at};
ghost use Rattle.book.specs.declared.refusal.Refusal.TheVariants as variant;

use std::alloc::AllocError;
use std::error::Error;
use std::fmt;

#[derive(Clone, Copy, Debug, PartialEq, Eq)]
pub enum Refusal {
    // not 1 to 16 people
    CrewSize,
    // no memory for the lines, or the room for them is used up
    NoRoom,
    UnknownKind,
    WrongLength { found: usize },
    UnknownPerson { at: usize },
    AmountOutOfRange { at: usize },
    WeightTooLarge { at: usize },
    NoWeight,
    PaidToSelf,
    CannotTakeBack,
    TooManyLines,
}

// By two methods of its own, as `Short` and `Unaudited` have: no code is generic over what is refused.
impl Refusal {
    // The refusal's number in the list of refusals.
    pub fn number(self) -> u8
        ensures { result ≡ (code self).0 }
    {
        match self {
            Refusal::CrewSize => 1,
            Refusal::UnknownKind => 2,
            Refusal::WrongLength { .. } => 3,
            Refusal::UnknownPerson { .. } => 4,
            Refusal::AmountOutOfRange { .. } => 5,
            Refusal::WeightTooLarge { .. } => 6,
            Refusal::NoWeight => 7,
            Refusal::PaidToSelf => 8,
            Refusal::CannotTakeBack => 9,
            Refusal::TooManyLines => 10,
            Refusal::NoRoom => 11,
        }
    }

    // The place that it names: a byte of the line, or the line's length.
    pub fn place(self) -> usize
        ensures { result ≡ (code self).1 }
    {
        match self {
            Refusal::WrongLength { found: at }
            | Refusal::UnknownPerson { at }
            | Refusal::AmountOutOfRange { at }
            | Refusal::WeightTooLarge { at } => at,
            Refusal::NoWeight => 6,
            Refusal::PaidToSelf => 2,
            Refusal::CannotTakeBack => 1,
            Refusal::CrewSize | Refusal::NoRoom | Refusal::UnknownKind | Refusal::TooManyLines => 0,
        }
    }
}

// Memory that is wanting is room that is not there.
impl From<AllocError> for Refusal {
    ghost from_gives = { λ _ e. e ≡ variant.NoRoom };

    fn from(_: AllocError) -> Self {
        Self::NoRoom
    }
}

// Its number and place in words, as `refused 7 at 6`.
impl fmt::Display for Refusal {
    ghost output = { λ r. Some (refused_at (code r)) };

    fn fmt<W: fmt::Write>(&self, f: &mut fmt::Formatter<W>) -> fmt::Result {
        let number = self.number();
        let place = self.place();
        write!(f, "refused {number} at {place}")
    }
}

impl Error for Refusal {}
