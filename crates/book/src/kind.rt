// The kinds of lines, as the first byte of a line names them.
ghost use Rattle.std.specs.Prelude.{◌≡◌};
ghost use Rattle.std.specs.Option.{ok_or};
ghost use Rattle.book.specs.Layout.{kind_named};
ghost use Rattle.book.specs.declared.refusal.Refusal.TheVariants as variant;

use crate::refusal::Refusal;

#[derive(Clone, Copy, Debug, PartialEq, Eq)]
pub enum Kind {
    Bill,
    Payment,
    TakeBack,
}

impl TryFrom<u8> for Kind {
    type Error = Refusal;

    ghost try_from_gives = { λ byte r. r ≡ ok_or (kind_named byte) variant.UnknownKind };

    fn try_from(byte: u8) -> Result<Self, Refusal> {
        match byte {
            1 => Ok(Kind::Bill),
            2 => Ok(Kind::Payment),
            3 => Ok(Kind::TakeBack),
            _ => Err(Refusal::UnknownKind),
        }
    }
}
