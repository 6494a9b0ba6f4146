// What can go wrong in the program.
ghost use Rattle.std.specs.Prelude.{◌≡◌};
ghost use Rattle.purser.specs.Faults.{fault_said};
ghost use Rattle.purser.specs.declared.fault.Fault.TheVariants as variant;

use std::alloc::AllocError;
use std::error::Error;
use std::{fmt, io};

#[derive(Debug, Drop)]
pub enum Fault {
    Arguments(io::Error),
    UnknownArgument(String),
    NoPayments,
    File(String, io::Error),
    Input(io::Error),
    Output(io::Error),
    Memory,
}

// In words for a person.
impl fmt::Display for Fault {
    ghost output = { fault_said };

    fn fmt<W: fmt::Write>(&self, f: &mut fmt::Formatter<W>) -> fmt::Result {
        match self {
            Fault::Arguments(why) => write!(f, "cannot read the arguments: {why}"),
            Fault::UnknownArgument(word) => {
                write!(f, "unknown argument: {word} (--help says which there are)")
            }
            Fault::NoPayments => {
                write!(
                    f,
                    "--audit wants the name of a file of payments (--help says how)"
                )
            }
            Fault::File(name, why) => write!(f, "cannot read {name}: {why}"),
            Fault::Input(why) => write!(f, "cannot read standard input: {why}"),
            Fault::Output(why) => write!(f, "cannot write to standard output: {why}"),
            Fault::Memory => write!(f, "too little memory"),
        }
    }
}

impl Error for Fault {}

// Want of memory for a text is a fault of memory.
impl From<AllocError> for Fault {
    ghost from_gives = { λ _ e. e ≡ variant.Memory };

    fn from(_: AllocError) -> Fault {
        Self::Memory
    }
}
