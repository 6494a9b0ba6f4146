// A line of the book, and the line with the weights of its bill.

// What a line says. People are numbered from 0, amounts are cents, a line is taken back by its number.
#[derive(Clone, Copy, Debug, PartialEq, Eq)]
pub enum Line {
    Bill { payer: u8, amount: u32 },
    Payment { from: u8, to: u8, amount: u32 },
    TakeBack { number: u16 },
}

// A line and, beside it, a weight for each of sixteen people: all 0 where the line is no bill, and from the last person on.
// By value and of one size, by a rule of the project: a line that is taken wants no memory of its own.
#[derive(Clone, Copy, Debug, PartialEq, Eq)]
pub struct Entry {
    pub line: Line,
    pub weights: [u16; 16],
}

// A line that was taken, and whether it stands: no later line took it back.
// No `Option`, since a line that was taken back is still answered by its number.
#[derive(Clone, Copy, Debug, PartialEq, Eq)]
pub struct Kept {
    pub entry: Entry,
    pub stands: bool,
}
