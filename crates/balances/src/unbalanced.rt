// Why numbers from elsewhere are no balances.
#[derive(Clone, Copy, Debug, PartialEq, Eq)]
pub enum Unbalanced {
    // more than sixteen people
    TooMany,
    // the first person who owes or is owed more than 2^48 cents
    OutOfRange { person: u8 },
    // not 0 all together
    NotEven,
}
