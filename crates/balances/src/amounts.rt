// A signed number of cents as an amount: what a person owes, or is owed.
ghost use Rattle.std.specs.Prelude.{◌≡◌};
ghost use Rattle.balances.specs.Signed.{credit, debt};

// What a person with this number of cents owes.
pub fn debt(cents: i64) -> u64
    ensures { result ≡ debt cents }
{
    cents.min(0).unsigned_abs()
}

// What a person with this number of cents is owed.
// `debt` and `credit` are two functions, since both are handed on as functions (settlement's tables of amounts).
pub fn credit(cents: i64) -> u64
    ensures { result ≡ credit cents }
{
    cents.max(0).unsigned_abs()
}
