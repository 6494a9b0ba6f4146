// What payments come to, with what always holds of it.
ghost use Rattle.std.specs.Prelude.{ℕ, ◌^◌, ◌≤◌, unsigned_abs};
ghost use Rattle.balances.specs.Signed.{at_person};

pub(crate) mod adding;

// For each person what it pays less what it gets, either way no more than all the money that is moved. That is at most
// what 1,024 payments of 2^48 cents move.
#[derive(Clone, Copy)]
pub(crate) struct Tally {
    pub(crate) net: [i64; 16],
    pub(crate) moved: u64,
    ghost few: { moved ≤ 2 ^ 58 },
    ghost near: { (i : ℕ) → unsigned_abs (at_person net i) ≤ moved },
}
