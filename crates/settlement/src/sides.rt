// Balances as a table without signs: what each person owes, or what each is owed.
ghost use Rattle.std.specs.Prelude.{◌<◌, ℕ};
ghost use Rattle.balances.specs.View.{cents_of};
ghost use Rattle.settlement.specs.Amounts.{amount_at};

use balances::sheet::Balances;
use std::array;

// What `amount` gives of each person's number; somebody who is not there has the number 0.
pub(crate) fn amounts<F: Fn(i64) -> u64>(balances: &Balances, amount: F) -> [u64; 16]
    requires { F.IsAlwaysCallable amount }
    ensures { (i : ℕ) → i < 16 → F.post amount (cents_of balances.now i) (amount_at result i) }
{
    array::from_fn(|person| amount(balances.balance(person as u8)))
}
