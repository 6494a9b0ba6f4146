// The payments that sets of people make among themselves.
ghost use Rattle.std.specs.Prelude.{◌≡◌, ◌+◌, ◌≤◌, [], ◌++◌, length, vec_len, vec_capacity};
ghost use Rattle.groups.specs.Sets.{is_in};
ghost use Rattle.settlement.specs.Amounts.{amount_at, first_of, paid_in, settled_by};
ghost use Rattle.settlement.specs.Paying.{has};
ghost use Rattle.settlement.specs.Reading.{read_payments};

use crate::payment::Payment;
use crate::sides::amounts;
use balances::amounts::{credit, debt};
use balances::sheet::Balances;
use groups::sets::has_person;

// The payments of all sets, in their order, into an empty list with room for them.
pub(crate) fn pay_all(balances: &Balances, sets: &[u32], payments: &mut Vec<Payment>)
    requires none { payments.old.items ≡ [] }
    requires room { length (settled_by balances.now sets.now) ≤ vec_capacity payments.old }
    ensures { read_payments payments.new.items ≡ settled_by balances.now sets.now }
{
    for set in sets {
        pay_set(balances, *set, payments);
    }
}

// The payments of one set, which starts from the balances as they are, since nobody is in two sets: the smallest who still
// owes pays the smallest who is still owed the lesser amount. That closes somebody, so that as many turns as people are
// enough.
fn pay_set(balances: &Balances, set: u32, payments: &mut Vec<Payment>)
    requires { vec_len payments.old + length (paid_in balances.now set) ≤ vec_capacity payments.old }
    ensures paid { read_payments payments.new.items ≡ read_payments payments.old.items ++ paid_in balances.now set }
    ensures room { vec_capacity payments.new ≡ vec_capacity payments.old }
{
    let people = balances.people();
    let mut owes = amounts(balances, debt);
    let mut owed = amounts(balances, credit);
    // a `for`, since it ends of itself, where a `while let` would want a measure
    for _turn in 0..people {
        let (Some(from), Some(to)) = (
            first_with(people, set, &owes),
            first_with(people, set, &owed),
        ) else {
            return;
        };
        let amount = owes[from as usize].min(owed[to as usize]);
        owes[from as usize] -= amount;
        owed[to as usize] -= amount;
        payments.push_reserved(Payment { from, to, amount });
    }
}

// The smallest person of the set whose amount is above 0; by `.get(..)`, since nothing here says that people are at most 16.
fn first_with(people: u8, set: u32, amounts: &[u64; 16]) -> Option<u8>
    ensures { result ≡ first_of people (has (is_in set) (amount_at amounts.now)) }
{
    (0..people).find(|person| {
        has_person(set, *person)
            && amounts
                .get(*person as usize)
                .is_some_and(|amount| *amount > 0)
    })
}
