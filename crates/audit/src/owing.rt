// What is measured of balances, and of what payments leave of them.
ghost use Rattle.std.specs.Prelude.{◌≡◌, ◌<◌};
ghost use Rattle.audit.specs.Running.{is_left};
ghost use Rattle.balances.specs.View.{cents_of, people_of, sides_of};
ghost use Rattle.groups.specs.Groups.{still_open};
ghost use Rattle.settlement.specs.Amounts.{first_of};
ghost use Rattle.shares.specs.Span.{span};

use crate::tally::Tally;
use balances::amounts::debt;
use balances::sheet::Balances;

// The smallest person who is left with something after the payments.
pub(crate) fn first_left(balances: &Balances, tally: &Tally) -> Option<u8>
    ensures { result ≡ first_of (people_of balances.now) (is_left (cents_of balances.now) tally.now.net) }
{
    (0..balances.people()).find(|person| is_left(balances, tally, *person))
}

// Is a person of sixteen left with something?
fn is_left(balances: &Balances, tally: &Tally, person: u8) -> bool
    requires { person < 16 }
    ensures { result ≡ is_left (cents_of balances.now) tally.now.net person }
{
    balances.balance(person) + tally.net[person as usize] != 0
}

// How many people owe or are owed anything.
pub(crate) fn open_people(balances: &Balances) -> usize
    ensures { result ≡ still_open (sides_of balances.now) }
{
    balances
        .numbers()
        .iter()
        .filter(|cents| **cents != 0)
        .count()
}

// What all together owe.
pub(crate) fn all_debts(balances: &Balances) -> u64
    ensures { result ≡ span (sides_of balances.now).owes (people_of balances.now) }
{
    balances.numbers().iter().map(|cents| debt(*cents)).sum()
}
