// The balances of a crew, lent, with what always holds of them.
ghost use Rattle.std.specs.Prelude.{◌≡◌, ◌^◌, ◌<◌, ◌≤◌, length, pos};
ghost use Rattle.balances.specs.Signed.{at_person};
ghost use Rattle.balances.specs.View.{numbers_of, people_of};
ghost use Rattle.groups.specs.Sets.{everyone};
ghost use Rattle.groups.specs.Signs.{Moderate, open_of};
ghost use Rattle.groups.specs.Tables.{set_sum};

use crate::sets::People;
use balances::sheet::Balances;

mod tables;

// The balances of at most sixteen people, any of which add up in 64 bits and all of which come out even.
#[derive(Clone, Copy)]
pub(crate) struct Crew<'a> {
    balances: &'a [i64],
    ghost few: { length balances.now ≤ 16 },
    ghost moderate: { Moderate balances.now },
    ghost even: { set_sum balances.now (everyone (length balances.now)) ≡ pos 0 },
}

// Lends the numbers of the people who are there.
impl<'a> From<&'a Balances> for Crew<'a> {
    ghost from_gives = { λ lent crew. (crew.balances.now ≡ numbers_of lent.now)
        × (length crew.balances.now ≡ people_of lent.now) };

    fn from(balances: &'a Balances) -> Crew<'a> {
        Crew {
            balances: balances.numbers(),
        }
    }
}

impl<'a> Crew<'a> {
    // How many they are.
    pub(crate) fn people(&self) -> u32
        ensures { result ≡ length self.now.balances.now }
    {
        self.balances.len() as u32
    }

    // How many sets of them there are.
    pub(crate) fn sets(&self) -> u32
        ensures { result ≡ 2 ^ length self.now.balances.now }
    {
        1 << self.people()
    }

    // The people who owe or are owed something.
    pub(crate) fn open_people(&self) -> u32
        ensures { result ≡ open_of (at_person self.now.balances.now) (length self.now.balances.now) }
    {
        let mut set: u32 = 0;
        // by a `for`, since a closure would not know that `person` is below 16
        for (person, balance) in self.balances.iter().enumerate() {
            if *balance != 0 {
                set += 1 << person;
            }
        }
        set
    }

    // The balances of the people of a set together, worked out from nothing.
    fn sum_of(&self, set: u32) -> i64
        requires { set < 2 ^ length self.now.balances.now }
        ensures { result ≡ set_sum self.now.balances.now set }
    {
        let mut sum: i64 = 0;
        for person in People(set) {
            sum += self.balances[person as usize];
        }
        sum
    }
}
