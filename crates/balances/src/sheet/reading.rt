// Reading balances: what the crates above may see of them.
ghost use Rattle.std.specs.Prelude.{◌≡◌, length};
ghost use Rattle.balances.specs.View.{people_of, cents_of, numbers_of};

use crate::sheet::Balances;

impl Balances {
    // How many people there are.
    pub fn people(&self) -> u8
        ensures { result ≡ people_of self.now }
    {
        self.people
    }

    // The person's number of cents; somebody who is not there has 0.
    pub fn balance(&self, person: u8) -> i64
        ensures { result ≡ cents_of self.now person }
    {
        self.numbers().get(person as usize).copied().unwrap_or(0)
    }

    // The numbers of the people who are there, person 0 first.
    pub fn numbers(&self) -> &[i64]
        ensures all { result.now ≡ numbers_of self.now }
        ensures each { length result.now ≡ people_of self.now }
    {
        &self.cents[..self.people as usize]
    }
}
