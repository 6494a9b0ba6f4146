// The sums and counts of all sets.
ghost use Rattle.std.specs.Prelude.{◌≡◌, ℕ, ◌^◌, ◌<◌, ◌≤◌, length, slice_index};
ghost use Rattle.groups.specs.Counts.{counted as countedFrom, most};
ghost use Rattle.balances.specs.Signed.{at_person};
ghost use Rattle.groups.specs.Tables.{Written, set_sum};

use crate::crew::Crew;
use crate::sets::{People, lowest, take_out, without_lowest};

// The greatest count of the set with one of its people taken out.
fn most_of(counts: &[u8], set: u32) -> u8
    requires { set ≤ length counts.now }
    ensures { (n : ℕ) → set < 2 ^ n → result ≡ most counts.now set n }
{
    let mut best: u8 = 0;
    for person in People(set) {
        best = best.max(counts[take_out(set, person) as usize]);
    }
    best
}

impl Crew<'_> {
    // The count of the set from its sum and the counts of the sets before it.
    fn count_of(&self, sum: i64, counts: &[u8], set: u32) -> u8
        requires small { set < 2 ^ length self.now.balances.now }
        requires summed { sum ≡ set_sum self.now.balances.now set }
        requires room { set ≤ length counts.now }
        requires low { (k : ℕ) → k < set → slice_index counts.now k ≤ 16 }
        ensures { result ≡ countedFrom (at_person self.now.balances.now) (length self.now.balances.now) counts.now set }
    {
        if set == 0 {
            return 0;
        }
        let rest = without_lowest(set) as usize;
        let even = self.balances[lowest(set) as usize] == 0;
        let closed = sum == 0;
        if even {
            counts[rest]
        } else if closed {
            counts[rest] + 1
        } else {
            most_of(counts, set)
        }
    }

    // Fills both tables with the sum and the count of every set of the people; entries past those stay as they are.
    // The tables are lent: the caller owns the memory.
    pub(crate) fn fill(&self, sums: &mut [i64], counts: &mut [u8])
        requires sums_room { 2 ^ length self.now.balances.now ≤ length sums.old }
        requires counts_room { 2 ^ length self.now.balances.now ≤ length counts.old }
        ensures { Written (at_person self.now.balances.now) (length self.now.balances.now)
            sums.old sums.new counts.old counts.new }
    {
        // by number, since each count is made from those before it
        for set in 0..self.sets() {
            let sum = self.sum_of(set);
            sums[set as usize] = sum;
            counts[set as usize] = self.count_of(sum, counts, set);
        }
    }
}
