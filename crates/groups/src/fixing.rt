// The groups by rule: the smallest person left goes with the least set that still reaches the greatest number.
ghost use Rattle.std.specs.Prelude.{◌≡◌, ◌+◌, ◌^◌, ◌<◌, ◌≤◌, true, ◌++◌, length, pos, vec_len, vec_capacity};
ghost use Rattle.groups.specs.Fixed.{chosen, fixed_by, reaches as reachesOf};
ghost use Rattle.groups.specs.Sets.{is_in, is_part, size, smallest};
ghost use Rattle.balances.specs.Signed.{at_person};
ghost use Rattle.groups.specs.Signs.{AllOpen};
ghost use Rattle.groups.specs.Tables.{HasCounts, HasSums, set_sum};

use crate::crew::Crew;
use crate::sets::{Subsets, without_lowest};

// The people of a crew whose groups are still to be fixed, who all are open and come out even, with the crew's filled tables.
// Two lists, since the tables are lent so: the caller owns the memory.
#[derive(Drop)]
pub(crate) struct Left<'a> {
    pub(crate) crew: Crew<'a>,
    pub(crate) sums: &'a [i64],
    pub(crate) counts: &'a [u8],
    pub(crate) people: u32,
    ghost summed: { HasSums crew.balances.now sums.now },
    ghost counted: { HasCounts crew.balances.now counts.now },
    ghost small: { people < 2 ^ length crew.balances.now },
    ghost even: { set_sum crew.balances.now people ≡ pos 0 },
    ghost unsettled: { AllOpen (at_person crew.balances.now) people },
}

impl Left<'_> {
    // Does `part`, which has the smallest person left, sum to 0 and leave a count that is one less?
    fn reaches(&self, part: u32) -> bool
        requires within { is_part part self.now.people ≡ true }
        requires low { is_in part (smallest (length self.now.crew.balances.now) self.now.people) ≡ true }
        ensures { result ≡ reachesOf (at_person self.now.crew.balances.now) (length self.now.crew.balances.now)
            self.now.counts.now self.now.people part }
    {
        self.sums[part as usize] == 0
            && self.counts[(self.people - part) as usize] + 1 == self.counts[self.people as usize]
    }

    // The least group of the smallest person left with which the greatest number is reached.
    // What it leaves runs through the subsets of the others, the largest first, so that the group grows as a number.
    fn choose(&self) -> u32
        requires { 0 < self.now.people }
        ensures { result ≡ chosen (at_person self.now.crew.balances.now) (length self.now.crew.balances.now)
            self.now.counts.now self.now.people }
    {
        for rest in Subsets::of(without_lowest(self.people)) {
            let part = self.people - rest;
            if self.reaches(part) {
                return part;
            }
        }
        // people who come out even have a group
        unreachable!()
    }

    // Adds the groups of the people left, the group of the smallest person first, then those of the people whom it leaves.
    pub(crate) fn fix(&self, groups: &mut Vec<u32>)
        requires { vec_len groups.old + size (length self.now.crew.balances.now) self.now.people ≤ vec_capacity groups.old }
        ensures { groups.new.items ≡ groups.old.items ++ fixed_by (at_person self.now.crew.balances.now)
            (length self.now.crew.balances.now) self.now.counts.now self.now.people }
    {
        if self.people == 0 {
            return;
        }
        let group = self.choose();
        groups.push_reserved(group);
        let left = Left {
            crew: self.crew,
            sums: self.sums,
            counts: self.counts,
            people: self.people - group,
        };
        left.fix(groups);
    }
}
