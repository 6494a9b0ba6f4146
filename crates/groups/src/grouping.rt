// The groups of a crew.
ghost use Rattle.std.specs.Prelude.{◌≡◌, None, MatchResult};
ghost use Rattle.balances.specs.View.{cents_of, people_of};
ghost use Rattle.groups.specs.Made.{Made, Refused};
ghost use Rattle.groups.specs.Shorts.{too_short};
ghost use Rattle.groups.specs.Tables.{Kept};

use crate::crew::Crew;
use crate::filling::room;
use crate::fixing::Left;
use crate::ungrouped::Ungrouped;
use balances::sheet::Balances;
use std::alloc::Global;

// The groups of people who come out even together, as many as can be and fixed by rule, and both tables written.
// The tables are lent: the caller owns the memory.
pub fn group_people(
    heap: Global,
    balances: &Balances,
    sums: &mut [i64],
    counts: &mut [u8],
) -> Result<Vec<u32>, Ungrouped>
    ensures { MatchResult result
        (λ v. (too_short (people_of balances.now) sums.old counts.old ≡ None)
        × Made (cents_of balances.now) (people_of balances.now)
        sums.old sums.new counts.old counts.new v.items)
        (λ e. Refused (too_short (people_of balances.now) sums.old counts.old) e
        × Kept sums.old sums.new counts.old counts.new) }
{
    room(balances, sums, counts)?;
    let crew = Crew::from(balances);
    // memory for the groups is reserved before the first write
    let mut groups = Vec::with_capacity(heap, crew.people() as usize)?;
    crew.fill(sums, counts);
    let left = Left {
        crew,
        sums,
        counts,
        people: crew.open_people(),
    };
    left.fix(&mut groups);
    Ok(groups)
}
