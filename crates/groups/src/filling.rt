// The tables of all sets of a crew, where they have room for them.
ghost use Rattle.std.specs.Prelude.{◌≡◌, Some, None, MatchResult};
ghost use Rattle.balances.specs.View.{cents_of, people_of};
ghost use Rattle.groups.specs.Shorts.{too_short};
ghost use Rattle.groups.specs.Tables.{Kept, Written};

use crate::crew::Crew;
use crate::short::Short;
use balances::sheet::Balances;

// The first table that has fewer entries than there are sets.
// Both are lent, as two slices, here and to all who fill or read them: the caller owns the memory.
pub fn room(balances: &Balances, sums: &[i64], counts: &[u8]) -> Result<(), Short>
    ensures { MatchResult result
        (λ _. too_short (people_of balances.now) sums.now counts.now ≡ None)
        (λ e. too_short (people_of balances.now) sums.now counts.now ≡ Some e) }
{
    let sets = Crew::from(balances).sets() as usize;
    if sums.len() < sets {
        return Err(Short::Sums);
    }
    if counts.len() < sets {
        return Err(Short::Counts);
    }
    Ok(())
}

// Writes the sum and the count of every set into the tables; entries past those stay as they are.
// The tables are lent: the caller owns the memory.
pub fn fill_tables(balances: &Balances, sums: &mut [i64], counts: &mut [u8]) -> Result<(), Short>
    ensures { MatchResult result
        (λ _. (too_short (people_of balances.now) sums.old counts.old ≡ None)
        × Written (cents_of balances.now) (people_of balances.now)
        sums.old sums.new counts.old counts.new)
        (λ e. (too_short (people_of balances.now) sums.old counts.old ≡ Some e)
        × Kept sums.old sums.new counts.old counts.new) }
{
    room(balances, sums, counts)?;
    Crew::from(balances).fill(sums, counts);
    Ok(())
}
