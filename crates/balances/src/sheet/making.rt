// Balances from numbers that come from elsewhere.
ghost use Rattle.std.specs.Prelude.{◌≡◌, ◌≤◌, true, cond, nat_lt, length, position, Ok, Err};
ghost use Rattle.balances.specs.Faults.{Taken, padded};
ghost use Rattle.balances.specs.Range.{all_near, far};
ghost use Rattle.balances.specs.Signed.{at_person, span_z};
ghost use Rattle.balances.specs.declared.unbalanced.Unbalanced.TheVariants.{TooMany};

use crate::sheet::Balances;
use crate::unbalanced::Unbalanced;
use shares::MAX_PEOPLE;

const MAX_CENTS: u64 = 1 << 48;

impl Balances {
    // The balances of people with these numbers, or the first fault in them. Not `TryFrom`, for which callers would
    // have to write an array as `&[57, -23, -34][..]`.
    #[tactic(auto, using(crate::proofs::Zeros::tested))]
    pub fn from_cents(cents: &[i64]) -> Result<Balances, Unbalanced>
        ensures { Taken cents.now result }
    {
        let all = padded(cents)?;
        if let Some(person) = first_far(cents) {
            return Err(Unbalanced::OutOfRange {
                person: person as u8,
            });
        }
        if sum(cents) != 0 {
            return Err(Unbalanced::NotEven);
        }
        Ok(Balances {
            people: cents.len() as u8,
            cents: all,
        })
    }
}

// Sixteen numbers: these, of which there may not be more, and then 0.
fn padded(cents: &[i64]) -> Result<[i64; 16], Unbalanced>
    ensures { result ≡ cond (nat_lt 16 (length cents.now)) (Err TooMany) (Ok (padded cents.now)) }
{
    if cents.len() > MAX_PEOPLE {
        return Err(Unbalanced::TooMany);
    }
    let mut all = [0; MAX_PEOPLE];
    all[..cents.len()].copy_from_slice(cents);
    Ok(all)
}

// The first person whose number is out of range.
fn first_far(cents: &[i64]) -> Option<usize>
    ensures { result ≡ position far cents.now }
{
    cents
        .iter()
        .position(|number| number.unsigned_abs() > MAX_CENTS)
}

// All numbers together, by a loop: the library's sum of signed numbers has no bound that a proof could use.
fn sum(cents: &[i64]) -> i64
    requires few { length cents.now ≤ 16 }
    requires near { all_near cents.now ≡ true }
    ensures { result ≡ span_z (at_person cents.now) (length cents.now) }
{
    let mut sum = 0;
    for number in cents {
        sum += *number;
    }
    sum
}
