// The balances of a crew, with what always holds of them.
ghost use Rattle.std.specs.Prelude.{◌≡◌, ◌-◌, ◌≤◌, true, drop, replicate, pos};
ghost use Rattle.balances.specs.Range.{all_near};
ghost use Rattle.balances.specs.Signed.{at_person, span_z};

pub mod making;
pub mod reading;
pub mod tally;

// A number of cents for each person, below 0 for who owes and above 0 for who is owed: all in range, 0 for those of
// sixteen who are not there, and 0 all together.
// An array beside a count: a `Vec` needs memory, for want of which neither `of` nor `from_cents` may fail.
#[derive(Clone, Copy)]
pub struct Balances {
    people: u8,
    cents: [i64; 16],
    ghost crew: { people ≤ 16 },
    ghost near: { all_near cents ≡ true },
    ghost absent: { drop people cents ≡ replicate (16 - people) (pos 0) },
    ghost even: { span_z (at_person cents) 16 ≡ pos 0 },
}
