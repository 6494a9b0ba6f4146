// Adding payments up, read from their bytes in one pass.
ghost use Rattle.std.specs.Prelude.{◌≡◌, ℕ, ◌+◌, ◌^◌, ◌<◌, ◌≤◌, []};
ghost use Rattle.audit.specs.Bytes.{lent};
ghost use Rattle.audit.specs.Running.{Tallied, paid_in};
ghost use Rattle.audit.specs.Told.{Told};
ghost use Rattle.balances.specs.View.{people_of};
ghost use Rattle.settlement.specs.Reading.{read_payment};

use crate::decode::decode;
use crate::tally::Tally;
use crate::unaudited::Unaudited;
use balances::sheet::Balances;
use settlement::payment::Payment;
use shares::MAX_PEOPLE;

// The tally of all payments among the people, or the first payment that is not in order.
pub(crate) fn add_up(balances: &Balances, payments: &[&[u8]]) -> Result<Tally, Unaudited>
    ensures { Told (people_of balances.now) (lent payments.now) result }
{
    let mut tally = Tally::new();
    for (at, bytes) in payments.iter().enumerate() {
        let payment = decode(balances.people(), at, bytes).ok_or(Unaudited::Payment { at })?;
        tally.add(payment);
    }
    Ok(tally)
}

impl Tally {
    // The tally of no payments.
    fn new() -> Tally
        ensures { (n : ℕ) → Tallied n [] result }
    {
        Tally {
            net: [0; MAX_PEOPLE],
            moved: 0,
        }
    }

    // One payment more: its amount is added for who pays and taken off for who gets it.
    fn add(&mut self, payment: Payment)
        requires there { (payment.from < 16) × (payment.to < 16) }
        requires few { self.old.moved + payment.amount ≤ 2 ^ 58 }
        ensures paid { self.new.net ≡ paid_in self.old.net (read_payment payment) }
        ensures summed { self.new.moved ≡ self.old.moved + payment.amount }
    {
        self.net[payment.from as usize] += payment.amount as i64;
        self.net[payment.to as usize] -= payment.amount as i64;
        self.moved += payment.amount;
    }
}
