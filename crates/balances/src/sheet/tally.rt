// Balances of a book: one pass over its lines.
ghost use Rattle.std.specs.Prelude.{◌≡◌, ◌*◌};
ghost use Rattle.balances.specs.Range.{most};
ghost use Rattle.balances.specs.Tally.{Bounded, Counted, Named, after_line, less_shares, whole_line};
ghost use Rattle.book.specs.View.{held};

use crate::sheet::Balances;
use book::ledger::Book;
use book::line::{Entry, Line};
use shares::{MAX_PEOPLE, shares_of};
use std::array;

impl Balances {
    // The balances of a book's people, by the lines that stand. Not `From`: the balances are worked out.
    pub fn of(book: &Book) -> Balances
        ensures { Counted (held book.now) result }
    {
        let mut cents = [0; MAX_PEOPLE];
        for kept in book.lines() {
            if kept.stands {
                count_line(&mut cents, kept.entry);
            }
        }
        Balances {
            people: book.people(),
            cents,
        }
    }
}

// Counts a line: who gave has more, who had has less.
fn count_line(cents: &mut [i64; 16], entry: Entry)
    requires named { Named entry.line }
    requires bounded { Bounded most cents.old }
    ensures { cents.new ≡ after_line (whole_line entry) cents.old }
{
    match entry.line {
        Line::Bill { payer, amount } => {
            cents[payer as usize] += i64::from(amount);
            take_shares(cents, &shares_of(amount, &entry.weights));
        }
        Line::Payment { from, to, amount } => {
            cents[from as usize] += i64::from(amount);
            cents[to as usize] -= i64::from(amount);
        }
        Line::TakeBack { .. } => {}
    }
}

// Takes each person's share of a bill off its number.
fn take_shares(cents: &mut [i64; 16], shares: &[u32; 16])
    requires { Bounded (2 * most) cents.old }
    ensures { cents.new ≡ less_shares shares.now cents.old }
{
    // a closure of `from_fn` knows that its index is below 16
    *cents = array::from_fn(|person| cents[person] - i64::from(shares[person]));
}
