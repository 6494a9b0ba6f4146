// Settling a book: the payments after which nobody owes anything, as few and as little money as can be.
ghost use Rattle.std.specs.Prelude.{◌≡◌, MatchResult};
ghost use Rattle.balances.specs.Promise.{balances as balancesOf};
ghost use Rattle.balances.specs.Tally.{balance_of};
ghost use Rattle.balances.specs.View.{cents_of, people_of, sides_of};
ghost use Rattle.book.specs.Reading.{lines};
ghost use Rattle.book.specs.View.{held};
ghost use Rattle.groups.specs.Made.{Refused};
ghost use Rattle.groups.specs.Shorts.{too_short};
ghost use Rattle.groups.specs.Tables.{Kept};
ghost use Rattle.settlement.specs.Reading.{read_payments};
ghost use Rattle.settlement.specs.Settled.{SettledBy, book_lines};

use crate::paying::pay_all;
use crate::payment::Payment;
use balances::sheet::Balances;
use book::ledger::Book;
use groups::filling::room;
use groups::grouping::group_people;
use groups::ungrouped::Ungrouped;
use shares::MAX_PEOPLE;
use std::alloc::Global;

// Each payment closes somebody, so that there are fewer payments than people.
const MOST_PAYMENTS: usize = MAX_PEOPLE;

// The payments that settle a book. No other list that settles it has fewer payments, and none moves less money.
// The tables are lent: the caller owns the memory.
pub fn settle(
    heap: Global,
    book: &Book,
    sums: &mut [i64],
    counts: &mut [u8],
) -> Result<Vec<Payment>, Ungrouped>
    ensures { MatchResult result
        (λ v. SettledBy (held book.now).people (balance_of (book_lines (held book.now)))
        (balancesOf (held book.now).people (book_lines (held book.now)))
        sums.old sums.new counts.old counts.new (read_payments v.items))
        (λ e. Refused (too_short (held book.now).people sums.old counts.old) e
        × Kept sums.old sums.new counts.old counts.new) }
{
    let balances = Balances::of(book);
    settle_balances(heap, &balances, sums, counts)
}

// The same for balances that did not come from a book.
// The tables are lent: the caller owns the memory.
pub fn settle_balances(
    heap: Global,
    balances: &Balances,
    sums: &mut [i64],
    counts: &mut [u8],
) -> Result<Vec<Payment>, Ungrouped>
    ensures { MatchResult result
        (λ v. SettledBy (people_of balances.now) (cents_of balances.now) (sides_of balances.now)
        sums.old sums.new counts.old counts.new (read_payments v.items))
        (λ e. Refused (too_short (people_of balances.now) sums.old counts.old) e
        × Kept sums.old sums.new counts.old counts.new) }
{
    room(balances, sums, counts)?;
    // Memory is reserved before the first write to a table, so that a refusal leaves both as they were.
    let mut payments = Vec::with_capacity(heap, MOST_PAYMENTS)?;
    let groups = group_people(heap, balances, sums, counts)?;
    pay_all(balances, &groups, &mut payments);
    Ok(payments)
}
