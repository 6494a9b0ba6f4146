// Auditing payments from elsewhere: the one verdict that fits them.
ghost use Rattle.std.specs.Prelude.{◌≡◌};
ghost use Rattle.audit.specs.Audited.{Answers};
ghost use Rattle.audit.specs.Bytes.{lent};
ghost use Rattle.audit.specs.Judged.{verdict_of};
ghost use Rattle.balances.specs.Promise.{balances as balancesOf};
ghost use Rattle.balances.specs.Tally.{balance_of};
ghost use Rattle.balances.specs.View.{cents_of, people_of, sides_of};
ghost use Rattle.book.specs.View.{held};
ghost use Rattle.groups.specs.Sets.{everyone as everyoneOf};
ghost use Rattle.settlement.specs.Settled.{book_lines};

use crate::owing::{all_debts, first_left, open_people};
use crate::tally::adding::add_up;
use crate::unaudited::Unaudited;
use crate::verdict::Verdict;
use balances::sheet::Balances;
use book::ledger::Book;
use groups::filling::{fill_tables, room};

// The verdict on payments for a book, each ten bytes: from, to, and eight bytes of amount, low byte first.
// The tables are lent: the caller owns the memory.
pub fn audit(
    book: &Book,
    payments: &[&[u8]],
    sums: &mut [i64],
    counts: &mut [u8],
) -> Result<Verdict, Unaudited>
    ensures { Answers (held book.now).people (balance_of (book_lines (held book.now)))
        (balancesOf (held book.now).people (book_lines (held book.now)))
        sums.old sums.new counts.old counts.new (lent payments.now) result }
{
    let balances = Balances::of(book);
    audit_balances(&balances, payments, sums, counts)
}

// The same for balances that did not come from a book.
// The tables are lent: the caller owns the memory.
pub fn audit_balances(
    balances: &Balances,
    payments: &[&[u8]],
    sums: &mut [i64],
    counts: &mut [u8],
) -> Result<Verdict, Unaudited>
    ensures { Answers (people_of balances.now) (cents_of balances.now) (sides_of balances.now)
        sums.old sums.new counts.old counts.new (lent payments.now) result }
{
    room(balances, sums, counts)?;
    // All payments are read before the first write to a table, so that a refusal leaves both as they were.
    let tally = add_up(balances, payments)?;
    fill_tables(balances, sums, counts)?;
    let most_groups = counts[everyone(balances)] as usize;
    let few = payments.len() + most_groups <= open_people(balances);
    let little = tally.moved <= all_debts(balances);
    Ok(grade(first_left(balances, &tally), few, little))
}

// The set of all people: the last entry that is filled in the tables.
// Worked out here, since `groups` has how many sets there are for itself alone.
fn everyone(balances: &Balances) -> usize
    ensures { result ≡ everyoneOf (people_of balances.now) }
{
    (1 << balances.people()) - 1
}

// The verdict by the first who is not quit, and by whether the payments are few and move little.
fn grade(first: Option<u8>, few: bool, little: bool) -> Verdict
    ensures { result ≡ verdict_of first few little }
{
    match (first, few, little) {
        (Some(person), _, _) => Verdict::NotQuit { person },
        (None, true, true) => Verdict::FewestAndLeast,
        (None, true, false) => Verdict::FewestOnly,
        (None, false, true) => Verdict::LeastOnly,
        (None, false, false) => Verdict::SettlesOnly,
    }
}
