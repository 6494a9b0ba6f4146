// Crews with their payments, from person 0 on: below 0 owes, above 0 is owed.
ghost use Rattle.std.specs.Prelude.{◌≡◌};
ghost use Rattle.cases.specs.Told.{short_told};

use balances::sheet::Balances;
use book::ledger::Book;
use groups::ungrouped::Ungrouped;
use settlement::payment::Payment;
use settlement::settling::{settle, settle_balances};
use std::test::Fail;

// A payment as from, to and amount.
type Row = (u8, u8, u64);

// The payment of a row.
fn pays(row: Row) -> Payment
    ensures { result ≡ record { from = row.0; to = row.1; amount = row.2 } }
{
    let (from, to, amount) = row;
    Payment { from, to, amount }
}

// The number and place of a table that was too short, if one was.
fn short_of(answer: Result<Vec<Payment>, Ungrouped>) -> Option<(u8, usize)>
    ensures { result ≡ short_told answer }
{
    match answer {
        Err(Ungrouped::Short(short)) => Some((short.number(), short.place())),
        _ => None,
    }
}

#[test]
fn example_crews(rt: HostRuntime) -> Result<(), Fail> {
    let table: [(&[i64], &[Row]); 8] = [
        // 2 and 5 cancel; 0, 1, 3 and 4 are the other group, with 50 owed and 50 owing: the smaller number goes first
        (
            &[-30, -20, -10, 25, 25, 10],
            &[(0, 3, 25), (0, 4, 5), (1, 4, 20), (2, 5, 10)],
        ),
        (
            &[-5, -5, 10, -7, 3, 4],
            &[(0, 2, 5), (1, 2, 5), (3, 4, 3), (3, 5, 4)],
        ),
        (&[-8, 8, -6, 6], &[(0, 1, 8), (2, 3, 6)]),
        (&[-3, -4, -5, 12], &[(0, 3, 3), (1, 3, 4), (2, 3, 5)]),
        (&[0, 0], &[]),
        (&[-1, 1], &[(0, 1, 1)]),
        (&[], &[]),
        // somebody who is even is in no payment
        (&[7, 0, -7], &[(2, 0, 7)]),
    ];
    for (cents, rows) in table {
        let mut sums = [0i64; 64];
        let mut counts = [0u8; 64];
        let balances = Balances::from_cents(cents)?;
        let payments = settle_balances(rt.alloc(), &balances, &mut sums, &mut counts)?;
        let expected: Vec<Payment> = rows.iter().copied().map(pays).collect(rt.alloc())?;
        assert_eq!(rt; payments.as_slice(), expected.as_slice());
    }
    Ok(())
}

#[test]
fn example_book(rt: HostRuntime) -> Result<(), Fail> {
    let mut book = Book::new(rt.alloc(), 3, 8)?;
    book.add(&[1, 0, 100, 0, 0, 0, 1, 0, 1, 0, 1, 0])?;
    book.add(&[2, 1, 0, 10, 0, 0, 0])?;
    let mut sums = [9i64; 9];
    let mut counts = [9u8; 9];
    let payments = settle(rt.alloc(), &book, &mut sums, &mut counts)?;
    let expected = [(1, 0, 23), (2, 0, 34)].map(pays);
    assert_eq!(rt; payments.as_slice(), expected.as_slice());
    // the sums of the sets of 57, -23 and -34, and the entry past them as it was
    assert_eq!(rt; sums, [0, 57, -23, 34, -34, 23, -57, 0, 9]);
    assert_eq!(rt; counts, [0, 0, 0, 0, 0, 0, 0, 1, 9]);
    Ok(())
}

#[test]
fn short_tables(rt: HostRuntime) -> Result<(), Fail> {
    let balances = Balances::from_cents(&[-1, 1, 0])?;
    let mut sums = [5i64; 8];
    let mut short_sums = [5i64; 7];
    let mut counts = [6u8; 8];
    let mut short_counts = [6u8; 7];
    let both = settle_balances(rt.alloc(), &balances, &mut short_sums, &mut short_counts);
    assert_eq!(rt; short_of(both), Some((11, 1)));
    let last = settle_balances(rt.alloc(), &balances, &mut sums, &mut short_counts);
    assert_eq!(rt; short_of(last), Some((11, 2)));
    let first = settle_balances(rt.alloc(), &balances, &mut short_sums, &mut counts);
    assert_eq!(rt; short_of(first), Some((11, 1)));
    assert_eq!(rt; short_sums, [5; 7]);
    assert_eq!(rt; short_counts, [6; 7]);
    assert_eq!(rt; sums, [5; 8]);
    assert_eq!(rt; counts, [6; 8]);
    Ok(())
}
