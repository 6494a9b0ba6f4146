// Balances of small books and of the largest, worked out by hand, and numbers from elsewhere.
use crate::sheet::Balances;
use crate::unbalanced::Unbalanced::{self, NotEven, OutOfRange, TooMany};
use book::ledger::Book;
use std::process::Abort;
use std::test::Fail;

// A book for three has these balances after each line.
fn balances_after(
    rt: &(impl Abort + AllocGlobal),
    table: &[(&[u8], [i64; 3])],
) -> Result<(), Fail> {
    let mut book = Book::new(rt.alloc(), 3, 8)?;
    for (line, cents) in table {
        book.add(line)?;
        let balances = Balances::of(&book);
        assert_eq!(rt; [0, 1, 2].map(|person| balances.balance(person)), *cents);
    }
    Ok(())
}

#[test]
fn lines_taken_back(rt: HostRuntime) -> Result<(), Fail> {
    balances_after(
        &rt,
        &[
            // 100 paid by 0 for three: shares 33, 33, 34
            (&[1, 0, 100, 0, 0, 0, 1, 0, 1, 0, 1, 0], [67, -33, -34]),
            // 10 from 1 to 0
            (&[2, 1, 0, 10, 0, 0, 0], [57, -23, -34]),
            // the bill is taken back, and then the payment
            (&[3, 0, 0], [-10, 10, 0]),
            (&[3, 1, 0], [0, 0, 0]),
        ],
    )
}

// Payments made already; then 90 paid by 0 for three, 1 pays its 30, and 60 for itself alone: it stays as it was.
#[test]
fn payments_and_somebody_even(rt: HostRuntime) -> Result<(), Fail> {
    balances_after(
        &rt,
        &[
            (&[2, 1, 0, 10, 0, 0, 0], [-10, 10, 0]),
            (&[2, 0, 1, 10, 0, 0, 0], [0, 0, 0]),
            (&[1, 0, 90, 0, 0, 0, 1, 0, 1, 0, 1, 0], [60, -30, -30]),
            (&[2, 1, 0, 30, 0, 0, 0], [30, 0, -30]),
            (&[1, 1, 60, 0, 0, 0, 0, 0, 7, 0, 0, 0], [30, 0, -30]),
        ],
    )
}

#[test]
fn largest_book(rt: HostRuntime) -> Result<(), Fail> {
    let mut book = Book::new(rt.alloc(), 2, 4096)?;
    for _ in 0..4096 {
        // 1,000,000,000 = 0x3b9aca00, paid by 0, weights 0 and 1
        book.add(&[1, 0, 0x00, 0xca, 0x9a, 0x3b, 0, 0, 1, 0])?;
    }
    let balances = Balances::of(&book);
    assert_eq!(rt; balances.people(), 2);
    assert_eq!(rt; balances.balance(0), 4_096_000_000_000);
    assert_eq!(rt; balances.balance(1), -4_096_000_000_000);
    assert_eq!(rt; balances.balance(2), 0);
    assert_eq!(rt; balances.balance(255), 0);
    Ok(())
}

const MOST: i64 = 1 << 48;

// Numbers, and the fault in them; none where they are balances.
#[test]
fn faults(rt: HostRuntime) {
    let table: [(&[i64], Option<Unbalanced>); 8] = [
        (&[], None),
        (&[MOST, -MOST], None),
        (&[0; 16], None),
        (&[0; 17], Some(TooMany)),
        // the first fault counts
        (&[i64::MIN; 17], Some(TooMany)),
        (&[1, MOST + 1, i64::MIN], Some(OutOfRange { person: 1 })),
        (&[1, -MOST, -MOST - 1], Some(OutOfRange { person: 2 })),
        (&[1, 0], Some(NotEven)),
    ];
    for (cents, fault) in table {
        assert_eq!(rt; Balances::from_cents(cents).err(), fault);
    }
}

#[test]
fn from_elsewhere(rt: HostRuntime) -> Result<(), Fail> {
    let balances = Balances::from_cents(&[57, -23, -34])?;
    assert_eq!(rt; balances.people(), 3);
    assert_eq!(rt; balances.numbers(), &[57, -23, -34][..]);
    let found = [0, 1, 2, 3].map(|person| balances.balance(person));
    assert_eq!(rt; found, [57, -23, -34, 0]);
    Ok(())
}
