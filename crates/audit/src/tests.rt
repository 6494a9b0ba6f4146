// Verdicts on lists of payments for small crews, worked out by hand, and payments that are turned away.
use crate::auditing::audit;
use crate::verdict::Verdict;
use book::ledger::Book;
use std::process::Abort;
use std::test::Fail;

// The ten bytes of a payment.
fn pay(from: u8, to: u8, amount: u64) -> [u8; 10] {
    let [a, b, c, d, e, f, g, h] = amount.to_le_bytes();
    [from, to, a, b, c, d, e, f, g, h]
}

// A book of payments that were made: who paid is owed so much, and who got it owes it.
fn book_of(rt: &(impl Abort + AllocGlobal), people: u8, lines: &[[u8; 7]]) -> Result<Book, Fail> {
    let mut book = Book::new(rt.alloc(), people, 8)?;
    for line in lines {
        book.add(line)?;
    }
    Ok(book)
}

// The verdict on the payments has these words.
fn words(
    rt: &(impl Abort + AllocGlobal),
    book: &Book,
    payments: &[&[u8]],
    expected: &str,
) -> Result<(), Fail> {
    let verdict = audit(book, payments, &mut [0; 64], &mut [0; 64])?;
    assert_eq!(rt; format!(in rt.alloc(); "{verdict}")?.as_str(), expected);
    Ok(())
}

#[test]
fn two_people(rt: HostRuntime) -> Result<(), Fail> {
    let paid = pay(0, 1, 1);
    let payments: [&[u8]; 1] = [&paid];
    // -1 1
    let book = book_of(&rt, 2, &[[2, 1, 0, 1, 0, 0, 0]])?;
    words(&rt, &book, &payments[0..0], "0 is not quit")?;
    words(&rt, &book, &payments, "fewest and least")?;
    // 0 0
    let even = book_of(&rt, 2, &[])?;
    words(&rt, &even, &payments[0..0], "fewest and least")?;
    words(&rt, &even, &payments, "0 is not quit")
}

// -5 -5 10 -7 3 4: two groups, so that four payments settle it, and they move 17.
const SIX: [[u8; 7]; 4] = [
    [2, 2, 0, 5, 0, 0, 0],
    [2, 2, 1, 5, 0, 0, 0],
    [2, 4, 3, 3, 0, 0, 0],
    [2, 5, 3, 4, 0, 0, 0],
];

#[test]
fn six_people(rt: HostRuntime) -> Result<(), Fail> {
    let book = book_of(&rt, 6, &SIX)?;
    let by_groups: [&[u8]; 4] = [&pay(0, 2, 5), &pay(1, 2, 5), &pay(3, 4, 3), &pay(3, 5, 4)];
    words(&rt, &book, &by_groups, "fewest and least")?;
    // who owes most pays who is owed most
    let largest: [&[u8]; 5] = [
        &pay(3, 2, 7),
        &pay(0, 5, 4),
        &pay(1, 2, 3),
        &pay(1, 4, 2),
        &pay(0, 4, 1),
    ];
    words(&rt, &book, &largest, "least")?;
    // person 0 pays 2 by way of 1
    let roundabout: [&[u8]; 4] = [&pay(0, 1, 5), &pay(1, 2, 10), &pay(3, 4, 3), &pay(3, 5, 4)];
    words(&rt, &book, &roundabout, "fewest")?;
    let both: [&[u8]; 5] = [
        &pay(0, 1, 5),
        &pay(1, 2, 10),
        &pay(3, 4, 3),
        &pay(3, 5, 3),
        &pay(3, 5, 1),
    ];
    words(&rt, &book, &both, "settles")?;
    // 1, 2, 3 and 5 are left with something
    words(&rt, &book, &[&pay(0, 2, 5), &pay(3, 4, 3)], "1 is not quit")
}

// The verdict with these tables, or the number and place of the refusal. The tables are lent: the caller owns the memory.
fn told(
    book: &Book,
    payments: &[&[u8]],
    sums: &mut [i64],
    counts: &mut [u8],
) -> Result<Verdict, (u8, usize)> {
    audit(book, payments, sums, counts).map_err(|refusal| (refusal.number(), refusal.place()))
}

const MOST: u64 = 1 << 48;

#[test]
fn faults(rt: HostRuntime) -> Result<(), Fail> {
    let book = book_of(&rt, 6, &SIX)?;
    let good = pay(0, 5, MOST);
    // the second of three payments, of which the last is not in order: the first that is not
    let table: [(&[u8], usize); 9] = [
        (&good, 2),
        (&good[0..9], 1),
        (&[0, 1, 1, 0, 0, 0, 0, 0, 0, 0, 0], 1),
        (&[], 1),
        (&pay(6, 0, 1), 1),
        (&pay(0, 6, 1), 1),
        (&pay(3, 3, 1), 1),
        (&pay(0, 1, 0), 1),
        (&pay(0, 1, MOST + 1), 1),
    ];
    for (payment, place) in table {
        let answer = told(&book, &[&good, payment, &[]], &mut [0; 64], &mut [0; 64]);
        assert_eq!(rt; answer, Err((12, place)));
    }
    Ok(())
}

#[test]
fn as_many_as_there_may_be(rt: HostRuntime) -> Result<(), Fail> {
    let book = book_of(&rt, 2, &[])?;
    let paid = pay(0, 1, MOST);
    let payments: [&[u8]; 1025] = [&paid; 1025];
    words(&rt, &book, &payments[0..1024], "0 is not quit")?;
    let answer = told(&book, &payments, &mut [0; 4], &mut [0; 4]);
    assert_eq!(rt; answer, Err((12, 1024)));
    Ok(())
}

#[test]
fn short_tables(rt: HostRuntime) -> Result<(), Fail> {
    let book = book_of(&rt, 2, &[])?;
    let payments: [&[u8]; 1] = [&[]];
    let answers = [
        told(&book, &payments, &mut [0; 3], &mut [0; 3]),
        told(&book, &payments, &mut [0; 4], &mut [0; 3]),
        told(&book, &payments, &mut [0; 4], &mut [0; 4]),
    ];
    assert_eq!(rt; answers, [Err((11, 1)), Err((11, 2)), Err((12, 0))]);
    Ok(())
}
