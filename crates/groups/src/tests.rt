// Crews with their groups, and tables with and without room, worked out by hand.
use crate::filling::{fill_tables, room};
use crate::grouping::group_people;
use crate::short::Short;
use crate::ungrouped::Ungrouped;
use balances::sheet::Balances;
use std::process::Abort;
use std::test::Fail;

// Each crew has these groups.
fn grouped(rt: &(impl Abort + AllocGlobal), table: &[(&[i64], &[u32])]) -> Result<(), Fail> {
    for (cents, groups) in table {
        let balances = Balances::from_cents(cents)?;
        let mut sums = vec![in rt.alloc(); 0; 65536]?;
        let mut counts = vec![in rt.alloc(); 0; 65536]?;
        let found = group_people(rt.alloc(), &balances, &mut sums, &mut counts)?;
        assert_eq!(rt; found.as_slice(), *groups);
    }
    Ok(())
}

#[test]
fn example_crews(rt: HostRuntime) -> Result<(), Fail> {
    grouped(
        &rt,
        &[
            (&[-30, -20, -10, 25, 25, 10], &[27, 36]),
            (&[-5, -5, 10, -7, 3, 4], &[7, 56]),
            (&[-8, 8, -6, 6], &[3, 12]),
            (&[-3, -4, -5, 12], &[15]),
            (&[0, 0], &[]),
            (&[-1, 1], &[3]),
            (&[], &[]),
        ],
    )
}

#[test]
fn which_set_is_taken(rt: HostRuntime) -> Result<(), Fail> {
    grouped(
        &rt,
        &[
            // Two threes, 3 -1 -2 and -3 -4 7; the pair 3 -3 leaves -1 -2 -4 7, so it is two groups either way.
            // (A pair never loses a group: what it leaves of two groups sums to 0.) The lesser set is taken.
            (&[3, -1, -2, -3, -4, 7], &[7, 56]),
            (&[3, -3, -1, -2, -4, 7], &[3, 60]),
            // Three pairs; the three 5 7 -12 is the least set that sums to 0, but leaves only -5 -7 12: two groups.
            (&[5, 7, -12, -5, -7, 12], &[9, 18, 36]),
            // Who is even is in no group, not even alone.
            (&[0, -8, 0, 8, 0], &[10]),
            (&[0, 6, -6, 0, 2, -2], &[6, 48]),
        ],
    )
}

#[test]
fn sixteen_people(rt: HostRuntime) -> Result<(), Fail> {
    grouped(
        &rt,
        &[
            // eight groups of sixteen people are pairs, and each has one other
            (
                &[1, -1, 2, -2, 3, -3, 4, -4, 5, -5, 6, -6, 7, -7, 8, -8],
                &[3, 12, 48, 192, 768, 3072, 12288, 49152],
            ),
            // whatever sums to 0 has the last person, and so all others
            (
                &[
                    -1, -1, -1, -1, -1, -1, -1, -1, -1, -1, -1, -1, -1, -1, -1, 15,
                ],
                &[65535],
            ),
        ],
    )
}

// The answer with a refusal's number and place.
fn code(answer: Result<(), Short>) -> Result<(), (u8, usize)> {
    answer.map_err(|short| (short.number(), short.place()))
}

// Tables of 7 and of 9 are refused with this number and place for two people, and stay as they were. They are lent: the
// caller owns the memory.
fn refused(
    rt: &(impl Abort + AllocGlobal),
    sums: &mut [i64],
    counts: &mut [u8],
    expected: (u8, usize),
) -> Result<(), Fail> {
    let pair = Balances::from_cents(&[-1, 1])?;
    assert_eq!(rt; code(room(&pair, sums, counts)), Err(expected));
    assert_eq!(rt; code(fill_tables(&pair, sums, counts)), Err(expected));
    let answer = match group_people(rt.alloc(), &pair, sums, counts) {
        Err(Ungrouped::Short(short)) => Err(short),
        _ => Ok(()),
    };
    assert_eq!(rt; code(answer), Err(expected));
    for sum in sums {
        assert_eq!(rt; *sum, 7);
    }
    for count in counts {
        assert_eq!(rt; *count, 9);
    }
    Ok(())
}

#[test]
fn tables_too_short_by_one(rt: HostRuntime) -> Result<(), Fail> {
    refused(&rt, &mut [7; 3], &mut [9; 4], (11, 1))?;
    refused(&rt, &mut [7; 4], &mut [9; 3], (11, 2))?;
    refused(&rt, &mut [7; 3], &mut [9; 3], (11, 1))
}

// The entries of -3, 0 and 3 are written, and those past them are as they were; of both tables, as they are lent.
fn three_entered(rt: &impl Abort, sums: &[i64; 10], counts: &[u8; 9]) {
    assert_eq!(rt; *sums, [0, -3, 0, -3, 3, 0, 3, 0, 7, 7]);
    assert_eq!(rt; *counts, [0, 0, 0, 0, 0, 1, 0, 1, 9]);
}

#[test]
fn longer_tables(rt: HostRuntime) -> Result<(), Fail> {
    let three = Balances::from_cents(&[-3, 0, 3])?;
    let mut sums = [7; 10];
    let mut counts = [9; 9];
    assert_eq!(rt; code(fill_tables(&three, &mut sums, &mut counts)), Ok(()));
    three_entered(&rt, &sums, &counts);
    sums = [7; 10];
    counts = [9; 9];
    group_people(rt.alloc(), &three, &mut sums, &mut counts)?;
    three_entered(&rt, &sums, &counts);
    Ok(())
}
