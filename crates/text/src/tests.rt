// A few inputs and what the rules say of them; crate `cases` has many more.
use crate::auditing::verdict;
use crate::report;
use std::test::Fail;

static CASES: [(&[u8], &str); 6] = [
    // a crew has 1 to 16 people; nothing is said after a refusal, and nothing where there are no lines
    (&[], "refused 1 at 0\n"),
    (&[17, 3, 3, 0, 0], "refused 1 at 0\n"),
    (&[16], ""),
    // person 0 pays a bill of 100 with equal weights, and person 1 pays 10 to person 0
    (
        &[
            3, 12, 1, 0, 100, 0, 0, 0, 1, 0, 1, 0, 1, 0, 7, 2, 1, 0, 10, 0, 0, 0,
        ],
        "line 0\nline 1\n0 is owed 57\n1 owes 23\n2 owes 34\n1 pays 0 23\n2 pays 0 34\n",
    ),
    // a refused line gets no number, a line is taken back once, and then all are even
    (
        &[3, 0, 7, 2, 1, 0, 10, 0, 0, 0, 3, 3, 0, 0, 3, 3, 0, 0],
        "line refused 2 at 0\nline 0\nline 1\nline refused 9 at 1\n",
    ),
    // a payment that is whole by itself, of a line that is cut
    (&[3, 8, 2, 1, 0, 10, 0, 0, 0], "line refused 3 at 7\n"),
];

#[test]
fn said_of_each_input(rt: HostRuntime) -> Result<(), Fail> {
    for (input, expected) in &CASES {
        let text = report(rt.alloc(), input)?;
        assert_eq!(rt; text.as_str(), *expected);
    }
    Ok(())
}

// A book of three: 0 is owed 57, 1 owes 23 and 2 owes 34.
static THREE: [u8; 22] = [
    3, 12, 1, 0, 100, 0, 0, 0, 1, 0, 1, 0, 1, 0, 7, 2, 1, 0, 10, 0, 0, 0,
];

static AUDITS: [(&[u8], &str); 6] = [
    // 1 pays 0 23, 2 pays 0 34
    (
        &[
            10, 1, 0, 23, 0, 0, 0, 0, 0, 0, 0, 10, 2, 0, 34, 0, 0, 0, 0, 0, 0, 0,
        ],
        "fewest and least\n",
    ),
    // the first alone leaves 34 for 0 to get
    (&[10, 1, 0, 23, 0, 0, 0, 0, 0, 0, 0], "0 is not quit\n"),
    (&[], "0 is not quit\n"),
    // nine bytes
    (
        &[9, 1, 0, 23, 0, 0, 0, 0, 0, 0],
        "payment refused 12 at 0\n",
    ),
    // the second is cut: by its last byte, and ten bytes of eleven
    (
        &[
            10, 1, 0, 23, 0, 0, 0, 0, 0, 0, 0, 10, 2, 0, 34, 0, 0, 0, 0, 0, 0,
        ],
        "payment refused 12 at 1\n",
    ),
    (
        &[
            10, 1, 0, 23, 0, 0, 0, 0, 0, 0, 0, 11, 2, 0, 34, 0, 0, 0, 0, 0, 0, 0,
        ],
        "payment refused 12 at 1\n",
    ),
];

#[test]
fn verdict_on_payments(rt: HostRuntime) -> Result<(), Fail> {
    for (payments, expected) in &AUDITS {
        let text = verdict(rt.alloc(), &THREE, payments)?;
        assert_eq!(rt; text.as_str(), *expected);
    }
    // a book of nobody, whatever the payments are
    let text = verdict(rt.alloc(), &[0], &[9])?;
    assert_eq!(rt; text.as_str(), "refused 1 at 0\n");
    Ok(())
}
