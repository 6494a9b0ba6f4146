// Whole inputs and whole reports. The expected texts are those of `report` in examples/make.py, which is written from the rules
// and shares no code with the program.
use std::process::Abort;
use std::test::Fail;
use text::report;

// The pieces of an input, its number of people first and then a line each after a byte of its length, and the report.
static REPORTS: [(&[&[u8]], &str); 34] = [
    // no byte at all, and no people
    (&[], "refused 1 at 0\n"),
    (&[&[0]], "refused 1 at 0\n"),
    // more than sixteen people: nothing is said of the lines
    (&[&[17], &[7, 2, 0, 1, 5, 0, 0, 0]], "refused 1 at 0\n"),
    (&[&[255]], "refused 1 at 0\n"),
    // no lines
    (&[&[1]], ""),
    (&[&[16]], ""),
    // 100 for three paid by 0, and 10 paid by 1 to 0
    (
        &[
            &[3],
            &[12, 1, 0, 100, 0, 0, 0, 1, 0, 1, 0, 1, 0],
            &[7, 2, 1, 0, 10, 0, 0, 0],
        ],
        "line 0\nline 1\n0 is owed 57\n1 owes 23\n2 owes 34\n1 pays 0 23\n2 pays 0 34\n",
    ),
    // no kind, and kinds that there are not
    (
        &[
            &[3],
            &[0],
            &[1, 0],
            &[7, 4, 0, 1, 5, 0, 0, 0],
            &[7, 2, 2, 1, 5, 0, 0, 0],
        ],
        "line refused 2 at 0\nline refused 2 at 0\nline refused 2 at 0\nline 0\n1 owes 5\n2 is owed 5\n1 pays 2 5\n",
    ),
    // one byte too few and one too many for each kind
    (
        &[
            &[2],
            &[9, 1, 0, 9, 0, 0, 0, 1, 0, 1],
            &[11, 1, 0, 9, 0, 0, 0, 1, 0, 1, 0, 0],
            &[6, 2, 0, 1, 5, 0, 0],
            &[8, 2, 0, 1, 5, 0, 0, 0, 0],
            &[2, 3, 0],
            &[4, 3, 0, 0, 0],
        ],
        "line refused 3 at 9\nline refused 3 at 11\nline refused 3 at 6\nline refused 3 at 8\n\
        line refused 3 at 2\nline refused 3 at 4\n",
    ),
    // a bill for three in a book for two, and for two in a book for three
    (
        &[&[2], &[12, 1, 0, 9, 0, 0, 0, 1, 0, 1, 0, 1, 0]],
        "line refused 3 at 12\n",
    ),
    (
        &[&[3], &[10, 1, 0, 9, 0, 0, 0, 1, 0, 1, 0]],
        "line refused 3 at 10\n",
    ),
    // the last person, and the one after it, at each place
    (
        &[
            &[3],
            &[12, 1, 2, 9, 0, 0, 0, 1, 0, 0, 0, 0, 0],
            &[12, 1, 3, 9, 0, 0, 0, 1, 0, 0, 0, 0, 0],
            &[7, 2, 3, 3, 5, 0, 0, 0],
            &[7, 2, 2, 3, 5, 0, 0, 0],
            &[7, 2, 2, 1, 5, 0, 0, 0],
        ],
        "line 0\nline refused 4 at 1\nline refused 4 at 1\nline refused 4 at 2\nline 1\n0 owes 9\n1 owes 5\n\
        2 is owed 14\n0 pays 2 9\n1 pays 2 5\n",
    ),
    // 0, 1,000,000,000 and one more
    (
        &[
            &[2],
            &[10, 1, 0, 0, 0, 0, 0, 0, 0, 1, 0],
            &[10, 1, 0, 0, 202, 154, 59, 0, 0, 1, 0],
            &[10, 1, 0, 1, 202, 154, 59, 0, 0, 1, 0],
            &[7, 2, 0, 1, 0, 0, 0, 0],
            &[7, 2, 1, 0, 0, 202, 154, 59],
            &[7, 2, 1, 0, 1, 202, 154, 59],
        ],
        "line refused 5 at 2\nline 0\nline refused 5 at 2\nline refused 5 at 3\nline 1\nline refused 5 at 3\n",
    ),
    // weights of 1,000 and 1,001, the first of two, and no weight
    (
        &[
            &[2],
            &[10, 1, 0, 9, 0, 0, 0, 232, 3, 232, 3],
            &[10, 1, 0, 9, 0, 0, 0, 233, 3, 233, 3],
            &[10, 1, 0, 9, 0, 0, 0, 232, 3, 233, 3],
            &[10, 1, 0, 9, 0, 0, 0, 0, 0, 0, 0],
            &[10, 1, 0, 9, 0, 0, 0, 0, 0, 1, 0],
        ],
        "line 0\nline refused 6 at 6\nline refused 6 at 8\nline refused 7 at 6\nline 1\n0 is owed 14\n\
        1 owes 14\n1 pays 0 14\n",
    ),
    // the first rule that applies: person, amount, weight
    (
        &[
            &[2],
            &[10, 1, 2, 0, 0, 0, 0, 233, 3, 0, 0],
            &[10, 1, 1, 0, 0, 0, 0, 233, 3, 0, 0],
            &[10, 1, 1, 9, 0, 0, 0, 233, 3, 0, 0],
            &[7, 2, 2, 2, 0, 0, 0, 0],
            &[7, 2, 1, 1, 0, 0, 0, 0],
            &[7, 2, 1, 1, 5, 0, 0, 0],
        ],
        "line refused 4 at 1\nline refused 5 at 2\nline refused 6 at 6\nline refused 4 at 1\n\
        line refused 5 at 3\nline refused 8 at 2\n",
    ),
    // taking back: nothing is there, its own number, and once
    (
        &[
            &[3],
            &[3, 3, 0, 0],
            &[7, 2, 0, 1, 5, 0, 0, 0],
            &[3, 3, 1, 0],
            &[3, 3, 0, 0],
            &[3, 3, 0, 0],
            &[3, 3, 1, 0],
            &[3, 3, 0, 1],
        ],
        "line refused 9 at 1\nline 0\nline refused 9 at 1\nline 1\nline refused 9 at 1\nline refused 9 at 1\n\
        line refused 9 at 1\n",
    ),
    // a bill taken back, and a payment taken back
    (
        &[
            &[3],
            &[12, 1, 0, 100, 0, 0, 0, 1, 0, 1, 0, 1, 0],
            &[7, 2, 1, 0, 10, 0, 0, 0],
            &[3, 3, 0, 0],
        ],
        "line 0\nline 1\nline 2\n0 owes 10\n1 is owed 10\n0 pays 1 10\n",
    ),
    (
        &[
            &[3],
            &[12, 1, 0, 100, 0, 0, 0, 1, 0, 1, 0, 1, 0],
            &[7, 2, 1, 0, 10, 0, 0, 0],
            &[3, 3, 1, 0],
        ],
        "line 0\nline 1\nline 2\n0 is owed 67\n1 owes 33\n2 owes 34\n1 pays 0 33\n2 pays 0 34\n",
    ),
    // a refused line gets no number and counts for nothing
    (
        &[
            &[2],
            &[7, 2, 0, 0, 5, 0, 0, 0],
            &[7, 2, 0, 1, 5, 0, 0, 0],
            &[7, 2, 1, 1, 5, 0, 0, 0],
            &[7, 2, 1, 0, 2, 0, 0, 0],
        ],
        "line refused 8 at 2\nline 0\nline refused 8 at 2\nline 1\n0 is owed 3\n1 owes 3\n1 pays 0 3\n",
    ),
    // cut: no byte, no kind, a payment that is whole by itself, a line that was cut off
    (
        &[&[3], &[7, 2, 1, 0, 10, 0, 0, 0], &[7]],
        "line 0\nline refused 2 at 0\n0 owes 10\n1 is owed 10\n0 pays 1 10\n",
    ),
    (
        &[&[3], &[7, 2, 1, 0, 10, 0, 0, 0], &[255, 9, 9]],
        "line 0\nline refused 2 at 0\n0 owes 10\n1 is owed 10\n0 pays 1 10\n",
    ),
    (
        &[&[3], &[7, 2, 1, 0, 10, 0, 0, 0], &[8, 2, 1, 0, 10, 0, 0, 0]],
        "line 0\nline refused 3 at 7\n0 owes 10\n1 is owed 10\n0 pays 1 10\n",
    ),
    (
        &[
            &[3],
            &[7, 2, 1, 0, 10, 0, 0, 0],
            &[12, 1, 0, 100, 0, 0, 0, 1, 0, 1, 0, 1],
        ],
        "line 0\nline refused 3 at 11\n0 owes 10\n1 is owed 10\n0 pays 1 10\n",
    ),
    // odd cents fall to who comes later
    (
        &[&[3], &[12, 1, 0, 1, 0, 0, 0, 1, 0, 1, 0, 1, 0]],
        "line 0\n0 is owed 1\n2 owes 1\n2 pays 0 1\n",
    ),
    (
        &[&[3], &[12, 1, 0, 100, 0, 0, 0, 1, 0, 2, 0, 4, 0]],
        "line 0\n0 is owed 86\n1 owes 28\n2 owes 58\n1 pays 0 28\n2 pays 0 58\n",
    ),
    (
        &[&[3], &[12, 1, 2, 0, 202, 154, 59, 232, 3, 1, 0, 231, 3]],
        "line 0\n0 owes 500000000\n1 owes 500000\n2 is owed 500500000\n0 pays 2 500000000\n1 pays 2 500000\n",
    ),
    // one person: a bill for itself, and nobody to pay
    (
        &[
            &[1],
            &[8, 1, 0, 9, 0, 0, 0, 1, 0],
            &[7, 2, 0, 0, 5, 0, 0, 0],
            &[7, 2, 0, 1, 5, 0, 0, 0],
            &[8, 1, 1, 9, 0, 0, 0, 1, 0],
        ],
        "line 0\nline refused 8 at 2\nline refused 4 at 2\nline refused 4 at 1\n",
    ),
    // somebody is even between two who are not
    (
        &[&[3], &[7, 2, 0, 2, 7, 0, 0, 0]],
        "line 0\n0 is owed 7\n2 owes 7\n2 pays 0 7\n",
    ),
    // everybody is even
    (
        &[
            &[3],
            &[7, 2, 0, 1, 7, 0, 0, 0],
            &[7, 2, 1, 2, 7, 0, 0, 0],
            &[7, 2, 2, 0, 7, 0, 0, 0],
        ],
        "line 0\nline 1\nline 2\n",
    ),
    // three groups of two, where one list through all would have five payments
    (
        &[
            &[6],
            &[7, 2, 0, 5, 1, 0, 0, 0],
            &[7, 2, 4, 1, 2, 0, 0, 0],
            &[7, 2, 2, 3, 4, 0, 0, 0],
        ],
        "line 0\nline 1\nline 2\n0 is owed 1\n1 owes 2\n2 is owed 4\n3 owes 4\n4 is owed 2\n5 owes 1\n\
        5 pays 0 1\n1 pays 4 2\n3 pays 2 4\n",
    ),
    // a group of three and one of two
    (
        &[
            &[5],
            &[7, 2, 0, 1, 2, 0, 0, 0],
            &[7, 2, 0, 2, 3, 0, 0, 0],
            &[7, 2, 3, 4, 5, 0, 0, 0],
        ],
        "line 0\nline 1\nline 2\n0 is owed 5\n1 owes 2\n2 owes 3\n3 is owed 5\n4 owes 5\n1 pays 0 2\n\
        2 pays 0 3\n4 pays 3 5\n",
    ),
    // two ways to part them: the least set with person 0
    (
        &[&[4], &[7, 2, 0, 1, 1, 0, 0, 0], &[7, 2, 2, 3, 1, 0, 0, 0]],
        "line 0\nline 1\n0 is owed 1\n1 owes 1\n2 is owed 1\n3 owes 1\n1 pays 0 1\n3 pays 2 1\n",
    ),
    // sixteen people in three groups, and one who is not there
    (
        &[
            &[16],
            &[7, 2, 0, 15, 9, 0, 0, 0],
            &[7, 2, 1, 14, 8, 0, 0, 0],
            &[7, 2, 2, 13, 7, 0, 0, 0],
            &[7, 2, 15, 3, 6, 0, 0, 0],
            &[7, 2, 16, 0, 1, 0, 0, 0],
        ],
        "line 0\nline 1\nline 2\nline 3\nline refused 4 at 1\n0 is owed 9\n1 is owed 8\n2 is owed 7\n\
        3 owes 6\n13 owes 7\n14 owes 8\n15 owes 3\n3 pays 0 6\n15 pays 0 3\n14 pays 1 8\n13 pays 2 7\n",
    ),
    // sixteen people: a bill of 100 with weight 1 each
    (
        &[
            &[16],
            &[38, 1, 7, 100, 0, 0, 0],
            &[1, 0, 1, 0, 1, 0, 1, 0, 1, 0, 1, 0, 1, 0, 1, 0],
            &[1, 0, 1, 0, 1, 0, 1, 0, 1, 0, 1, 0, 1, 0, 1, 0],
        ],
        "line 0\n0 owes 6\n1 owes 6\n2 owes 6\n3 owes 7\n4 owes 6\n5 owes 6\n6 owes 6\n7 is owed 93\n\
        8 owes 6\n9 owes 6\n10 owes 6\n11 owes 7\n12 owes 6\n13 owes 6\n14 owes 6\n15 owes 7\n0 pays 7 6\n\
        1 pays 7 6\n2 pays 7 6\n3 pays 7 7\n4 pays 7 6\n5 pays 7 6\n6 pays 7 6\n8 pays 7 6\n9 pays 7 6\n\
        10 pays 7 6\n11 pays 7 7\n12 pays 7 6\n13 pays 7 6\n14 pays 7 6\n15 pays 7 7\n",
    ),
];

#[test]
fn reports(rt: HostRuntime) -> Result<(), Fail> {
    for (pieces, expected) in &REPORTS {
        let mut input = Vec::new(rt.alloc());
        for piece in *pieces {
            input.extend_from_slice(piece)?;
        }
        let text = report(rt.alloc(), input.as_slice())?;
        assert_eq!(rt; text.as_str(), *expected);
    }
    Ok(())
}

// So many payments of 10 cents from 1 to 0, then a line that takes one back and a line that is cut: there is room for 512 lines.
fn many(rt: &(impl Abort + AllocGlobal), count: usize, closing: &str) -> Result<(), Fail> {
    let mut input = vec![in rt.alloc(); 2]?;
    let mut expected = String::new(rt.alloc());
    for number in 0..count {
        input.extend_from_slice(&[7, 2, 1, 0, 10, 0, 0, 0])?;
        if number < 512 {
            writeln!(expected, "line {number}")?;
        } else {
            writeln!(expected, "line refused 11 at 0")?;
        }
    }
    input.extend_from_slice(&[3, 3, 0, 0, 9])?;
    expected.push_str(closing)?;
    let text = report(rt.alloc(), input.as_slice())?;
    assert_eq!(rt; text.as_str(), expected.as_str());
    Ok(())
}

#[test]
fn room(rt: HostRuntime) -> Result<(), Fail> {
    many(
        &rt,
        511,
        "line 511\nline refused 11 at 0\n0 owes 5100\n1 is owed 5100\n0 pays 1 5100\n",
    )?;
    many(
        &rt,
        512,
        "line refused 11 at 0\nline refused 11 at 0\n0 owes 5120\n1 is owed 5120\n0 pays 1 5120\n",
    )?;
    many(
        &rt,
        513,
        "line refused 11 at 0\nline refused 11 at 0\n0 owes 5120\n1 is owed 5120\n0 pays 1 5120\n",
    )
}
