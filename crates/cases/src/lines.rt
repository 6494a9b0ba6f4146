// Lines that a book takes and lines that it turns away: for each rule one that it refuses, and one at its edge that it does not.
ghost use Rattle.std.specs.Prelude.{◌≡◌};
ghost use Rattle.book.specs.Codes.{code};
ghost use Rattle.cases.specs.Told.{told};

use book::ledger::Book;
use book::refusal::Refusal;
use std::process::Abort;
use std::test::Fail;

// A line's number, or the refusal's number and place.
type Answer = Result<usize, (u8, usize)>;

// What a book answers, as a table writes it.
fn answered(answer: Result<usize, Refusal>) -> Answer
    ensures { result ≡ told answer }
{
    answer.map_err(refused)
}

// A refusal's number and place.
fn refused(refusal: Refusal) -> (u8, usize)
    ensures { result ≡ code refusal }
{
    (refusal.number(), refusal.place())
}

// A book answers each line so, one after another.
fn answers(rt: &impl Abort, book: &mut Book, table: &[(&[u8], Answer)]) {
    for (line, answer) in table {
        assert_eq!(rt; answered(book.add(line)), *answer);
    }
}

#[test]
fn people(rt: HostRuntime) {
    for (people, answer) in [
        (0, Err((1, 0))),
        (1, Ok((1, 0))),
        (16, Ok((16, 0))),
        (17, Err((1, 0))),
        (255, Err((1, 0))),
    ] {
        // how many people there are, and how many lines
        let made = Book::new(rt.alloc(), people, 8).map(|book| (book.people(), book.len()));
        assert_eq!(rt; made.map_err(refused), answer);
    }
}

#[test]
fn kinds_and_lengths(rt: HostRuntime) -> Result<(), Fail> {
    let mut book = Book::new(rt.alloc(), 3, 16)?;
    answers(
        &rt,
        &mut book,
        &[
            // no kind, and kinds that there are not
            (&[], Err((2, 0))),
            (&[0], Err((2, 0))),
            (&[4, 0, 1, 1, 0, 0, 0], Err((2, 0))),
            // one byte too few, one too many, and the right length
            (&[1, 0, 100, 0, 0, 0, 1, 0, 1, 0, 1], Err((3, 11))),
            (&[1, 0, 100, 0, 0, 0, 1, 0, 1, 0, 1, 0, 0], Err((3, 13))),
            (&[1, 0, 100, 0, 0, 0, 1, 0, 1, 0, 1, 0], Ok(0)),
            (&[2, 0, 1, 1, 0, 0], Err((3, 6))),
            (&[2, 0, 1, 1, 0, 0, 0], Ok(1)),
            (&[3, 0], Err((3, 2))),
        ],
    );
    Ok(())
}

#[test]
fn people_and_amounts(rt: HostRuntime) -> Result<(), Fail> {
    let mut book = Book::new(rt.alloc(), 3, 16)?;
    answers(
        &rt,
        &mut book,
        &[
            // the last person, and the one after it, at each place
            (&[1, 2, 1, 0, 0, 0, 1, 0, 0, 0, 0, 0], Ok(0)),
            (&[1, 3, 1, 0, 0, 0, 1, 0, 0, 0, 0, 0], Err((4, 1))),
            (&[2, 3, 3, 0, 0, 0, 0], Err((4, 1))),
            (&[2, 2, 3, 1, 0, 0, 0], Err((4, 2))),
            // 0, 1,000,000,000 and one more: 0x3b9aca00
            (&[1, 0, 0, 0, 0, 0, 1, 0, 0, 0, 0, 0], Err((5, 2))),
            (&[1, 0, 0x00, 0xca, 0x9a, 0x3b, 1, 0, 0, 0, 0, 0], Ok(1)),
            (
                &[1, 0, 0x01, 0xca, 0x9a, 0x3b, 1, 0, 0, 0, 0, 0],
                Err((5, 2)),
            ),
            (&[2, 0, 0, 0, 0, 0, 0], Err((5, 3))),
            (&[2, 0, 1, 0x01, 0xca, 0x9a, 0x3b], Err((5, 3))),
            // to oneself, and to another
            (&[2, 1, 1, 5, 0, 0, 0], Err((8, 2))),
            (&[2, 1, 0, 5, 0, 0, 0], Ok(2)),
        ],
    );
    Ok(())
}

#[test]
fn weights(rt: HostRuntime) -> Result<(), Fail> {
    let mut book = Book::new(rt.alloc(), 3, 16)?;
    answers(
        &rt,
        &mut book,
        &[
            // 1,000 and 1,001: 0x03e8 and 0x03e9
            (&[1, 0, 9, 0, 0, 0, 0xe8, 3, 0xe8, 3, 0xe8, 3], Ok(0)),
            (&[1, 0, 9, 0, 0, 0, 0xe9, 3, 0xe9, 3, 0, 0], Err((6, 6))),
            (&[1, 0, 9, 0, 0, 0, 0, 0, 0xe8, 3, 0xe9, 3], Err((6, 10))),
            // all 0, and one that is not
            (&[1, 0, 9, 0, 0, 0, 0, 0, 0, 0, 0, 0], Err((7, 6))),
            (&[1, 0, 9, 0, 0, 0, 0, 0, 0, 0, 1, 0], Ok(1)),
            // the first rule that applies: the payer before the amount and the weights
            (&[1, 9, 0, 0, 0, 0, 0, 0, 0, 0, 0, 0], Err((4, 1))),
        ],
    );
    Ok(())
}

#[test]
fn taking_back(rt: HostRuntime) -> Result<(), Fail> {
    let mut book = Book::new(rt.alloc(), 3, 16)?;
    answers(
        &rt,
        &mut book,
        &[
            // nothing is there yet, not even itself
            (&[3, 0, 0], Err((9, 1))),
            (&[2, 0, 1, 1, 0, 0, 0], Ok(0)),
            (&[2, 1, 2, 1, 0, 0, 0], Ok(1)),
            // its own number
            (&[3, 2, 0], Err((9, 1))),
            (&[3, 0, 0], Ok(2)),
            // twice, and a taking back
            (&[3, 0, 0], Err((9, 1))),
            (&[3, 2, 0], Err((9, 1))),
            (&[3, 1, 1], Err((9, 1))),
            (&[3, 1, 0], Ok(3)),
        ],
    );
    assert_eq!(rt; book.len(), 4);
    for (number, stands) in [(0, false), (1, false), (2, true), (3, true), (4, false)] {
        assert_eq!(rt; book.stands(number), stands);
    }
    Ok(())
}

#[test]
fn room(rt: HostRuntime) -> Result<(), Fail> {
    let mut book = Book::new(rt.alloc(), 2, 1)?;
    answers(
        &rt,
        &mut book,
        &[
            (&[2, 0, 1, 1, 0, 0, 0], Ok(0)),
            // with no room left this comes before every other rule
            (&[2, 0, 1, 1, 0, 0, 0], Err((11, 0))),
            (&[], Err((11, 0))),
        ],
    );
    assert_eq!(rt; refused(book.refuse_cut(&[1])), (11, 0));
    Ok(())
}

#[test]
fn cut_short(rt: HostRuntime) -> Result<(), Fail> {
    let book = Book::new(rt.alloc(), 2, 1)?;
    assert_eq!(rt; refused(book.refuse_cut(&[])), (2, 0));
    assert_eq!(rt; refused(book.refuse_cut(&[4, 1])), (2, 0));
    // these bytes would be a whole line
    assert_eq!(rt; refused(book.refuse_cut(&[2, 0, 1, 1, 0, 0, 0])), (3, 7));
    Ok(())
}

#[test]
fn too_many(rt: HostRuntime) -> Result<(), Fail> {
    let mut book = Book::new(rt.alloc(), 2, 5000)?;
    for number in 0..4096usize {
        assert_eq!(rt; answered(book.add(&[2, 0, 1, 1, 0, 0, 0])), Ok(number));
    }
    answers(
        &rt,
        &mut book,
        &[
            (&[2, 0, 1, 1, 0, 0, 0], Err((10, 0))),
            // the other rules come first
            (&[2, 0, 0, 1, 0, 0, 0], Err((8, 2))),
            (&[3, 0, 16], Err((9, 1))),
        ],
    );
    Ok(())
}
