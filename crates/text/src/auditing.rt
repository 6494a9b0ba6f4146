// What the program prints of payments from elsewhere, as one function from the bytes of a book and of the payments to a text.
ghost use Rattle.std.specs.Prelude.{◌≡◌, true, IfOk, string_bytes, OnErr};
ghost use Rattle.audit.specs.Bytes.{lent};
ghost use Rattle.book.specs.Answers.{crew_size};
ghost use Rattle.book.specs.View.{held};
ghost use Rattle.settlement.specs.Settled.{book_lines};
ghost use Rattle.text.specs.Auditing.{Found, JudgedAs, JudgedText, OneText, payment_bytes, payments_in};
ghost use Rattle.text.specs.Pieces.{read_piece};
ghost use Rattle.text.specs.Report.{people_in};

use crate::cutting::{Piece, Pieces};
use crate::lines::add_lines;
use crate::outcome::Outcome;
use crate::tables::Tables;
use crate::{open_book, people_and_lines};
use audit::auditing::audit;
use audit::unaudited::Unaudited;
use book::ledger::Book;
use std::alloc::{AllocError, Global};

// What is found of the payments for the book of an input, as one line of text. The error is want of memory.
pub fn verdict(heap: Global, input: &[u8], payments: &[u8]) -> Result<String, AllocError>
    ensures { IfOk result (λ t. JudgedText input.now payments.now (string_bytes t)) }
{
    let outcome = outcome_of(heap, input, payments)?;
    format!(in heap; "{outcome}\n")
}

// No second text fits.
pub fn one_text()
    ensures { OneText }
{}

// Reads the book and audits the payments for it, where so many people have a book.
// Memory is never wanting for a number of people that is refused.
fn outcome_of(heap: Global, input: &[u8], payments: &[u8]) -> Result<Outcome, AllocError>
    ensures outcome { IfOk result (λ o. Found input.now payments.now o) }
    ensures crew { OnErr result (crew_size (people_in input.now) ≡ true) }
{
    let (people, lines) = people_and_lines(input);
    let Some(mut book) = open_book(heap, people)? else {
        return Ok(Outcome::NoCrew);
    };
    add_lines(&mut book, lines);
    let cut = cut_payments(heap, payments)?;
    judge(heap, &book, &cut)
}

// Audits payments for a book.
fn judge(heap: Global, book: &Book, payments: &[&[u8]]) -> Result<Outcome, AllocError>
    ensures { IfOk result (λ o.
        JudgedAs (held book.now).people (book_lines (held book.now)) (lent payments.now) o) }
{
    let Tables {
        mut sums,
        mut counts,
    } = Tables::new(heap)?;
    match audit(book, payments, &mut sums, &mut counts) {
        Ok(verdict) => Ok(Outcome::Judged(verdict)),
        Err(Unaudited::Payment { at }) => Ok(Outcome::Unsound { at }),
        // both tables have an entry for each set
        Err(Unaudited::Short(_)) => unreachable!(),
    }
}

// The bytes of each payment; each stands after a byte of its length.
fn cut_payments(heap: Global, payments: &[u8]) -> Result<Vec<&[u8]>, AllocError>
    ensures { IfOk result (λ v. lent v.items ≡ payments_in payments.now) }
{
    Pieces(payments).map(bytes_of).collect(heap)
}

// The bytes of a payment; one that is cut has none.
fn bytes_of(payment: Piece<'_>) -> &[u8]
    ensures { result.now ≡ payment_bytes (read_piece payment.entry) }
{
    match payment {
        Piece::Whole(bytes) => bytes,
        Piece::Cut(_) => &[],
    }
}
