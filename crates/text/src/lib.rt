// What the program prints, as one function from the input's bytes to a text.
#![tactic(auto)]

ghost use Rattle.std.specs.Prelude.{◌≡◌, true, false, drop, IfOk, MatchOption, OnErr, string_bytes};
ghost use Rattle.book.specs.Answers.{crew_size};
ghost use Rattle.book.specs.View.{held};
ghost use Rattle.settlement.specs.Settled.{book_lines};
ghost use Rattle.text.specs.Report.{Closed, Reported, Told, empty, people_in};
ghost use Rattle.text.specs.Pieces.{pieces};

use balances::sheet::Balances;
use book::ledger::Book;
use book::refusal::Refusal;
use lines::read_lines;
use owing::write_balances;
use paying::{payments_of, write_payments};
use std::alloc::{AllocError, Global};
use writing::write_line;

pub mod answer;
pub mod auditing;
mod cutting;
pub mod lines;
pub mod outcome;
pub mod owing;
pub mod paying;
pub mod side;
mod tables;
#[cfg(test)]
mod tests;
mod writing;

const ROOM: usize = 512;

// The report on a book: one byte for the number of people, and then the lines. The error is want of memory.
pub fn report(heap: Global, input: &[u8]) -> Result<String, AllocError>
    ensures { IfOk result (λ t. Reported input.now (string_bytes t)) }
{
    let mut text = String::new(heap);
    let (people, lines) = people_and_lines(input);
    let Some(mut book) = open_book(heap, people)? else {
        write_line(&mut text, Refusal::CrewSize)?;
        return Ok(text);
    };
    report_lines(heap, &mut book, lines, &mut text)?;
    Ok(text)
}

// Writes all that is said of lines that are read into a book.
fn report_lines(
    heap: Global,
    book: &mut Book,
    lines: &[u8],
    text: &mut String,
) -> Result<(), AllocError>
    ensures { IfOk result (λ _.
        Told (held book.old) (pieces lines.now) (string_bytes text.old) (string_bytes text.new)) }
{
    read_lines(book, lines, text)?;
    close_book(heap, book, text)
}

// Writes what is said of a book after the answers to its lines: the balances, and the payments that settle them.
fn close_book(heap: Global, book: &Book, text: &mut String) -> Result<(), AllocError>
    ensures { IfOk result (λ _.
        Closed (held book.now).people (book_lines (held book.now))
        (string_bytes text.old) (string_bytes text.new)) }
{
    write_balances(&Balances::of(book), text)?;
    let payments = payments_of(heap, book)?;
    write_payments(&payments, text)
}

// The number of people, which is 0 where there is no byte at all, and the bytes of the lines after it.
pub(crate) fn people_and_lines(input: &[u8]) -> (u8, &[u8])
    ensures people { result.0 ≡ people_in input.now }
    ensures lines { result.1.now ≡ drop 1 input.now }
{
    match input {
        [people, lines @ ..] => (*people, lines),
        // a book of no people, which is refused as a byte of 0 is
        [] => (0, input),
    }
}

// A book of no lines with room for 512, or none where so many people have no book. The error is want of memory.
// Memory is never wanting for a number of people that is refused.
pub(crate) fn open_book(heap: Global, people: u8) -> Result<Option<Book>, AllocError>
    ensures opened { IfOk result (λ o. MatchOption o
        (crew_size people ≡ false) (λ b. (crew_size people ≡ true) × (held b ≡ empty people))) }
    ensures crew { OnErr result (crew_size people ≡ true) }
{
    match Book::new(heap, people, ROOM) {
        Ok(book) => Ok(Some(book)),
        Err(Refusal::CrewSize) => Ok(None),
        // a book answers want of memory as a refusal of its own
        Err(_) => Err(AllocError),
    }
}
