// Reading lines into a book and answering each.
ghost use Rattle.std.specs.Prelude.{◌≡◌, IfOk, string_bytes};
ghost use Rattle.book.specs.View.{held};
ghost use Rattle.text.specs.Answers.{reply_of};
ghost use Rattle.text.specs.Pieces.{pieces, read_piece};
ghost use Rattle.text.specs.Run.{Read, after, book_after, reply};

use crate::answer::Answer;
use crate::cutting::{Piece, Pieces};
use crate::writing::write_line;
use book::ledger::Book;
use book::refusal::Refusal;
use std::alloc::AllocError;

// Reads every line into the book and writes the answer to each; each line stands after a byte of its length.
pub fn read_lines(book: &mut Book, lines: &[u8], text: &mut String) -> Result<(), AllocError>
    ensures { IfOk result (λ _.
        Read lines.now (held book.old) (held book.new) (string_bytes text.old) (string_bytes text.new)) }
{
    for piece in Pieces(lines) {
        write_line(text, Answer(answer_line(book, piece)))?;
    }
    Ok(())
}

// Reads every line into the book; the answers are let go.
pub(crate) fn add_lines(book: &mut Book, lines: &[u8])
    ensures { held book.new ≡ book_after (held book.old) (pieces lines.now) }
{
    for piece in Pieces(lines) {
        let _ = answer_line(book, piece);
    }
}

// Adds a line to the book and answers it; one that is cut is refused.
fn answer_line(book: &mut Book, piece: Piece) -> Result<usize, Refusal>
    ensures answered { reply_of result ≡ reply (held book.old) (read_piece piece.entry) }
    ensures grown { held book.new ≡ after (held book.old) (read_piece piece.entry) }
{
    match piece {
        Piece::Whole(line) => book.add(line),
        Piece::Cut(left) => Err(book.refuse_cut(left)),
    }
}
