// Writing the payments that settle a book.
ghost use Rattle.std.specs.Prelude.{◌≡◌, ◌++◌, IfOk, Some, string_bytes, OnOk};
ghost use Rattle.book.specs.View.{held};
ghost use Rattle.settlement.specs.Reading.{read_payment, read_payments};
ghost use Rattle.settlement.specs.Settled.{book_lines};
ghost use Rattle.text.specs.Payments.{Settled, payment_said, payments_said};

use crate::tables::Tables;
use crate::writing::write_line;
use book::ledger::Book;
use groups::ungrouped::Ungrouped;
use settlement::payment::Payment;
use settlement::settling::settle;
use std::alloc::{AllocError, Global};
use std::fmt;

// A payment as a line says it, as `1 pays 0 23`.
#[derive(Clone, Copy)]
pub struct Pays(pub Payment);

impl fmt::Display for Pays {
    ghost output = { λ p. Some (payment_said (read_payment p.0)) };

    fn fmt<W: fmt::Write>(&self, f: &mut fmt::Formatter<W>) -> fmt::Result {
        let Payment { from, to, amount } = self.0;
        write!(f, "{from} pays {to} {amount}")
    }
}

// The payments that settle a book; the error is want of memory.
pub fn payments_of(heap: Global, book: &Book) -> Result<Vec<Payment>, AllocError>
    ensures { IfOk result (λ v. Settled (held book.now).people (book_lines (held book.now)) (read_payments v.items)) }
{
    let Tables {
        mut sums,
        mut counts,
    } = Tables::new(heap)?;
    match settle(heap, book, &mut sums, &mut counts) {
        Ok(payments) => Ok(payments),
        // an arm and no `From`, since a table that is too short is no want of memory
        Err(Ungrouped::Memory) => Err(AllocError),
        // both tables have an entry for each set
        Err(Ungrouped::Short(_)) => unreachable!(),
    }
}

// Writes a line for each payment.
pub fn write_payments(payments: &[Payment], text: &mut String) -> Result<(), AllocError>
    ensures { OnOk result (string_bytes text.new ≡ string_bytes text.old ++ payments_said (read_payments payments.now)) }
{
    for payment in payments {
        write_line(text, Pays(*payment))?;
    }
    Ok(())
}
