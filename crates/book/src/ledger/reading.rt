// Reading a book: what the crates above may see of it.
ghost use Rattle.std.specs.Prelude.{◌≡◌, length};
ghost use Rattle.book.specs.Held.{entries_of, marks_of, standing, stands_at};
ghost use Rattle.book.specs.Ledger.{Sound};
ghost use Rattle.book.specs.Reading.{lines};
ghost use Rattle.book.specs.View.{held};
ghost use Rattle.std.specs.List.{slice_get};

use crate::ledger::Book;
use crate::line::{Entry, Kept};

impl Book {
    // How many people the book is for.
    pub fn people(&self) -> u8
        ensures { result ≡ (held self.now).people }
    {
        self.people
    }

    // How many lines were taken.
    pub fn len(&self) -> usize
        ensures { result ≡ length (held self.now).entries }
    {
        self.lines.len()
    }

    // The lines that were taken, by their numbers, each with whether it stands.
    pub fn lines(&self) -> &[Kept]
        ensures entries { entries_of result.now ≡ (held self.now).entries }
        ensures marks { marks_of result.now ≡ standing (held self.now).entries }
    {
        &self.lines
    }

    // The line of that number, with its weights.
    pub fn entry(&self, number: usize) -> Option<Entry>
        ensures { result ≡ slice_get (held self.now).entries number }
    {
        self.lines.get(number).map(|kept| kept.entry)
    }

    // Does the line of that number stand: it was taken, and no line took it back.
    pub fn stands(&self, number: usize) -> bool
        ensures { result ≡ stands_at (held self.now).entries number }
    {
        self.lines.get(number).is_some_and(|kept| kept.stands)
    }

    // The lines that a book holds are in order: whoever pays or is paid is there, and each bill has a weight above 0.
    #[tactic(auto, using(crate::proofs::Lookup::sound))]
    pub fn in_order(&self)
        ensures { Sound (held self.now).people (lines (held self.now).people (held self.now).entries) }
    {}
}
