// Making a book and adding lines to it.
ghost use Rattle.std.specs.Prelude.{◌≡◌, ◌<◌, true, not, [], ◌∷◌, ◌++◌, Some, vec_len, vec_capacity};
ghost use Rattle.book.specs.Answers.{Begins, Added};
ghost use Rattle.book.specs.Checks.{unless};
ghost use Rattle.book.specs.Codes.{code};
ghost use Rattle.book.specs.Held.{Within, entries_of, marks_of, may_return, returnable, struck};
ghost use Rattle.book.specs.Orderly.{follows};
ghost use Rattle.book.specs.Rows.{first_row, rows_of_cut};
ghost use Rattle.book.specs.View.{held, with_entry};

use crate::decode::{decode, kind_at_front};
use crate::ledger::Book;
use crate::line::{Entry, Kept, Line};
use crate::refusal::Refusal;
use shares::MAX_PEOPLE;
use std::alloc::Global;

const MAX_LINES: usize = 4096;

impl Book {
    // An empty book for so many people, with room for so many lines.
    #[tactic(auto, unfolding(crate::specs::Held::standing, crate::specs::Orderly::orderly_after))]
    pub fn new(heap: Global, people: u8, room: usize) -> Result<Book, Refusal>
        ensures { Begins people room result }
    {
        if !(1..=MAX_PEOPLE).contains(&usize::from(people)) {
            return Err(Refusal::CrewSize);
        }
        Ok(Book {
            people,
            room,
            lines: Vec::with_capacity(heap, room)?,
        })
    }

    // Takes a line and answers its number, or refuses it by the first rule that applies and leaves the book as it was.
    pub fn add(&mut self, bytes: &[u8]) -> Result<usize, Refusal>
        ensures { Added self.old bytes.now result self.new }
    {
        let number = self.lines.len();
        if number >= self.room {
            return Err(Refusal::NoRoom);
        }
        let entry = decode(self.people, bytes)?;
        let Some(entry) = self.following(entry) else {
            return Err(Refusal::CannotTakeBack);
        };
        if number >= MAX_LINES {
            return Err(Refusal::TooManyLines);
        }
        self.keep(entry);
        Ok(number)
    }

    // The refusal of a line that the input cuts short: whatever its bytes are, they are fewer than the line says.
    #[tactic(auto, using(crate::proofs::Lookup::held_length), unfolding(crate::specs::Rows::rows_of_cut))]
    pub fn refuse_cut(&self, bytes: &[u8]) -> Refusal
        ensures { first_row rows_of_cut (held self.now) bytes.now ≡ Some (code result) }
    {
        if self.lines.len() >= self.room {
            return Refusal::NoRoom;
        }
        if kind_at_front(bytes).is_none() {
            return Refusal::UnknownKind;
        }
        Refusal::WrongLength { found: bytes.len() }
    }

    // The entry, unless it takes back a line that cannot be taken back.
    fn following(&self, entry: Entry) -> Option<Entry>
        ensures { result ≡ unless (not (may_return (held self.now).entries entry.line)) entry }
    {
        let Line::TakeBack { number } = entry.line else {
            return Some(entry);
        };
        self.returnable(usize::from(number)).then_some(entry)
    }

    // Can the line of that number be taken back: it is there, takes nothing back and was not taken back.
    fn returnable(&self, number: usize) -> bool
        ensures { result ≡ returnable (held self.now).entries number }
    {
        self.lines.get(number).is_some_and(|kept| kept.stands
            && !matches!(kept.entry.line, Line::TakeBack { .. }))
    }

    // One line more, which may follow those that are there; the line that it takes back no longer stands.
    fn keep(&mut self, entry: Entry)
        requires room { vec_len self.old.lines < self.old.room }
        requires few { vec_len self.old.lines < 4096 }
        requires fits { follows self.old.people (held self.old).entries entry.weights entry.line ≡ true }
        ensures { held self.new ≡ with_entry (held self.old) entry }
    {
        strike(&mut self.lines, entry.line);
        self.lines.push_reserved(Kept {
            entry,
            stands: true,
        });
    }
}

// Strikes the mark of the line that this line takes back, if it takes one back.
fn strike(lines: &mut Vec<Kept>, line: Line)
    requires { Within line (vec_len lines.old) }
    ensures marks { marks_of lines.new.items ≡ struck line (marks_of lines.old.items) }
    ensures entries { entries_of lines.new.items ≡ entries_of lines.old.items }
    ensures len { vec_len lines.new ≡ vec_len lines.old }
    ensures room { vec_capacity lines.new ≡ vec_capacity lines.old }
{
    if let Line::TakeBack { number } = line {
        lines[usize::from(number)].stands = false;
    }
}
