// The book itself, with what always holds of it.
ghost use Rattle.std.specs.Prelude.{◌≡◌, ◌<◌, ◌≤◌, true, vec_len, vec_capacity};
ghost use Rattle.book.specs.Held.{entries_of, marks_of, standing};
ghost use Rattle.book.specs.Orderly.{orderly};

use crate::line::Kept;

pub mod adding;
pub mod reading;

// The lines of a crew, in the order in which they came, each with whether it stands. The room for them is reserved
// once, so that a line that is taken never wants memory; `room` is how many there may be, of which a `Vec` may reserve more.
#[derive(Drop)]
pub struct Book {
    people: u8,
    room: usize,
    lines: Vec<Kept>,
    ghost crew: { (0 < people) × (people ≤ 16) },
    ghost few: { (vec_len lines ≤ room) × (vec_len lines ≤ 4096) },
    ghost reserved: { room ≤ vec_capacity lines },
    ghost ordered: { orderly people (entries_of lines.items) ≡ true },
    ghost marked: { marks_of lines.items ≡ standing (entries_of lines.items) },
}
