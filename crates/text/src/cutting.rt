// Cutting bytes into lines, each of which stands after a byte of its length.
ghost use Rattle.std.specs.Iterator.{YieldsFirstBy, item_count};
ghost use Rattle.text.specs.Pieces.{pieces_left, read_piece};

// A line as the input has it: whole, or cut short by the input's end.
// No `Result`, as neither is an error of cutting: a cut line is still asked for its refusal, a cut payment counts as one of no bytes.
#[derive(Clone, Copy)]
pub(crate) enum Piece<'a> {
    Whole(&'a [u8]),
    Cut(&'a [u8]),
}

// The lines of the bytes that are left.
#[derive(Drop)]
pub(crate) struct Pieces<'a>(pub(crate) &'a [u8]);

impl<'a> Iterator for Pieces<'a> {
    type Item = Piece<'a>;

    ghost next_gives = { YieldsFirstBy read_piece pieces_left };

    ghost remaining = { item_count pieces_left };

    fn next(&mut self) -> Option<Piece<'a>> {
        let (length, left) = self.0.split_first()?;
        match left.split_at_checked(usize::from(*length)) {
            Some((line, rest)) => {
                self.0 = rest;
                Some(Piece::Whole(line))
            }
            None => {
                self.0 = &[];
                Some(Piece::Cut(left))
            }
        }
    }
}
