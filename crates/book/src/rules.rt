// The theorem above the rules: what it means that a line is refused or taken.
ghost use Rattle.book.specs.Promise.{FirstRow};

// A line is refused exactly by the first row that applies, and by none exactly where none applies.
pub fn first_row_applies()
    ensures { FirstRow }
{}
