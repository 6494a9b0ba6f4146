// The answer to a line.
ghost use Rattle.std.specs.Prelude.{Some};
ghost use Rattle.text.specs.Answers.{answer_said, reply_of};

use book::refusal::Refusal;
use std::fmt;

// A line that was taken has a number; any other was refused.
#[derive(Clone, Copy)]
pub struct Answer(pub Result<usize, Refusal>);

// The answer in words, as `line 0` or `line refused 7 at 6`.
impl fmt::Display for Answer {
    ghost output = { λ a. Some (answer_said (reply_of a.0)) };

    fn fmt<W: fmt::Write>(&self, f: &mut fmt::Formatter<W>) -> fmt::Result {
        match self.0 {
            Ok(number) => write!(f, "line {number}"),
            Err(refusal) => write!(f, "line {refusal}"),
        }
    }
}
