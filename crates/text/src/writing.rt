// Writing lines of text.
ghost use Rattle.std.specs.Prelude.{◌≡◌, ◌++◌, IfSome, string_bytes, OnOk};
ghost use Rattle.text.specs.Texts.{as_line};

use std::alloc::AllocError;
use std::fmt::Display;

// Adds a value and a newline to the text; the error is want of memory.
pub(crate) fn write_line<D: Display + Drop>(text: &mut String, value: D) -> Result<(), AllocError>
    ensures { OnOk result (IfSome (D.output value) (λ bs. string_bytes text.new ≡ string_bytes text.old ++ as_line bs)) }
{
    writeln!(text, "{value}")
}
