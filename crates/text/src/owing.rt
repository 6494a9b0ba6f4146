// Writing who owes and who is owed.
ghost use Rattle.std.specs.Prelude.{◌≡◌, ◌++◌, string_bytes, OnOk};
ghost use Rattle.balances.specs.View.{sides_of};
ghost use Rattle.text.specs.Sides.{balances_said};

use crate::side::Side;
use crate::writing::write_line;
use balances::sheet::Balances;
use std::alloc::AllocError;

// Writes a line for each person who is not even, in order of persons.
pub fn write_balances(balances: &Balances, text: &mut String) -> Result<(), AllocError>
    ensures { OnOk result (string_bytes text.new ≡ string_bytes text.old ++ balances_said (sides_of balances.now)) }
{
    for (person, balance) in (0..balances.people()).zip(balances.numbers()) {
        let Some(side) = Side::of(person, *balance) else {
            continue;
        };
        write_line(text, side)?;
    }
    Ok(())
}
