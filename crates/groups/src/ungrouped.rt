// Why people were not grouped.
ghost use Rattle.std.specs.Prelude.{◌≡◌};
ghost use Rattle.groups.specs.declared.ungrouped.Ungrouped.TheVariants as variant;

use crate::short::Short;
use std::alloc::AllocError;

#[derive(Clone, Copy, Debug, PartialEq, Eq)]
pub enum Ungrouped {
    // a table has too few entries
    Short(Short),
    // no memory for the groups
    Memory,
}

impl From<Short> for Ungrouped {
    ghost from_gives = { λ short e. e ≡ variant.Short short };

    fn from(short: Short) -> Ungrouped {
        Ungrouped::Short(short)
    }
}

impl From<AllocError> for Ungrouped {
    ghost from_gives = { λ _ e. e ≡ variant.Memory };

    fn from(_: AllocError) -> Ungrouped {
        Ungrouped::Memory
    }
}
