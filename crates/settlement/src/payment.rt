// A payment of a settlement.

// So many cents from one person to another, both by number.
#[derive(Clone, Copy, Debug, PartialEq, Eq)]
pub struct Payment {
    pub from: u8,
    pub to: u8,
    pub amount: u64,
}
