// Balances of the lines that stand: what each person owes or is owed.
#![tactic(auto)]

pub mod amounts;
pub mod laws;
pub mod sheet;
#[cfg(test)]
mod tests;
pub mod unbalanced;
