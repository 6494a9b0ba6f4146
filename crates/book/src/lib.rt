// The book: lines from bytes, taken by fixed rules or turned away by the first rule that applies.
#![tactic(auto)]

mod decode;
pub mod kind;
pub mod ledger;
pub mod line;
pub mod refusal;
pub mod rules;
