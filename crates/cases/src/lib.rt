// Tables of cases for the crates of this repository.
#![tactic(auto)]

#[cfg(test)]
mod crews;
#[cfg(test)]
mod lines;
#[cfg(test)]
mod reports;
