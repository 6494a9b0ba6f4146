// Groups of people that come out even: how many there can be, and which they are by rule.
#![tactic(auto)]

mod crew;
pub mod filling;
mod fixing;
pub mod grouping;
pub mod sets;
pub mod short;
#[cfg(test)]
mod tests;
pub mod ungrouped;

ghost use Rattle.groups.specs.Crews.{CrewsGrouped};
ghost use Rattle.groups.specs.Theorems.{FixedGroups, FixedPart, GreatestCount, GreatestGroups, GreatestSigned};

// The count of a set is the greatest number of disjoint groups inside it.
pub fn greatest_count()
    ensures { GreatestCount }
{}

// The count of all people is the greatest number of groups of their balances, signed.
pub fn greatest_signed()
    ensures { GreatestSigned }
{}

// The same of any balances that come out even.
pub fn greatest_groups()
    ensures { GreatestGroups }
{}

// The fixed groups part the open people into as many groups as can be.
pub fn fixed_groups()
    ensures { FixedGroups }
{}

// As tests on people they part the balances' open people, and no parting has more.
pub fn fixed_part()
    ensures { FixedPart }
{}

// The example crews have the groups that are written down for them.
pub fn crews_grouped()
    ensures { CrewsGrouped }
{}
