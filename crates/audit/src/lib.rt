// The auditor: the verdict on a list of payments from elsewhere, proved against every other list.
#![tactic(auto)]

pub mod auditing;
mod decode;
mod owing;
mod tally;
#[cfg(test)]
mod tests;
pub mod unaudited;
pub mod verdict;

ghost use Rattle.audit.specs.Promise.{BestJudged, FirstOutOfOrder, JudgedFits, OnlyOne, SaysFewest, SaysLeast, SettledAudited};

// Payments are turned away at the first that is not in order, and at none where each is.
pub fn first_out_of_order()
    ensures { FirstOutOfOrder }
{}

// The verdict that is given fits the payments.
pub fn judged_fits()
    ensures { JudgedFits }
{}

// At most one verdict fits.
pub fn only_one()
    ensures { OnlyOne }
{}

// A verdict that fits has fewest in its name exactly where no settlement has fewer payments.
pub fn says_fewest()
    ensures { SaysFewest }
{}

// A verdict that fits has least in its name exactly where no settlement moves less money.
pub fn says_least()
    ensures { SaysLeast }
{}

// The verdict that fits a best settlement is that it has the fewest payments and moves the least money.
pub fn best_judged()
    ensures { BestJudged }
{}

// So is the auditor's verdict on the payments that settle a book.
pub fn settled_audited()
    ensures { SettledAudited }
{}
