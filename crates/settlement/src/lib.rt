// Settlements: how few payments and how little money settle balances, proved of every list of payments.
#![tactic(auto)]

mod paying;
pub mod payment;
pub mod settling;
mod sides;

ghost use Rattle.settlement.specs.Crews.{CrewsSettled};
ghost use Rattle.settlement.specs.Promise.{MoneyBound, GroupsBound, GroupsSettle, SetsSettle, SetsBest, Settled, CarriedOut};

// No settlement moves less than what is owed.
pub fn money_bound()
    ensures { MoneyBound }
{}

// No settlement has fewer payments than open people less the most groups.
pub fn groups_bound()
    ensures { GroupsBound }
{}

// Each parting into groups gives a settlement with open people less groups payments that moves what is owed.
pub fn groups_settle()
    ensures { GroupsSettle }
{}

// The first who owes paying the first who is owed, set by set, is such a settlement.
pub fn sets_settle()
    ensures { SetsSettle }
{}

// Where no parting has more groups it is best.
pub fn sets_best()
    ensures { SetsBest }
{}

// Every book in order has a best settlement.
pub fn every_book_settled()
    ensures { Settled }
{}

// A settlement carried out and written into the book leaves nothing open.
pub fn carried_out()
    ensures { CarriedOut }
{}

// The payments of example crews.
pub fn crews_settled()
    ensures { CrewsSettled }
{}
