// The theorems on balances, over any number of people and lines.
ghost use Rattle.balances.specs.Promise.{ComesEven, TakenBack};

// The balances of a book in order come out even.
pub fn comes_even()
    ensures { ComesEven }
{}

// A line taken back leaves what each person gave and had as without it.
pub fn taken_back()
    ensures { TakenBack }
{}
