// Sets of at most sixteen people as the bits of a number.
ghost use Rattle.std.specs.Prelude.{◌≡◌, ℕ, ◌+◌, ◌^◌, ◌<◌, true, MatchOption};
ghost use Rattle.std.specs.Iterator.{at_most};
ghost use Rattle.groups.specs.Sets.{is_in, smallest, subset_below, without};

// Is the person in the set? Nobody from 32 on is.
pub fn has_person(set: u32, person: u8) -> bool
    ensures { result ≡ is_in set person }
{
    person < 32 && (set >> person) % 2 == 1
}

// The set without person `i`, who is in it.
pub(crate) fn take_out(set: u32, i: u32) -> u32
    requires bit { i < 32 }
    requires member { is_in set i ≡ true }
    ensures { result ≡ without set i }
{
    set - (1 << i)
}

// The smallest person of a set, of however many people.
pub(crate) fn lowest(set: u32) -> u32
    requires { 0 < set }
    ensures { (n : ℕ) → set < 2 ^ n → result ≡ smallest n set }
{
    set.trailing_zeros()
}

// The set without its smallest person, by a mask.
pub(crate) fn without_lowest(set: u32) -> u32
    requires { 0 < set }
    ensures { (n : ℕ) → set < 2 ^ n → result ≡ without set (smallest n set) }
{
    set & (set - 1)
}

// The people of a set who are left, the smallest first. A `for` goes over them, and over subsets: a closure in a chain
// would not know that they are of the set.
#[derive(Drop)]
pub(crate) struct People(pub(crate) u32);

impl Iterator for People {
    type Item = u32;

    ghost next_gives = { λ before given after. MatchOption given ((before.0 ≡ 0) × (after ≡ before))
        (λ person. (is_in before.0 person ≡ true) × (person ≡ smallest 32 before.0) × (after.0 ≡ without before.0 person)) };

    ghost remaining = { λ people. at_most people.0 };

    fn next(&mut self) -> Option<u32> {
        let set = self.0;
        if set == 0 {
            return None;
        }
        self.0 = without_lowest(set);
        Some(lowest(set))
    }
}

// The subsets of a set that are less than `below`, the largest number first.
#[derive(Drop)]
pub(crate) struct Subsets {
    set: u32,
    below: u32,
}

impl Subsets {
    // All of them, the set itself first. Not `From`, which may ask nothing of the set.
    pub(crate) fn of(set: u32) -> Subsets
        requires { set < u32.MAX }
        ensures whole { result.set ≡ set }
        ensures all { result.below ≡ set + 1 }
    {
        Subsets {
            set,
            below: set + 1,
        }
    }
}

impl Iterator for Subsets {
    type Item = u32;

    ghost next_gives = { λ before given after. (given ≡ subset_below before.set before.below)
        × MatchOption given (after ≡ before) (λ subset. (after.set ≡ before.set) × (after.below ≡ subset)) };

    ghost remaining = { λ left. at_most left.below };

    fn next(&mut self) -> Option<u32> {
        let under = self.below.checked_sub(1)?;
        self.below = under & self.set;
        Some(self.below)
    }
}
