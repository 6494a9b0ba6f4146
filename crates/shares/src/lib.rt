// Shares of a bill by weight, in whole cents.
#![tactic(auto)]

ghost use Rattle.std.specs.Prelude.{◌≡◌, ℕ, ◌≤◌};
ghost use Rattle.shares.specs.Bill.{total, up_to, billed, all_shares};
ghost use Rattle.shares.specs.Promise.{SharesAdd, ShareNear};

// A crew is no larger; tables by person have so many entries.
pub const MAX_PEOPLE: usize = 16;

// All weights together.
fn total_weight(weights: &[u16; 16]) -> u32
    ensures { result ≡ total weights.now }
{
    weights.iter().map(|weight| u32::from(*weight)).sum()
}

// The cents of an amount that fall to a part of all weights, rounded down; 0 where all weights are 0.
fn falls_to(amount: u32, part: u32, all: u32) -> u32
    requires { part ≤ all }
    ensures { result ≡ up_to amount part all }
{
    if all == 0 {
        return 0;
    }
    (u64::from(amount) * u64::from(part) / u64::from(all)) as u32
}

// Each person's share: what falls to the weights up to and with its own, less what falls to those before it.
pub fn shares_of(amount: u32, weights: &[u16; 16]) -> [u32; 16]
    ensures { (payer : ℕ) → result ≡ all_shares (billed payer amount weights.now) }
{
    let all = total_weight(weights);
    let mut shares = [0; MAX_PEOPLE];
    let mut part = 0;
    let mut before = 0;
    // by place: a closure of `from_fn` would change `part` and `before`, and a proof knows nothing of what a loop over
    // `shares.iter_mut().zip(weights)` writes
    for (person, weight) in weights.iter().enumerate() {
        part += u32::from(*weight);
        let up_to = falls_to(amount, part, all);
        shares[person] = up_to - before;
        before = up_to;
    }
    shares
}

// The shares of a bill in order are the bill.
pub fn shares_add()
    ensures { SharesAdd }
{}

// Each share of a bill in order lies less than a cent from the exact one.
pub fn share_near()
    ensures { ShareNear }
{}

#[cfg(test)]
mod tests {
    use super::*;

    #[test]
    fn by_weight(rt: HostRuntime) {
        let cases = [
            (
                100,
                [1, 1, 1, 0, 0, 0, 0, 0, 0, 0, 0, 0, 0, 0, 0, 0],
                [33, 33, 34, 0, 0, 0, 0, 0, 0, 0, 0, 0, 0, 0, 0, 0],
            ),
            (
                100,
                [2, 0, 1, 0, 0, 0, 0, 0, 0, 0, 0, 0, 0, 0, 0, 0],
                [66, 0, 34, 0, 0, 0, 0, 0, 0, 0, 0, 0, 0, 0, 0, 0],
            ),
            (
                1,
                [1, 1, 0, 0, 0, 0, 0, 0, 0, 0, 0, 0, 0, 0, 0, 0],
                [0, 1, 0, 0, 0, 0, 0, 0, 0, 0, 0, 0, 0, 0, 0, 0],
            ),
            (100, [0; 16], [0; 16]),
        ];
        for (amount, weights, shares) in cases {
            assert_eq!(rt; shares_of(amount, &weights), shares);
        }
    }

    #[test]
    fn largest(rt: HostRuntime) {
        let mut shares = [268_435_456; 16];
        shares[0] = 268_435_455;
        assert_eq!(rt; shares_of(u32::MAX, &[u16::MAX; 16]), shares);
    }
}
