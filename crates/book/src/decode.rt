// From a line's bytes to its entry: each check hands on its value or returns the refusal.
ghost use Rattle.std.specs.Prelude.{◌≡◌, ◌≤◌, position};
ghost use Rattle.book.specs.Checks.{heavy, present, payable, some_weight, checked_bill, checked_payment, decoded};
ghost use Rattle.book.specs.Layout.{kind_of, weights_in};

use crate::kind::Kind;
use crate::line::{Entry, Line};
use crate::refusal::Refusal;
use shares::MAX_PEOPLE;
use std::array;

const MAX_AMOUNT: u32 = 1_000_000_000;

const MAX_WEIGHT: u16 = 1_000;

const NO_WEIGHTS: [u16; 16] = [0; MAX_PEOPLE];

// The entry that the bytes say for so many people, or the refusal of what is wrong in them. Each kind's pattern is as
// long as its lines are.
#[tactic(auto, unfolding(crate::specs::Checks::decoded))]
pub(crate) fn decode(people: u8, bytes: &[u8]) -> Result<Entry, Refusal>
    requires { people ≤ 16 }
    ensures { result ≡ decoded people bytes.now }
{
    let Some(kind) = kind_at_front(bytes) else {
        return Err(Refusal::UnknownKind);
    };
    match (kind, bytes) {
        (Kind::Bill, &[_, payer, a, b, c, d, ref rest @ ..])
            if rest.len() == 2 * usize::from(people) => {
            let cents = u32::from_le_bytes([a, b, c, d]);
            let (pairs, _) = rest.as_chunks::<2>();
            bill(people, payer, cents, weights(pairs))
        }
        (Kind::Payment, &[_, from, to, a, b, c, d]) => {
            payment(people, from, to, u32::from_le_bytes([a, b, c, d]))
        }
        (Kind::TakeBack, &[_, low, high]) => Ok(Entry {
            line: Line::TakeBack {
                number: u16::from_le_bytes([low, high]),
            },
            weights: NO_WEIGHTS,
        }),
        _ => Err(Refusal::WrongLength { found: bytes.len() }),
    }
}

// The kind that the first byte names; an empty line has none.
// An `Option` and not the refusal, since each check of a line returns its own by `let .. else`.
pub(crate) fn kind_at_front(bytes: &[u8]) -> Option<Kind>
    ensures { result ≡ kind_of bytes.now }
{
    let first = *bytes.first()?;
    Kind::try_from(first).ok()
}

// A bill of these values, or the first of its checks that refuses them.
fn bill(people: u8, payer: u8, cents: u32, weights: [u16; 16]) -> Result<Entry, Refusal>
    ensures { result ≡ checked_bill people payer cents weights }
{
    let Some(payer) = person(people, payer) else {
        return Err(Refusal::UnknownPerson { at: 1 });
    };
    let Some(amount) = amount(cents) else {
        return Err(Refusal::AmountOutOfRange { at: 2 });
    };
    if let Some(person) = heavy_weight(&weights) {
        return Err(Refusal::WeightTooLarge { at: 6 + 2 * person });
    }
    let Some(weights) = some_weight(weights) else {
        return Err(Refusal::NoWeight);
    };
    Ok(Entry {
        line: Line::Bill { payer, amount },
        weights,
    })
}

// A payment of these values, or the first of its checks that refuses them.
fn payment(people: u8, from: u8, to: u8, cents: u32) -> Result<Entry, Refusal>
    ensures { result ≡ checked_payment people from to cents }
{
    let Some(from) = person(people, from) else {
        return Err(Refusal::UnknownPerson { at: 1 });
    };
    let Some(to) = person(people, to) else {
        return Err(Refusal::UnknownPerson { at: 2 });
    };
    let Some(amount) = amount(cents) else {
        return Err(Refusal::AmountOutOfRange { at: 3 });
    };
    if from == to {
        return Err(Refusal::PaidToSelf);
    }
    Ok(Entry {
        line: Line::Payment { from, to, amount },
        weights: NO_WEIGHTS,
    })
}

// The person, if it is one of so many.
fn person(people: u8, person: u8) -> Option<u8>
    ensures { result ≡ present people person }
{
    (person < people).then_some(person)
}

// The amount, if it is 1 to 1,000,000,000 cents.
fn amount(cents: u32) -> Option<u32>
    ensures { result ≡ payable cents }
{
    (1..=MAX_AMOUNT).contains(&cents).then_some(cents)
}

// The weight of each person, two bytes for each, and 0 for those of sixteen who are not there.
fn weights(pairs: &[[u8; 2]]) -> [u16; 16]
    ensures { result ≡ weights_in pairs.now }
{
    array::from_fn(|person| pairs
        .get(person)
        .map_or(0, |pair| u16::from_le_bytes(*pair)))
}

// The first person whose weight is above 1,000, if there is one.
fn heavy_weight(weights: &[u16; 16]) -> Option<usize>
    ensures { result ≡ position heavy weights.now }
{
    weights.iter().position(|&weight| weight > MAX_WEIGHT)
}

// The weights, if one of them is above 0.
fn some_weight(weights: [u16; 16]) -> Option<[u16; 16]>
    ensures { result ≡ some_weight weights }
{
    weights.iter().any(|&weight| weight > 0).then_some(weights)
}
