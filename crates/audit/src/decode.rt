// From a payment's ten bytes to the payment, if they are in order.
ghost use Rattle.std.specs.Prelude.{◌≡◌};
ghost use Rattle.audit.specs.Bytes.{said};
ghost use Rattle.settlement.specs.Reading.{read_payment};
ghost use Rattle.std.specs.Option.{option_map};

use settlement::payment::Payment;

const MAX_PAYMENTS: usize = 1024;

const MAX_AMOUNT: u64 = 1 << 48;

// What the bytes of payment `at` say among so many people, if they are in order.
pub(crate) fn decode(people: u8, at: usize, bytes: &[u8]) -> Option<Payment>
    ensures { option_map read_payment result ≡ said people at bytes.now }
{
    let [from, to, a, b, c, d, e, f, g, h] = *bytes else {
        return None;
    };
    let amount = u64::from_le_bytes([a, b, c, d, e, f, g, h]);
    if at >= MAX_PAYMENTS
        || from >= people
        || to >= people
        || from == to
        || amount == 0
        || amount > MAX_AMOUNT
    {
        return None;
    }
    Some(Payment { from, to, amount })
}
