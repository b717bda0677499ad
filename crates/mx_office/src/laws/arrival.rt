//! The law of arrival.
ghost use Rattle.std.specs.Prelude.{ℕ, ◌≤◌};
ghost use Rattle.mx_pay.specs.Limits.{most_amount};
ghost use Rattle.mx_book.specs.World.{Row, World};
ghost use Rattle.mx_office.specs.Arrival.{Arrives, CanPay, IsPossible};
ghost use Rattle.mx_office.specs.Reachable.{IsReachable};

/// A payment can arrive: in a World that commands lead to, five commands move a value from one purse to another.
///
/// - `arrives`: where both purses are ready and the payer's balance covers the value, both starts are done, and the req,
///   the val and the ack are accepted. Then the payer has the value less, the payee has it more, both are at rest,
///   neither has logged the payment, and no other purse has changed.
/// - `possible`: commands lead to such a World, for each amount.
///
/// The call does nothing.
pub fn arrival()
    ensures arrives { (w : World) (payer payee : Row) (value : ℕ) → IsReachable w
        → CanPay w payer payee value → Arrives w payer payee value }
    ensures possible { (value : ℕ) → value ≤ most_amount → IsPossible value }
{}
