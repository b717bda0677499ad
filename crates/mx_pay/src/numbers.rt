//! Amounts and sequence numbers.
ghost use Rattle.std.specs.Prelude.{◌≡◌, ◌+◌, ◌<◌, ◌≤◌, ◌^◌, Some, None, nat_le, if◌then◌else◌};
ghost use Rattle.mx_pay.specs.Limits.{most_amount, most_number};

use std::marker::Model;

/// The most of one amount, 10^12.
pub const MOST_AMOUNT: u64 = 1_000_000_000_000;

/// The most of a balance, a float, a sum of grants, and of each number that counts: a sequence number, the number
/// of a message, and how many lines a purse has before an operation. It is 10^15.
pub const MOST_NUMBER: u64 = 1_000_000_000_000_000;

/// The amount of one request or payment, from 0 to 10^12. A contract sees it as a number.
#[derive(Clone, Copy, PartialEq, Eq, PartialOrd, Ord)]
pub struct Amount {
    value: u64,
}

impl Model for Amount {
    ghost use Rattle.std.specs.Prelude.{ℕ, ◌≤◌};
    ghost use Rattle.mx_pay.specs.Limits.{most_amount};

    ghost Value = { ℕ };

    ghost view = { λ a. a.value };

    ghost invariant = { λ a. a.value ≤ most_amount };

    ghost inverse = { λ n. record { value = n } };
}

impl Amount {
    /// The amount `value`. None exactly where `value` is above 10^12.
    pub fn new(value: u64) -> Option<Amount>
        ensures { result ≡ (if nat_le value most_amount then Some value else None) }
    {
        if value <= MOST_AMOUNT {
            Some(Amount { value })
        } else {
            None
        }
    }

    /// The amount as a number, from 0 to 10^12.
    pub fn get(self) -> u64
        ensures value { result ≡ self }
        ensures limit { self ≤ most_amount }
    {
        self.value
    }
}

/// A sequence number of a purse, from 0 to 10^15. A contract sees it as a number.
#[derive(Clone, Copy, PartialEq, Eq, PartialOrd, Ord)]
pub struct Seq {
    number: u64,
}

impl Model for Seq {
    ghost use Rattle.std.specs.Prelude.{ℕ, ◌≤◌};
    ghost use Rattle.mx_pay.specs.Limits.{most_number};

    ghost Value = { ℕ };

    ghost view = { λ s. s.number };

    ghost invariant = { λ s. s.number ≤ most_number };

    ghost inverse = { λ n. record { number = n } };
}

impl Seq {
    /// The sequence number `value`. None exactly where `value` is above 10^15.
    pub fn new(value: u64) -> Option<Seq>
        ensures { result ≡ (if nat_le value most_number then Some value else None) }
    {
        if value <= MOST_NUMBER {
            Some(Seq { number: value })
        } else {
            None
        }
    }

    /// The sequence number as a number, from 0 to 10^15.
    pub fn get(self) -> u64
        ensures value { result ≡ self }
        ensures limit { self ≤ most_number }
    {
        self.number
    }

    /// The first sequence number, 0.
    pub fn zero() -> Seq
        ensures { result ≡ 0 }
    {
        Seq { number: 0 }
    }

    /// The sequence number after this one, which has to be below 10^15.
    pub fn next(self) -> Seq
        requires { self < most_number }
        ensures { result ≡ self + 1 }
    {
        Seq {
            number: self.number + 1,
        }
    }
}
