//! Payment details.
ghost use Rattle.std.specs.Prelude.{◌≡◌, IsNone, IfSome, ◌↔◌};
ghost use Rattle.mx_pay.specs.Details.{IsDetails};

use crate::names::{Name, same_name};
use crate::numbers::{Amount, Seq};
use std::marker::Model;

/// Payment details: who pays whom how much, and the sequence number that each of the two purses has for the
/// payment. The two names differ. Details are ordered by their fields, in the order in which they stand here.
#[derive(Clone, Copy, PartialEq, Eq, PartialOrd, Ord)]
pub struct PayDetails {
    from: Name,
    to: Name,
    value: Amount,
    from_seq: Seq,
    to_seq: Seq,
}

impl Model for PayDetails {
    ghost use Rattle.mx_pay.specs.Details.{Details, IsDetails, coded_details};

    ghost Value = { Details };

    ghost coded = { coded_details };

    ghost view = { λ d. record {
      from = d.from;
      to = d.to;
      value = d.value;
      from_seq = d.from_seq;
      to_seq = d.to_seq;
    } };

    ghost invariant = { λ d. IsDetails (record {
      from = d.from;
      to = d.to;
      value = d.value;
      from_seq = d.from_seq;
      to_seq = d.to_seq;
    }) };

    ghost inverse = { λ d. record {
      from = d.from;
      to = d.to;
      value = d.value;
      from_seq = d.from_seq;
      to_seq = d.to_seq;
    } };
}

impl PayDetails {
    /// The details of a payment of `value` by the purse `from` to the purse `to`, with the sequence number of
    /// each. None exactly where the two names are the same.
    pub fn new(
        from: Name,
        to: Name,
        value: Amount,
        from_seq: Seq,
        to_seq: Seq,
    ) -> Option<PayDetails>
        ensures none { IsNone result ↔ (from ≡ to) }
        ensures new { IfSome result (λ d. d ≡ record {
          from = from;
          to = to;
          value = value;
          from_seq = from_seq;
          to_seq = to_seq;
        }) }
        ensures valid { IfSome result IsDetails }
    {
        // Each reader says its value's limit.
        let _limits = (value.get(), from_seq.get(), to_seq.get());
        if same_name(&from, &to) {
            return None;
        }
        Some(PayDetails {
            from,
            to,
            value,
            from_seq,
            to_seq,
        })
    }

    /// The name of the purse that pays.
    pub fn from(&self) -> Name
        ensures value { result ≡ self.now.from }
        ensures valid { IsDetails self.now }
    {
        self.from
    }

    /// The name of the purse that is paid, another than the one that pays.
    pub fn to(&self) -> Name
        ensures value { result ≡ self.now.to }
        ensures valid { IsDetails self.now }
    {
        self.to
    }

    /// The sequence number that the purse that pays has for this payment, from 0 to 10^15.
    pub fn from_seq(&self) -> Seq
        ensures value { result ≡ self.now.from_seq }
        ensures valid { IsDetails self.now }
    {
        self.from_seq
    }

    /// The sequence number that the purse that is paid has for this payment, from 0 to 10^15.
    pub fn to_seq(&self) -> Seq
        ensures value { result ≡ self.now.to_seq }
        ensures valid { IsDetails self.now }
    {
        self.to_seq
    }

    /// How much is paid, from 0 to 10^12.
    pub fn value(&self) -> Amount
        ensures value { result ≡ self.now.value }
        ensures valid { IsDetails self.now }
    {
        self.value
    }
}
