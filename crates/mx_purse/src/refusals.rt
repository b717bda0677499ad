//! Why a purse refuses an operation.

/// Why a purse refuses to start a payment, in the order in which the guards are looked at: where several fail,
/// the first is answered.
#[derive(Clone, Copy, PartialEq, Eq)]
pub enum StartRefusal {
    /// The other purse of the payment would be the purse itself.
    SamePurse,
    /// The value is above the balance of the purse that is to pay it.
    NotEnough,
    /// The log that an abort leaves has 16 entries, so that the payment couldn't be logged.
    LogFull,
    /// The next sequence number is 10^15, or the purse has 10^15 statement lines or more.
    Worn,
}

/// Why a purse refuses a load, in the order in which the guards are looked at.
#[derive(Clone, Copy)]
pub enum LoadRefusal {
    /// The purse has 10^15 statement lines or more.
    Worn,
    /// The balance would be above 10^15.
    OverCap,
}

/// Why a purse refuses a redemption, in the order in which the guards are looked at.
#[derive(Clone, Copy)]
pub enum RedeemRefusal {
    /// The amount is above the balance.
    NotEnough,
    /// The purse has 10^15 statement lines or more.
    Worn,
}

/// Why a purse refuses a credit, in the order in which the guards are looked at.
#[derive(Clone, Copy)]
pub enum CreditRefusal {
    /// The purse has 10^15 statement lines or more.
    Worn,
    /// The balance would be above 10^15.
    OverCap,
}
