//! The status of a purse.
use mx_pay::PayDetails;

/// Where a purse stands in a payment, and the details of that payment. At rest it keeps no details.
#[derive(Clone, Copy)]
pub enum Status {
    /// At rest, in every case but that of `EaTo`: it is new, its payment was acknowledged, or it aborted.
    EaFrom,
    /// At rest: it was paid, and hasn't aborted since.
    EaTo,
    /// It is to pay these details, and expects the request for them.
    Epr(PayDetails),
    /// It is to be paid these details, and expects the value.
    Epv(PayDetails),
    /// It has paid these details, and expects the acknowledgement.
    Epa(PayDetails),
}
