//! Whether a purse has sent the value of details.
ghost use Rattle.std.specs.Prelude.{◌≡◌, Some};
ghost use Rattle.mx_purse.specs.Operations.{expects_ack};
ghost use Rattle.mx_book.specs.RowTotals.{has_sent};

use crate::values::PurseRow;
use mx_pay::PayDetails;
use mx_purse::status::Status;

/// Whether the purse of a row waits for the acknowledgement of details, or has them in its log: then it has sent
/// their value, as long as the details are the purse's own.
pub fn is_sent_by(row: &PurseRow, details: &PayDetails) -> bool
    ensures { result ≡ has_sent (Some row.now) details.now }
{
    waits(row.purse.status(), details) || row.purse.log().has(details)
}

/// Whether a purse of this status waits for the acknowledgement of details.
pub fn waits(status: Status, details: &PayDetails) -> bool
    ensures { result ≡ expects_ack status details.now }
{
    match status {
        Status::Epa(paid) => paid.cmp(details).is_eq(),
        Status::EaFrom | Status::EaTo | Status::Epr(_) | Status::Epv(_) => false,
    }
}
