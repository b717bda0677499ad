//! The redemptions of purses.
ghost use Rattle.std.specs.Prelude.{◌≡◌, false};
ghost use Rattle.std.specs.FinMap as fmap;
ghost use Rattle.mx_book.specs.RowReads.{row_redemption_of};
ghost use Rattle.mx_tables.specs.States.{Asks, Writes};

use crate::asking::{ask_one, run_one};
use crate::given;
use mx_book::StoreFault;
use mx_cells::cells::amount_in;
use mx_pay::{Amount, Name};
use sqlite::{Alter, Connection, Savepoint};

/// Adds a redemption of a purse, which isn't collected.
pub fn insert_redemption<S: Alter>(
    tx: &mut Savepoint<'_, S>,
    purse: &Name,
    reference: &Name,
    amount: Amount,
) -> Result<(), StoreFault>
    ensures { Writes S.Store tx.old tx.new result
        (λ r. record r {
          redemptions = fmap.insert r.redemptions
              (purse.now, reference.now) (record { amount = amount; collected = false });
        }) }
{
    run_one(
        tx,
        "INSERT INTO redemption (purse, reference, amount, collected) VALUES (?1, ?2, ?3, 0)",
        &[
            given::text(purse.as_str()),
            given::text(reference.as_str()),
            given::number(amount.get()),
        ],
    )
}

/// The amount of the redemption of a purse with that reference, or None where there is none.
pub fn find_redemption<S: Alter>(
    conn: &mut Connection<S>,
    purse: &Name,
    reference: &Name,
) -> Result<Option<Amount>, StoreFault>
    ensures { Asks S.Store conn.old conn.new result
        (λ r v. v ≡ row_redemption_of r purse.now reference.now) }
{
    let row = ask_one(
        conn,
        "SELECT amount FROM redemption WHERE purse = ?1 AND reference = ?2",
        &[given::text(purse.as_str()), given::text(reference.as_str())],
    )?;
    amount_in(row)
}
