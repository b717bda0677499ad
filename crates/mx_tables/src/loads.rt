//! The loads of purses.
ghost use Rattle.std.specs.Prelude.{◌≡◌};
ghost use Rattle.std.specs.FinMap as fmap;
ghost use Rattle.mx_tables.specs.States.{Writes, Tells};
ghost use Rattle.mx_book.specs.Reads.{load_of};

use crate::asking::{ask_one, run_one};
use crate::given;
use mx_book::StoreFault;
use mx_cells::cells::amount_in;
use mx_pay::{Amount, Name};
use sqlite::{Alter, Connection, Savepoint};

/// Adds a load of a purse.
pub fn insert_load<S: Alter>(
    tx: &mut Savepoint<'_, S>,
    purse: &Name,
    reference: &Name,
    amount: Amount,
) -> Result<(), StoreFault>
    ensures { Writes S.Store tx.old tx.new result
        (λ r. record r { loads = fmap.insert r.loads (purse.now, reference.now) amount }) }
{
    run_one(
        tx,
        "INSERT INTO load (purse, reference, amount) VALUES (?1, ?2, ?3)",
        &[
            given::text(purse.as_str()),
            given::text(reference.as_str()),
            given::number(amount.get()),
        ],
    )
}

/// The amount of the load of a purse with that reference, or None where there is none.
pub fn find_load<S: Alter>(
    conn: &mut Connection<S>,
    purse: &Name,
    reference: &Name,
) -> Result<Option<Amount>, StoreFault>
    ensures { Tells S.Store conn.old conn.new result
        (λ w v. v ≡ load_of w purse.now reference.now) }
{
    let row = ask_one(
        conn,
        "SELECT amount FROM load WHERE purse = ?1 AND reference = ?2",
        &[given::text(purse.as_str()), given::text(reference.as_str())],
    )?;
    amount_in(row)
}
