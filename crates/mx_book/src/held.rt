//! Which purses each holder has.
ghost use Rattle.std.specs.Prelude.{◌≡◌, length, IfOk};
ghost use Rattle.mx_pay.specs.Names.{name_cmp};
ghost use Rattle.mx_book.specs.Index.{index_cmp, names_under};
ghost use Rattle.mx_sorted.specs.Slots.{map_of};

use mx_pay::Name;
use mx_pay::names::same_name;
use mx_sorted::Table;
use std::alloc::{AllocError, Global};

/// Names of purses, each under its holder. None is no purse, and comes before all of them.
pub type Held = Table<(Name, Option<Name>), ()>;

/// How many purses are under a holder.
pub fn count_held(held: &Held, holder: Name) -> usize
    ensures { result ≡ length (names_under (map_of (index_cmp name_cmp) held.now) holder) }
{
    held.rows_from((holder, None))
        .take_while(|row| same_name(&holder, &row.0.0))
        .filter_map(|row| row.0.1)
        .count()
}

/// The names of the purses under a holder, in order.
pub fn names_held(alloc: Global, held: &Held, holder: Name) -> Result<Vec<Name>, AllocError>
    ensures { IfOk result
        (λ r. r.items ≡ names_under (map_of (index_cmp name_cmp) held.now) holder) }
{
    let rows = held.rows_from((holder, None));
    rows.take_while(|row| same_name(&holder, &row.0.0))
        .filter_map(|row| row.0.1)
        .collect(alloc)
}
