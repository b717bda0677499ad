//! Members.
ghost use Rattle.std.specs.Prelude.{◌≡◌, ◌≤◌, IfErr, IfOk, IfSome, is_ok, map, option_map, true};
ghost use Rattle.mx_book.specs.declared.values.MemberRow.{MemberRow};
ghost use Rattle.mx_pay.specs.Limits.{most_number};
ghost use Rattle.mx_pay.specs.Names.{is_name_text};
ghost use Rattle.std.specs.List.{AllByRecursion};
ghost use Rattle.mx_tables.specs.Answers.{Displays, text_shown};
ghost use Rattle.std.specs.FinMap as fmap;
ghost use Rattle.sqlite_value.specs.Order.{column};
ghost use Rattle.sqlite_value.specs.declared.value.Value.TheVariants.{Text};
ghost use Rattle.mx_cells.specs.Cells.{number, first_two, member_shown};
ghost use Rattle.mx_tables.specs.States.{Asks, IsForMemory, Writes, Tells};
ghost use Rattle.mx_book.specs.Reads.{members_of};

use crate::asking::{About, ask, ask_about, run, run_one};
use crate::given;
use mx_book::{MemberRow, StoreFault};
use mx_cells::cells::name_at;
use mx_cells::shown::member_in;
use mx_pay::{MOST_NUMBER, Name};
use sqlite::{Alter, Connection, Row, Savepoint};
use std::alloc::Global;

/// What a row says of a member, where there is a row: its grants and its float.
fn member_found(row: Option<Row>) -> Result<Option<MemberRow>, StoreFault>
    ensures is { IfOk result (λ m. option_map first_two row ≡ option_map member_shown m) }
    ensures there { IfSome row
        (λ c. (x : MemberRow) × (x.granted ≤ most_number) × (x.float ≤ most_number)
        × (column c 0 ≡ number x.granted) × (column c 1 ≡ number x.float))
        → is_ok result ≡ true }
{
    match row {
        Some(row) => Ok(Some(member_in(&row)?)),
        None => Ok(None),
    }
}

/// The grants and the float of a member, or None where there is no such member.
pub fn find_member<S: Alter>(
    conn: &mut Connection<S>,
    name: &Name,
) -> Result<Option<MemberRow>, StoreFault>
    ensures { Asks S.Store conn.old conn.new result
        (λ r v. v ≡ fmap.get r.members name.now) }
{
    member_found(ask_about(conn, About::Member, name)?)
}

/// Adds a member with grants 0 and float 0.
pub fn insert_member<S: Alter>(tx: &mut Savepoint<'_, S>, name: &Name) -> Result<(), StoreFault>
    ensures { Writes S.Store tx.old tx.new result
        (λ r. record r {
          members = fmap.insert r.members name.now
              (record { granted = 0; float = 0 });
        }) }
{
    run(
        tx,
        "INSERT INTO member (name, granted, unspent) VALUES (?1, 0, 0)",
        &[given::text(name.as_str())],
    )
}

/// The names in the first columns of rows.
pub fn names_in(alloc: Global, rows: &[Row]) -> Result<Vec<Name>, StoreFault>
    ensures is { IfOk result (λ names. map (λ r. column r 0) rows.now ≡ map Text names.items) }
    ensures there { AllByRecursion (Displays (λ n. is_name_text n ≡ true) text_shown) rows.now
        → IfErr result IsForMemory }
{
    let mut names = Vec::new(alloc);
    for row in rows {
        let name = name_at(row, 0)?;
        names.push(name)?;
    }
    Ok(names)
}

/// The names of the members, in order.
pub fn list_members<S: Alter>(
    alloc: Global,
    conn: &mut Connection<S>,
) -> Result<Vec<Name>, StoreFault>
    ensures { Tells S.Store conn.old conn.new result (λ w v. v.items ≡ members_of w) }
{
    let rows = ask(conn, "SELECT name FROM member ORDER BY name", &[])?;
    names_in(alloc, &rows)
}

/// Sets what is kept of a member that is there. Store where a number is above 10^15.
pub fn update_member<S: Alter>(
    tx: &mut Savepoint<'_, S>,
    name: &Name,
    granted: u64,
    float: u64,
) -> Result<(), StoreFault>
    ensures { Writes S.Store tx.old tx.new result
        (λ r. record r {
          members = fmap.insert r.members name.now
              (record { granted = granted; float = float });
        }) }
{
    if granted > MOST_NUMBER || float > MOST_NUMBER {
        return Err(StoreFault::Store);
    }
    run_one(
        tx,
        "UPDATE member SET granted = ?2, unspent = ?3 WHERE name = ?1",
        &[
            given::text(name.as_str()),
            given::number(granted),
            given::number(float),
        ],
    )
}
