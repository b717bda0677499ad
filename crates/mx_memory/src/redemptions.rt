//! The redemptions of a member's purses, by an index of those that aren't collected.
ghost use Rattle.std.specs.Prelude.{◌≡◌, ◌+◌, ◌≤◌, ◌<◌, ◌&&◌, ◌||◌, not, Bool, true, false, Option, Some, None, List, ℕ, MatchOption, option_map, sum_by};
ghost use Rattle.std.specs.Ordering.{eq_by_cmp};
ghost use Rattle.std.specs.FinMap.{get, contains_key};
ghost use Rattle.mx_pay.specs.Limits.{most_amount};
ghost use Rattle.mx_pay.specs.Names.{name_cmp, is_name};
ghost use Rattle.mx_book.specs.World.{Name as NameOf, is_of};
ghost use Rattle.mx_book.specs.Under.{pair_cmp};
ghost use Rattle.mx_sorted.specs.Slots.{map_of};
ghost use Rattle.mx_sorted.specs.Blocks.{first_of};
ghost use Rattle.mx_sorted.specs.Left.{rows_left};
ghost use Rattle.mx_memory.specs.Due.{due_cmp, owed, amount_due};
ghost use Rattle.mx_book.specs.RowEdits.{member_at};
ghost use Rattle.mx_book.specs.declared.values.Redemption.{Redemption as Kept};

use crate::purses::Purses;
use mx_book::values::Redemption;
use mx_pay::Name;
use mx_pay::names::same_name;
use mx_sorted::{Rows, Table};

/// The member of a purse's holder.
pub(crate) fn member_of(purses: &Purses, holders: &Table<Name, Name>, purse: Name) -> Option<Name>
    ensures { result ≡ member_at (map_of name_cmp holders.now)
        (get (map_of name_cmp purses.now) purse) }
{
    let row = purses.bare(purse)?;
    holders.get(row.holder).copied()
}

/// Whether a purse is of a holder of the member.
pub(crate) fn is_of(purses: &Purses, holders: &Table<Name, Name>, member: Name, purse: Name) -> bool
    ensures { result ≡ is_of member (member_at (map_of name_cmp holders.now)
        (get (map_of name_cmp purses.now) purse)) }
{
    match member_of(purses, holders, purse) {
        None => false,
        Some(owner) => same_name(&member, &owner),
    }
}

/// Puts a redemption, by purse and reference, under the purse's member, where there is one.
pub(crate) fn owe(
    due: &mut Table<(Name, Option<(Name, Name)>), ()>,
    member: Option<Name>,
    key: (Name, Name),
)
    requires { 0 < due.old.room }
    ensures map { map_of due_cmp due.new ≡ owed (map_of due_cmp due.old) member key }
    ensures room { due.old.room ≤ due.new.room + 1 }
{
    if let Some(member) = member {
        due.put((member, Some(key)), ());
    }
}

/// The first redemption, by purse and reference, that is under the member.
fn first_due(due: &Table<(Name, Option<(Name, Name)>), ()>, member: Name) -> Option<(Name, Name)>
    requires { contains_key (map_of due_cmp due.now) (member, None) ≡ false }
    ensures { MatchOption result ((k : NameOf × NameOf)
        → contains_key (map_of due_cmp due.now) (member, Some k) ≡ false)
        (λ k. contains_key (map_of due_cmp due.now) (member, Some k) ≡ true) }
{
    let row = due.rows_from((member, None)).next()?;
    if same_name(&member, &row.0.0) {
        row.0.1
    } else {
        None
    }
}

/// Marks a redemption as collected.
fn collect_one(redemptions: &mut Table<(Name, Name), Redemption>, purse: Name, reference: Name)
    requires { 0 < redemptions.old.room }
    ensures made { (k : NameOf × NameOf) → get
        (map_of (pair_cmp name_cmp name_cmp) redemptions.new) k
        ≡ option_map (λ (x : Kept). record x {
          collected = x.collected || eq_by_cmp
              (pair_cmp name_cmp name_cmp) k (purse, reference);
        })
        (get (map_of (pair_cmp name_cmp name_cmp) redemptions.old) k) }
    ensures room { redemptions.old.room ≤ redemptions.new.room }
{
    if let Some(row) = redemptions.get((purse, reference)) {
        let row = Redemption {
            collected: true,
            ..*row
        };
        redemptions.put((purse, reference), row);
    }
}

/// Collects the redemptions that are under the member, which are no longer there.
pub(crate) fn collect(
    due: &mut Table<(Name, Option<(Name, Name)>), ()>,
    redemptions: &mut Table<(Name, Name), Redemption>,
    member: Name,
)
    requires keys { contains_key (map_of due_cmp due.old) (member, None) ≡ false }
    requires room { 0 < redemptions.old.room }
    ensures made { (k : NameOf × NameOf) → get
        (map_of (pair_cmp name_cmp name_cmp) redemptions.new) k
        ≡ option_map (λ (x : Kept). record x {
          collected = x.collected || contains_key
              (map_of due_cmp due.old) (member, Some k);
        })
        (get (map_of (pair_cmp name_cmp name_cmp) redemptions.old) k) }
    ensures gone { (n : NameOf) (k : Option (NameOf × NameOf))
        → contains_key (map_of due_cmp due.new) (n, k)
        ≡ (contains_key (map_of due_cmp due.old) (n, k) && not (is_name n member)) }
    ensures due_room { due.old.room ≤ due.new.room }
    ensures room { redemptions.old.room ≤ redemptions.new.room }
{
    while let Some(key) = first_due(due, member) {
        let (purse, reference) = key;
        due.remove((member, Some((purse, reference))));
        collect_one(redemptions, purse, reference);
    }
}

/// The amount of a redemption that is there, by purse and reference, and else 0.
fn amount_due(redemptions: &Table<(Name, Name), Redemption>, key: Option<(Name, Name)>) -> u64
    ensures value { result ≡ amount_due (map_of (pair_cmp name_cmp name_cmp) redemptions.now) key }
    ensures limit { result ≤ most_amount }
{
    match key {
        None => 0,
        Some(key) => match redemptions.get(key) {
            None => 0,
            Some(row) => row.amount.get(),
        },
    }
}

/// What the redemptions come to that are under the member in these rows, from the first.
#[tactic(auto, using(crate::proofs::DueLemmas::sum_more, crate::proofs::DueLemmas::sum_end))]
pub(crate) fn due_in(
    rows: Rows<'_, (Name, Option<(Name, Name)>), ()>,
    redemptions: &Table<(Name, Name), Redemption>,
    member: Name,
) -> u128
    ensures { result ≡ sum_by (λ (e : (NameOf × Option (NameOf × NameOf)) × Unit {0}). amount_due
        (map_of (pair_cmp name_cmp name_cmp) redemptions.now) e.0.1)
        (first_of member (rows_left rows.entry)) }
{
    let mut sum = 0;
    for row in rows {
        if !same_name(&member, &row.0.0) {
            return sum;
        }
        sum += amount_due(redemptions, row.0.1) as u128;
    }
    sum
}
