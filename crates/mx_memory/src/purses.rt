//! The purses by name, with an index by holder.
ghost use Rattle.std.specs.Prelude.{◌≡◌, ◌+◌, ◌<◌, ◌≤◌, ℕ, List, length, map, false, IfOk, IfSome, OnOk, Some, option_map};
ghost use Rattle.std.specs.FinMap as map;
ghost use Rattle.mx_pay.specs.Names.{name_cmp, is_name};
ghost use Rattle.mx_book.specs.Index.{index_cmp, released};
ghost use Rattle.mx_sorted.specs.Left.{rows_left};
ghost use Rattle.mx_memory.specs.Logs.{bare_row, bare_entry, kept_log};
ghost use Rattle.mx_book.specs.RowEdits.{log_at};
ghost use Rattle.mx_book.specs.RowReads.{purse_rows_of};
ghost use Rattle.mx_sorted.specs.Slots.{map_of};
ghost use Rattle.mx_book.specs.World.{Name as NameOf};
ghost use Rattle.mx_book.specs.declared.values.PurseRow.{PurseRow as Kept};

use mx_book::held::{Held, count_held, names_held};
use mx_pay::{Log, Name};
use mx_purse::BarePurse;
use mx_purse::purse::Purse;
use mx_sorted::{Rows, Table};
use std::alloc::{AllocError, Global};
use std::marker::Model;

/// What is kept of a purse in a row of its own, but its log.
#[derive(Clone, Copy)]
pub struct BareRow {
    /// The holder of the purse.
    pub holder: Name,
    /// The purse.
    pub purse: BarePurse,
    /// The number that the next message to the purse gets.
    pub next_message: u64,
}

/// The rows of the purses, and which purses each holder has. A contract sees the rows, and how many more there is
/// room for.
#[derive(Drop)]
pub struct Purses {
    /// The rows but their logs.
    rows: Table<Name, BareRow>,
    /// The logs that have details.
    logs: Table<Name, Log>,
    /// Each purse under its holder.
    held: Held,
}

impl Model for Purses {
    ghost use Rattle.std.specs.Prelude.{List, ℕ, min};
    ghost use Rattle.std.specs.FinMap.{entries};
    ghost use Rattle.mx_pay.specs.Names.{name_cmp};
    ghost use Rattle.std.specs.Coded.{coded_list, coded_ℕ};
    ghost use Rattle.mx_book.specs.contracts.values.PurseRow as row;
    ghost use Rattle.mx_sorted.specs.Slots.{Slots, slots_code, map_of};
    ghost use Rattle.mx_book.specs.Index.{index_cmp};
    ghost use Rattle.mx_memory.specs.Logs.{AreKept, joined, all_joined};
    ghost use Rattle.mx_book.specs.declared.values.PurseRow.{PurseRow as Kept};

    ghost Value = { Slots (List ℕ) Kept };

    ghost coded = { slots_code (coded_list coded_ℕ) (row.the_row).coded };

    ghost view = { λ p. record {
      entries = joined (map_of name_cmp p.logs) (entries (map_of name_cmp p.rows));
      room = min p.rows.room (min p.logs.room p.held.room);
    } };

    ghost invariant = { λ p. AreKept (all_joined (map_of name_cmp p.rows) (map_of name_cmp p.logs))
        (map_of (index_cmp name_cmp) p.held) };
}

impl Purses {
    pub fn new(alloc: Global) -> Self
        ensures { map_of name_cmp result ≡ map.empty }
    {
        Purses {
            rows: Table::new(alloc),
            logs: Table::new(alloc),
            held: Table::new(alloc),
        }
    }

    /// The rows but their logs, in order.
    pub fn rows(&self) -> Rows<'_, Name, BareRow>
        ensures { rows_left result ≡ map bare_entry (map.entries (map_of name_cmp self.now)) }
    {
        self.rows.rows()
    }

    /// The row of a purse but its log.
    pub fn bare(&self, name: Name) -> Option<&BareRow>
        ensures { option_map (λ v. v.now) result
            ≡ option_map bare_row (map.get (map_of name_cmp self.now) name) }
    {
        self.rows.get(name)
    }

    /// The log of a purse, and an empty one where there is no such purse.
    pub fn log_of(&self, name: Name) -> Log
        ensures { result ≡ log_at (map.get (map_of name_cmp self.now) name) }
    {
        match self.rows.get(name) {
            None => Log::new(),
            Some(_) => log_kept(&self.logs, name),
        }
    }

    /// The purse of that name, which has this row.
    #[inline]
    pub fn whole(&self, name: Name, row: &BareRow) -> Purse
        requires { option_map bare_row (map.get (map_of name_cmp self.now) name) ≡ Some row.now }
        ensures { option_map (λ (x : Kept). x.purse) (map.get (map_of name_cmp self.now) name)
            ≡ Some result }
    {
        match self.logs.get(name) {
            None => row.purse.with_log(Log::new()),
            Some(log) => row.purse.with_log(*log),
        }
    }

    /// How many purses a holder has.
    pub fn count_of(&self, holder: Name) -> usize
        ensures { result ≡ length (purse_rows_of holder (map.entries (map_of name_cmp self.now))) }
    {
        count_held(&self.held, holder)
    }

    /// The names of a holder's purses, in order.
    pub fn names_of(&self, alloc: Global, holder: Name) -> Result<Vec<Name>, AllocError>
        ensures { IfOk result (λ r. r.items ≡ map (λ (e : List ℕ × Kept). e.0)
            (purse_rows_of holder (map.entries (map_of name_cmp self.now)))) }
    {
        names_held(alloc, &self.held, holder)
    }

    pub fn reserve(&mut self, more: usize) -> Result<(), AllocError>
        ensures map { map_of name_cmp self.new ≡ map_of name_cmp self.old }
        ensures ok { OnOk result (more ≤ self.new.room) }
    {
        self.rows.reserve(more)?;
        self.logs.reserve(more)?;
        self.held.reserve(more)?;
        Ok(())
    }

    /// Puts a purse with its holder, in the place of one of that name, where there is one. No message was sent to it.
    pub fn put(&mut self, name: Name, holder: Name, purse: &Purse)
        requires { 0 < self.old.room }
        ensures map { map_of name_cmp self.new ≡ map.insert (map_of name_cmp self.old) name
            (record { holder = holder; purse = purse.now; next_message = 0 }) }
        ensures room { self.old.room ≤ self.new.room + 1 }
    {
        let row = BareRow {
            holder,
            purse: purse.bare(),
            next_message: 0,
        };
        release(&mut self.held, self.rows.get(name), name);
        self.held.put((holder, Some(name)), ());
        keep_log(&mut self.logs, name, purse);
        self.rows.put(name, row);
    }

    /// Sets a purse that is there, and has this row.
    pub fn set(&mut self, name: Name, row: &BareRow, purse: &Purse)
        requires room { 0 < self.old.room }
        requires there { option_map bare_row (map.get (map_of name_cmp self.old) name)
            ≡ Some row.now }
        ensures map { IfSome (map.get (map_of name_cmp self.old) name)
            (λ x. map_of name_cmp self.new
            ≡ map.insert (map_of name_cmp self.old) name (record x { purse = purse.now })) }
        ensures room { self.old.room ≤ self.new.room + 1 }
    {
        let row = BareRow {
            purse: purse.bare(),
            ..*row
        };
        keep_log(&mut self.logs, name, purse);
        self.rows.put(name, row);
    }

    /// Gives a purse that is there, and has this row, another number for its next message.
    pub fn set_next(&mut self, name: Name, row: &BareRow, next_message: u64)
        requires room { 0 < self.old.room }
        requires there { option_map bare_row (map.get (map_of name_cmp self.old) name)
            ≡ Some row.now }
        ensures map { IfSome (map.get (map_of name_cmp self.old) name)
            (λ x. map_of name_cmp self.new
            ≡ map.insert (map_of name_cmp self.old) name
            (record x { next_message = next_message })) }
        ensures room { self.old.room ≤ self.new.room + 1 }
    {
        let row = BareRow {
            next_message,
            ..*row
        };
        self.rows.put(name, row);
    }
}

/// Takes a purse, which had this row or none, from under its holder.
fn release(held: &mut Held, before: Option<&BareRow>, name: Name)
    ensures map { map_of (index_cmp name_cmp) held.new
        ≡ released (map_of (index_cmp name_cmp) held.old)
        (option_map (λ v. v.now.holder) before.entry) name }
    ensures room { held.old.room ≤ held.new.room }
{
    if let Some(row) = before {
        held.remove((row.holder, Some(name)));
    }
}

/// The log that is kept of a purse, and an empty one where none is.
fn log_kept(logs: &Table<Name, Log>, name: Name) -> Log
    ensures { result ≡ kept_log (map.get (map_of name_cmp logs.now) name) }
{
    match logs.get(name) {
        None => Log::new(),
        Some(log) => *log,
    }
}

/// Keeps the log of a purse, where it has details.
fn keep_log(logs: &mut Table<Name, Log>, name: Name, purse: &Purse)
    requires { 0 < logs.old.room }
    ensures kept { kept_log (map.get (map_of name_cmp logs.new) name) ≡ purse.now.log }
    ensures others { (q : NameOf) → is_name q name ≡ false
        → map.get (map_of name_cmp logs.new) q ≡ map.get (map_of name_cmp logs.old) q }
    ensures room { logs.old.room ≤ logs.new.room + 1 }
{
    if purse.has_log() {
        logs.put(name, purse.log());
    } else {
        logs.remove(name);
    }
}
