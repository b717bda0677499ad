//! The book on tables.
ghost use Rattle.std.specs.Prelude.{◌≡◌, ◌≢◌, ◌≤◌, false, IfOk, IfErr, MatchResult};
ghost use Rattle.std.proofs.Common.{inl, inr};
ghost use Rattle.sqlite.specs.Held.{state};
ghost use Rattle.mx_book.specs.World.{World, opening};
ghost use Rattle.mx_tables.specs.Schema.{no_schema};
ghost use Rattle.mx_tables.specs.declared.opening.OpenFault.TheVariants.{NotThisSchema};
ghost use Rattle.mx_tables.specs.Made.{HasVersion, IsUnknown};
ghost use Rattle.mx_tables.specs.States.{worry, IsOurs, Leaves, IsSound, IsHonest, StaysIdle};
ghost use Rattle.mx_tables.specs.Rounds.{IsLimited, IsSettled, LeavesBase, base_of, doubt_of, faults_of, harm_of, rows_of};
ghost use Rattle.mx_tables.specs.Steady.{deep_at, left_as_base, rest_in};
ghost use Rattle.sqlite.specs.State.{HasCleanDisk};
ghost use Rattle.sqlite.specs.Effect.{Database};
ghost use Rattle.mx_tables.specs.Holds.{SpellsOne};

use crate::cache::Cache;
use crate::due::sum_due;
use crate::edits::change_in;
use crate::holders::read_holder;
use crate::inbox::{find_message, has_message, list_inbox};
use crate::lines::{Page, list_lines};
use crate::loads::find_load;
use crate::member_sums::sum_members;
use crate::members::{find_member, list_members};
use crate::opening::{OpenFault, OpenRefused, check_office, make_office};
use crate::owners::list_purses;
use crate::purses::{finds_place, has_purse, is_own, list_purse_names, own_purse, read_account};
use crate::redemptions::find_redemption;
use crate::results::{find_archived, list_tray};
use crate::rounds::end;
use crate::settled::find_settled;
use crate::sums::{sum_member, sum_scheme};
use crate::tokens::find_caller;
use mx_book::{
    Account, Caller, Edit, HolderRow, Line, MemberRow, MemberTotals, RowBook, StoreFault, Totals,
};
use mx_pay::{Amount, Log, Name, PayDetails, Token};
use mx_purse::{Message, Purse};
use sqlite::{Alter, Connection};
use std::alloc::Global;
use std::marker::Model;

/// A book that keeps its rows in SQL tables. A contract sees what the connection holds.
#[derive(Drop)]
pub struct Tables<S: Alter> {
    alloc: Global,
    conn: Connection<S>,
    // Whether a round has begun.
    begun: bool,
    cache: Cache,
    // Whether the rows are known to spell a World.
    known: bool,
}

impl<S: Alter> Model for Tables<S> {
    ghost use Rattle.sqlite.specs.Held.{Held, held_code, state as state_of};
    ghost use Rattle.std.specs.Prelude.{Bool};
    ghost use Rattle.std.specs.Coded.{coded×, coded_bool};
    ghost use Rattle.mx_tables.specs.Cached.{Invariant};

    ghost Value = { Held S × Bool };

    ghost coded = { coded× (held_code S.code) coded_bool };

    ghost view = { λ t. (t.conn, t.begun) };

    ghost invariant = { λ t. Invariant t.begun (state_of S.Store t.conn) t.cache t.known };
}

impl<S: Alter> Tables<S> {
    /// A book of new tables, which spells the World that has nothing but this token of the operator. A store
    /// that is refused is left as it was: for want of memory; as NotThisSchema, only where tables are there; or as
    /// Store, where the store refuses a statement for another cause, or a transaction is open on it.
    pub fn create(
        alloc: Global,
        mut store: Connection<S>,
        operator: Token,
    ) -> Result<Tables<S>, OpenRefused<S>>
        ensures later { MatchResult result
            (λ t. worry (state S.Store store) ≤ worry (state S.Store t.0))
            (λ e. worry (state S.Store store) ≤ worry (state S.Store e.store)) }
        ensures opens { IfOk result
            (λ t. IsSound (state S.Store t.0)
            → SpellsOne (state S.Store t.0).now (opening operator)) }
        ensures settled { IfOk result (IsSettled S.Store) }
        ensures left { IfErr result
            (λ e. IsSound (state S.Store e.store)
            → (state S.Store e.store).now ≡ (state S.Store store).now) }
        ensures idle { store.in_transaction ≡ false → IfErr result
            (λ e. HasCleanDisk (state S.Store e.store) → e.store.in_transaction ≡ false) }
        ensures taken { IfErr result
            (λ e. e.fault ≡ NotThisSchema → (state S.Store store).now.schema ≢ no_schema) }
    {
        if !store.is_autocommit() {
            return Err(OpenRefused {
                fault: OpenFault::Store,
                store,
            });
        }
        match make_office(&mut store, &operator) {
            Ok(()) => Ok(Tables::over(alloc, store)),
            Err(fault) => Err(OpenRefused { fault, store }),
        }
    }

    /// A book of the tables that a store has. A store that is refused is left as it was: for want of memory; as
    /// NotThisSchema, only where it has no table `meta`, or its tables are those of a version, and `meta` has no row of id 1
    /// with version 2; or as Store, where the store refuses a statement for another cause, its tables are others, or a
    /// transaction is open on it.
    pub fn open(alloc: Global, mut store: Connection<S>) -> Result<Tables<S>, OpenRefused<S>>
        ensures rests { MatchResult result
            (λ t. StaysIdle (state S.Store store) (state S.Store t.0))
            (λ e. StaysIdle (state S.Store store) (state S.Store e.store)) }
        ensures settled { IfOk result (IsSettled S.Store) }
        ensures ours { IfOk result (λ t. IsOurs false (state S.Store t.0)) }
        ensures live { IfOk result
            (λ t. IsHonest (state S.Store t.0) → IsSound (state S.Store t.0)) }
        ensures known { IfOk result
            (λ t. IsSound (state S.Store t.0) → HasVersion 2 (state S.Store store).now) }
        ensures unknown { IfErr result
            (λ e. e.fault ≡ NotThisSchema → IsHonest (state S.Store e.store)
            → IsUnknown (λ _. 2) (state S.Store store).now) }
    {
        if !store.is_autocommit() {
            return Err(OpenRefused {
                fault: OpenFault::Store,
                store,
            });
        }
        match check_office(alloc, &mut store) {
            Ok(()) => Ok(Tables {
                alloc,
                conn: store,
                begun: false,
                cache: Cache::new(alloc),
                known: false,
            }),
            Err(fault) => Err(OpenRefused { fault, store }),
        }
    }

    /// A book of the tables of a store that `open` took, that was only read since, and whose rows spell a World.
    pub fn over(alloc: Global, store: Connection<S>) -> Tables<S>
        requires ours { IsOurs false (state S.Store store) }
        requires spelled { IsSound (state S.Store store)
            → (w : World) × SpellsOne (state S.Store store).now w }
        ensures same { result.0 ≡ store }
        ensures settled { IsSettled S.Store result }
    {
        Tables {
            alloc,
            conn: store,
            begun: false,
            cache: Cache::new(alloc),
            known: true,
        }
    }

    /// The connection, with its rows as they are. A book that waits for a settle is to be settled first: else what waits is
    /// in a transaction still.
    pub fn into_store(self) -> Connection<S>
        ensures same { result ≡ self.0 }
        ensures ours { IsSettled S.Store self → IsOurs false (state S.Store result) }
        ensures lasts { IsSettled S.Store self → IsSound (state S.Store result)
            → Leaves (state S.Store result) (state S.Store result).now }
        ensures idle { IsSettled S.Store self → HasCleanDisk (state S.Store result)
            → result.in_transaction ≡ false }
    {
        let Tables { conn, .. } = self;
        conn
    }
}

impl<S: Alter> RowBook for Tables<S> {
    ghost Rows = { Database };

    ghost rows = { rows_of S.Store };

    ghost spells = { SpellsOne };

    ghost doubt = { doubt_of S.Store };

    ghost base = { base_of S.Store };

    ghost harm = { harm_of S.Store };

    ghost settled = { IsSettled S.Store };

    ghost defers = { Unit {0} };

    ghost leaves = { LeavesBase S.Store };

    ghost fails = { λ _. Unit {0} };

    ghost faults = { faults_of S.Store };

    ghost limited = { IsLimited S.Store };

    fn who(&mut self, _alloc: Global, token: &Token) -> Result<Option<Caller>, StoreFault> {
        find_caller(&mut self.conn, token)
    }

    fn member(&mut self, _alloc: Global, name: Name) -> Result<Option<MemberRow>, StoreFault> {
        find_member(&mut self.conn, &name)
    }

    fn apply(&mut self, edits: &[Edit]) -> Result<(), StoreFault> {
        let done = change_in(&mut self.conn, &mut self.begun, &mut self.cache, edits);
        if done.is_err() || !self.known {
            self.cache.invalidate();
        }
        done
    }

    fn settle(&mut self) -> Result<(), StoreFault> {
        let done = end(&mut self.conn, self.begun);
        self.begun = false;
        if done.is_err() {
            self.cache.invalidate();
        }
        done
    }

    fn holder(&mut self, alloc: Global, name: Name) -> Result<Option<HolderRow>, StoreFault> {
        read_holder(alloc, &mut self.conn, &mut self.cache, &name)
    }

    fn purses(&mut self, alloc: Global) -> Result<Vec<Name>, StoreFault> {
        list_purse_names(alloc, &mut self.conn)
    }

    fn members(&mut self, alloc: Global) -> Result<Vec<Name>, StoreFault> {
        list_members(alloc, &mut self.conn)
    }

    fn purse(&mut self, _alloc: Global, name: Name) -> Result<Option<Account>, StoreFault> {
        read_account(&mut self.conn, &name)
    }

    fn has_purse(&mut self, _alloc: Global, name: Name) -> Result<bool, StoreFault> {
        has_purse(&mut self.conn, &mut self.cache, &name)
    }

    fn own_purse(
        &mut self,
        _alloc: Global,
        holder: Name,
        purse: Name,
    ) -> Result<Option<Purse>, StoreFault> {
        own_purse(&mut self.conn, &mut self.cache, &holder, &purse)
    }

    fn is_own(&mut self, _alloc: Global, holder: Name, purse: Name) -> Result<bool, StoreFault> {
        is_own(&mut self.conn, &mut self.cache, &holder, &purse)
    }

    fn finds_place(&mut self, _alloc: Global, purse: Name) -> Result<bool, StoreFault> {
        finds_place(&mut self.conn, &mut self.cache, &purse)
    }

    fn purses_of(&mut self, alloc: Global, holder: Name) -> Result<Vec<Name>, StoreFault> {
        list_purses(alloc, &mut self.conn, &mut self.cache, &holder)
    }

    fn inbox(&mut self, alloc: Global, purse: Name) -> Result<Vec<(u64, Message)>, StoreFault> {
        list_inbox(alloc, &mut self.conn, &purse)
    }

    fn message(
        &mut self,
        _alloc: Global,
        purse: Name,
        number: u64,
    ) -> Result<Option<Message>, StoreFault> {
        find_message(&mut self.conn, &mut self.cache, &purse, number)
    }

    fn has_message(
        &mut self,
        _alloc: Global,
        purse: Name,
        number: u64,
    ) -> Result<bool, StoreFault> {
        has_message(&mut self.conn, &self.cache, &purse, number)
    }

    fn lines(
        &mut self,
        alloc: Global,
        purse: Name,
        after: u64,
        most: u64,
    ) -> Result<Vec<Line>, StoreFault> {
        list_lines(alloc, &mut self.conn, &purse, Page { after, most })
    }

    fn archived(
        &mut self,
        alloc: Global,
        purse: Name,
        details: &PayDetails,
    ) -> Result<bool, StoreFault> {
        find_archived(alloc, &mut self.conn, &purse, details)
    }

    fn settled(&mut self, alloc: Global, details: &PayDetails) -> Result<bool, StoreFault> {
        find_settled(alloc, &mut self.conn, details)
    }

    fn tray(&mut self, _alloc: Global, purse: Name) -> Result<Log, StoreFault> {
        list_tray(&mut self.conn, &purse)
    }

    fn load_of(
        &mut self,
        _alloc: Global,
        purse: Name,
        reference: Name,
    ) -> Result<Option<Amount>, StoreFault> {
        find_load(&mut self.conn, &purse, &reference)
    }

    fn redemption_of(
        &mut self,
        _alloc: Global,
        purse: Name,
        reference: Name,
    ) -> Result<Option<Amount>, StoreFault> {
        find_redemption(&mut self.conn, &purse, &reference)
    }

    fn uncollected(&mut self, alloc: Global, member: Name) -> Result<u128, StoreFault> {
        sum_due(alloc, &mut self.conn, &mut self.cache, member)
    }

    fn member_totals(
        &mut self,
        alloc: Global,
        member: Name,
    ) -> Result<Option<MemberTotals>, StoreFault> {
        sum_member(alloc, &mut self.conn, &member)
    }

    fn members_totals(&mut self, alloc: Global) -> Result<Vec<(Name, MemberTotals)>, StoreFault> {
        sum_members(alloc, &mut self.conn)
    }

    fn totals(&mut self, alloc: Global) -> Result<Totals, StoreFault> {
        sum_scheme(alloc, &mut self.conn)
    }

    ghost doubted = { λ _. inr (λ _. tt) };

    ghost waits = { inl tt };

    ghost sound = { λ db w h. h.spelled.spells.sound };

    ghost single = { λ db v w h g. g.only v h.spelled };

    ghost steady = { λ t db. left_as_base _ (S.Store.settled t.0.store) db };

    ghost rest = { λ t. rest_in t.1 _ t.0.in_transaction _ _ _ };

    ghost deep = { λ t. deep_at t.1 _ t.0.in_transaction _ };
}
