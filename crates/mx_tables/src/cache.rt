//! What tables cache of their rows.
ghost use Rattle.std.specs.Prelude.{◌≡◌, ◌≤◌, ◌<◌, ◌+◌, IfSome, IsTrue, Some, is_some, length, true};
ghost use Rattle.std.specs.FinMap as fmap;
ghost use Rattle.mx_pay.specs.Names.{name_cmp};
ghost use Rattle.mx_sorted.specs.Slots.{map_of};
ghost use Rattle.mx_book.specs.Index.{IsHeld};
ghost use Rattle.mx_book.specs.Limits.{most_messages};
ghost use Rattle.mx_book.specs.RowEdits.{rewritten};
ghost use Rattle.mx_book.specs.RowReads.{of_name};
ghost use Rattle.mx_book.specs.Rows.{Rows};
ghost use Rattle.mx_book.specs.declared.edits.Edit.TheVariants.{NewPurse};
ghost use Rattle.mx_memory.specs.Due.{is_fit};
ghost use Rattle.mx_tables.specs.Cached.{Agrees, Changes, IsDue, Replaces, due_of, index_of};

use crate::due::Due;
use mx_book::held::Held;
use mx_book::{Edit, MOST_MESSAGES, PurseRow};
use mx_pay::Name;
use mx_purse::Purse;
use mx_sorted::Table;
use std::alloc::Global;

/// So many purses, inboxes and messages are cached before all of them are forgotten.
const MOST_CACHED: u32 = 1024;

/// A write-through cache of the rows: a read that misses it fills it, and each edit is followed in it.
#[derive(Drop)]
pub struct Cache {
    alloc: Global,
    // The purses of each holder, once they were asked for.
    owners: Option<Held>,
    // The redemptions that aren't collected, once they were asked for.
    due: Option<Due>,
    // Purses, each with its holder and the number of its next message.
    purses: Table<Name, PurseRow>,
    // How many messages lie in an inbox at most.
    inboxes: Table<Name, usize>,
    // The keys of messages that are there.
    messages: Table<(Name, u64), ()>,
    // How many more have room.
    room: u32,
}

/// Puts another value in the place of a name's, or forgets it: where there is none, or no memory for it.
fn replace<V: Copy>(table: &mut Table<Name, V>, name: Name, value: Option<V>)
    ensures { Replaces (map_of name_cmp table.old) (map_of name_cmp table.new) name value }
{
    let Some(value) = value else {
        table.remove(name);
        return;
    };
    if table.reserve(1).is_err() {
        table.remove(name);
        return;
    }
    table.put(name, value);
}

/// Sets a purse.
fn set_purse(purses: &mut Table<Name, PurseRow>, purse: &Purse)
    ensures { Changes (map_of name_cmp purses.old) (map_of name_cmp purses.new) purse.now.name
        (λ x. record x { purse = purse.now }) }
{
    let name = purse.name();
    let Some(row) = purses.get(name).copied() else {
        return;
    };
    let purse = *purse;
    replace(purses, name, Some(PurseRow { purse, ..row }));
}

/// Raises the number of a purse's next message by one.
fn raise_next(purses: &mut Table<Name, PurseRow>, purse: Name)
    ensures { Changes (map_of name_cmp purses.old) (map_of name_cmp purses.new) purse
        (λ x. record x { next_message = x.next_message + 1 }) }
{
    let Some(row) = purses.get(purse).copied() else {
        return;
    };
    let raised = match row.next_message.checked_add(1) {
        Some(next_message) => Some(PurseRow {
            next_message,
            ..row
        }),
        None => None,
    };
    replace(purses, purse, raised);
}

/// Counts one message more in an inbox.
fn count_more(inboxes: &mut Table<Name, usize>, purse: Name)
    ensures { Changes (map_of name_cmp inboxes.old) (map_of name_cmp inboxes.new) purse
        (λ n. n + 1) }
{
    if let Some(most) = inboxes.get(purse).copied() {
        replace(inboxes, purse, most.checked_add(1));
    }
}

impl Cache {
    /// A cache of nothing.
    pub fn new(alloc: Global) -> Cache
        ensures { (r : Rows) → Agrees r result }
    {
        Cache {
            alloc,
            owners: None,
            due: None,
            purses: Table::new(alloc),
            inboxes: Table::new(alloc),
            messages: Table::new(alloc),
            room: MOST_CACHED,
        }
    }

    /// The allocator.
    pub fn alloc(&self) -> Global {
        self.alloc
    }

    /// Forgets all that is cached.
    pub fn invalidate(&mut self)
        ensures { (r : Rows) → Agrees r self.new }
    {
        *self = Cache::new(self.alloc);
    }

    /// Makes room for one more: where there is none, purses, inboxes and messages are forgotten.
    fn make_room(&mut self)
        ensures { (r : Rows) → Agrees r self.old → Agrees r self.new }
    {
        if self.room > 0 {
            self.room -= 1;
            return;
        }
        self.purses = Table::new(self.alloc);
        self.inboxes = Table::new(self.alloc);
        self.messages = Table::new(self.alloc);
        self.room = MOST_CACHED;
    }

    /// The purses of each holder, which are cached no more.
    pub fn take_owners(&mut self) -> Option<Held>
        ensures { (r : Rows) → Agrees r self.old → Agrees r self.new
            × IfSome result (λ held. IsHeld r.purses (index_of held)) }
    {
        self.owners.take()
    }

    /// Caches the purses of each holder.
    pub fn fill_owners(&mut self, owners: Held)
        ensures { (r : Rows) → IsHeld r.purses (index_of owners) → Agrees r self.old
            → Agrees r self.new }
    {
        self.owners = Some(owners);
    }

    /// The redemptions that aren't collected, which are cached no more.
    pub fn take_due(&mut self) -> Option<Due>
        ensures { (r : Rows) → Agrees r self.old
            → ((redemptions : _) → Agrees (record r { redemptions = redemptions }) self.new)
            × IfSome result (λ due. IsDue r (due_of due)) }
    {
        self.due.take()
    }

    /// Caches the redemptions that aren't collected.
    pub fn fill_due(&mut self, due: Due)
        ensures { (r : Rows) → IsDue r (due_of due) → Agrees r self.old → Agrees r self.new }
    {
        self.due = Some(due);
    }

    /// A purse, with its holder and the number of its next message.
    pub fn purse(&self, name: &Name) -> Option<PurseRow>
        ensures { (r : Rows) → Agrees r self.now
            → IfSome result (λ x. fmap.get r.purses name.now ≡ Some x) }
    {
        self.purses.get(*name).copied()
    }

    /// Caches a purse, where there is memory for it.
    pub fn fill_purse(&mut self, name: Name, row: &PurseRow)
        ensures { (r : Rows) → fmap.get r.purses name ≡ Some row.now → Agrees r self.old
            → Agrees r self.new }
    {
        self.make_room();
        replace(&mut self.purses, name, Some(*row));
    }

    /// Whether it is known that fewer than 32 messages lie in an inbox.
    pub fn has_room(&self, purse: &Name) -> bool
        ensures { (r : Rows) → Agrees r self.now → IsTrue result
            → length (of_name purse.now (fmap.entries r.inbox)) < most_messages }
    {
        match self.inboxes.get(*purse) {
            Some(most) => *most < MOST_MESSAGES,
            None => false,
        }
    }

    /// Caches how many messages lie in an inbox, where there is memory for it.
    pub fn fill_inbox(&mut self, purse: Name, held: usize)
        ensures { (r : Rows) → length (of_name purse (fmap.entries r.inbox)) ≤ held
            → Agrees r self.old → Agrees r self.new }
    {
        self.make_room();
        replace(&mut self.inboxes, purse, Some(held));
    }

    /// Whether it is known that a message of this number lies in an inbox.
    pub fn has_message(&self, purse: &Name, number: u64) -> bool
        ensures { (r : Rows) → Agrees r self.now → IsTrue result
            → is_some (fmap.get r.inbox (purse.now, number)) ≡ true }
    {
        self.messages.get((*purse, number)).is_some()
    }

    /// Caches that a message of this number lies in an inbox, where there is memory for it.
    pub fn fill_message(&mut self, purse: Name, number: u64)
        ensures { (r : Rows) → is_some (fmap.get r.inbox (purse, number)) ≡ true
            → Agrees r self.old → Agrees r self.new }
    {
        self.make_room();
        if self.messages.reserve(1).is_ok() {
            self.messages.put((purse, number), ());
        }
    }

    /// The number that the message gets which an edit adds, where it is known.
    pub fn number_for(&self, edit: &Edit) -> Option<u64> {
        match edit {
            Edit::AddMessage { purse, .. } => Some(self.purses.get(*purse)?.next_message),
            _ => None,
        }
    }

    /// A purse that is new comes under its holder, or the purses of each holder are forgotten.
    fn add_owner(&mut self, purse: Name, holder: Name)
        ensures { (r : Rows) → IsTrue (is_fit r (NewPurse purse holder)) → Agrees r self.old
            → Agrees (rewritten r (NewPurse purse holder)) self.new }
    {
        let Some(mut owners) = self.owners.take() else {
            return;
        };
        if owners.reserve(1).is_ok() {
            owners.put((holder, Some(purse)), ());
            self.owners = Some(owners);
        }
    }

    /// Follows an edit of the rows. What there is no memory for is forgotten.
    pub fn follow(&mut self, edit: &Edit)
        ensures { (r : Rows) → IsTrue (is_fit r edit.now) → Agrees r self.old
            → Agrees (rewritten r edit.now) self.new }
    {
        match edit {
            Edit::NewPurse { purse, holder } => self.add_owner(*purse, *holder),
            Edit::SetPurse { purse } => set_purse(&mut self.purses, purse),
            Edit::AddMessage { purse, .. } => {
                raise_next(&mut self.purses, *purse);
                count_more(&mut self.inboxes, *purse);
            }
            Edit::DropMessage { purse, number } => self.messages.remove((*purse, *number)),
            Edit::AddRedemption { .. } => self.due = None,
            Edit::Collect { .. } => self.due = None,
            _ => {}
        }
    }
}
