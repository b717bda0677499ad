//! Stores that keep the rows of each table in the order of their numbers.
ghost use Rattle.std.specs.Prelude.{◌≡◌, IsTrue};
ghost use Rattle.sqlite.specs.Effect.{IsDatabase};
ghost use Rattle.sqlite.specs.Held.{Held, state};
ghost use Rattle.mx_audit.specs.Raw.{AreInOrder};

use sqlite::{Alter, FileStore};
use sqlite_disk::Disk;
use sqlite_trees::memory::MemStore;

/// A store that keeps the rows of each table in the order of their numbers, as far as a connection to it tells.
pub trait Ordered: Alter {
    // Of an open connection where all is committed.
    ghost in_order: { (c : Held Self) → IsTrue (state Self.Store c).is_open
        → (state Self.Store c).now ≡ (state Self.Store c).committed
        → IsDatabase (state Self.Store c).now → AreInOrder (state Self.Store c).now };
}

impl<D: Disk> Ordered for FileStore<D> {
    ghost use Rattle.mx_audit.specs.Ordered.{files_in_order};

    ghost in_order = { λ c. files_in_order c };
}

impl Ordered for MemStore {
    ghost use Rattle.mx_audit.specs.Ordered.{memory_in_order};

    ghost in_order = { λ c _ _. memory_in_order c };
}
