//! Rows in the order of their keys.

ghost use Rattle.std.specs.Prelude.{◌≡◌, true, ◌+◌, ◌<◌, ◌≤◌, OnOk, option_map};
ghost use Rattle.std.specs.declared.cmp.Ordering.TheVariants.{Equal};
ghost use Rattle.std.specs.FinMap as map;
ghost use Rattle.std.specs.FinMap.{nat_cmp-IsAntisymmetric, slice_cmp-IsAntisymmetric};
ghost use Rattle.std.proofs.lemmas.Map.Lookups.{exact_pairs};
ghost use Rattle.mx_sorted.specs.Orders.{option_exact};
ghost use Rattle.mx_sorted.specs.Slots.{map_of};
ghost use Rattle.mx_sorted.specs.Blocks.{rows_from};
ghost use Rattle.mx_sorted.specs.Left.{rows_left};
ghost use Rattle.mx_pay.specs.Orders.{details_exact};

use crate::blocks;
use crate::rows::Rows;
use mx_pay::{Name, PayDetails, Token};
use std::alloc::{AllocError, Global};
use std::marker::Model;

/// A key: keys that compare alike are one.
pub trait Key: Ord + Copy {
    ghost exact: { (x y : Self) → Self.cmp x y ≡ Equal → x ≡ y };
}

impl Key for u64 {
    ghost exact = { nat_cmp-IsAntisymmetric };
}

impl Key for Name {
    ghost exact = { slice_cmp-IsAntisymmetric nat_cmp-IsAntisymmetric };
}

impl Key for Token {
    ghost exact = { slice_cmp-IsAntisymmetric nat_cmp-IsAntisymmetric };
}

impl Key for PayDetails {
    ghost exact = { details_exact };
}

impl<A: Key> Key for Option<A> {
    ghost exact = { option_exact A.cmp A.exact };
}

impl<A: Key, B: Key> Key for (A, B) {
    ghost exact = { exact_pairs A.cmp B.cmp A.exact B.exact };
}

/// Rows whose keys strictly rise, and room for more.
#[derive(Drop)]
pub struct Table<K: Key, V> {
    /// Blocks of rows, none of them empty. Of two side by side, removals leave 8 rows or more in one.
    blocks: Vec<Vec<(K, V)>>,
    /// Empty blocks. A put takes one at most.
    spare: Vec<Vec<(K, V)>>,
}

impl<K: Key, V> Model for Table<K, V> {
    ghost use Rattle.std.specs.Vec.{vec_len};
    ghost use Rattle.mx_sorted.specs.Slots.{Slots};
    ghost use Rattle.mx_sorted.specs.Blocks.{rows_in, IsOrdered};

    ghost Value = { Slots K V };

    ghost view = { λ t. record { entries = rows_in t.blocks.items; room = vec_len t.spare } };

    ghost invariant = { λ t. IsOrdered K.cmp t.blocks t.spare };
}

impl<K: Key, V: Copy> Table<K, V> {
    pub fn new(alloc: Global) -> Self
        ensures { map_of K.cmp result ≡ map.empty }
    {
        Table {
            blocks: Vec::new(alloc),
            spare: Vec::new(alloc),
        }
    }

    /// The rows, in order.
    pub fn rows(&self) -> Rows<'_, K, V>
        ensures { rows_left result ≡ map.entries (map_of K.cmp self.now) }
    {
        blocks::all(&self.blocks)
    }

    /// The rows whose keys aren't below this one, in order.
    pub fn rows_from(&self, key: K) -> Rows<'_, K, V>
        ensures { rows_left result ≡ rows_from K.cmp key (map.entries (map_of K.cmp self.now)) }
    {
        blocks::from(&self.blocks, key)
    }

    pub fn get(&self, key: K) -> Option<&V>
        ensures { option_map (λ v. v.now) result ≡ map.get (map_of K.cmp self.now) key }
    {
        blocks::get(&self.blocks, key)
    }

    pub fn reserve(&mut self, more: usize) -> Result<(), AllocError>
        ensures map { map_of K.cmp self.new ≡ map_of K.cmp self.old }
        ensures ok { OnOk result (more ≤ self.new.room) }
    {
        blocks::reserve(&mut self.blocks, &mut self.spare, more)
    }

    pub fn put(&mut self, key: K, value: V)
        requires { 0 < self.old.room }
        ensures map { map_of K.cmp self.new ≡ map.insert (map_of K.cmp self.old) key value }
        ensures room { self.old.room ≤ self.new.room + 1 }
        ensures kept { map.contains_key (map_of K.cmp self.old) key ≡ true
            → self.old.room ≤ self.new.room }
    {
        blocks::put(&mut self.blocks, &mut self.spare, key, value);
    }

    pub fn remove(&mut self, key: K)
        ensures map { map_of K.cmp self.new ≡ map.remove (map_of K.cmp self.old) key }
        ensures room { self.old.room ≤ self.new.room }
    {
        blocks::remove(&mut self.blocks, &mut self.spare, key);
    }
}
