//! Distinct keys in the order of insertion.
ghost use Rattle.std.specs.Prelude.{◌≡◌, ◌<◌, ◌≤◌, [], length, not, position, vec_capacity, IfOk, OnErr, OnOk};
ghost use Rattle.std.specs.List.{IsDistinct, list_any, position_or_len};
ghost use Rattle.indexmap.specs.IndexSet.{insert_key};
ghost use Rattle.expr_pairs.specs.Places.{IsKeyAt};

use crate::few::index_among;
use crate::noted::{NotedKeys, places_of};
use indexmap::{Equivalent, IndexSet};
use std::alloc::{AllocError, Global};
use std::hash::Hash;
use std::marker::Model;
use std::mem::replace;

/// The most keys that are searched one by one, which costs less than a hash.
const FEW: usize = 8;

/// The most keys that are found by a hash table. Whoever chooses the keys can make each look-up compare them all.
const TABLE: usize = 32;

/// Distinct keys in the order of insertion, which contracts see as a list.
///
/// The keys may be untrusted. Whatever they are, a look-up among many costs a hash, a search among sorted numbers and
/// one comparison.
#[derive(Drop)]
pub struct Keys<K: Eq + Hash> {
    index: Index<K>,
}

/// How keys are found.
#[derive(Drop)]
enum Index<K: Eq + Hash> {
    Table(IndexSet<K>),
    Noted(NotedKeys<K>),
}

impl<K: Eq + Hash> Model for Keys<K> {
    ghost use Rattle.std.specs.Prelude.{List};
    ghost use Rattle.std.specs.Coded.{coded_list};

    ghost Value = { List K };

    ghost coded = { coded_list K.code };

    ghost use Rattle.expr_pairs.specs.Keys.{keys_in};

    ghost view = { λ k. keys_in k.index };
}

impl<K: Eq + Hash> Keys<K> {
    /// A list without keys.
    pub fn new(alloc: Global) -> Keys<K>
        ensures { result ≡ [] }
    {
        Keys {
            index: Index::Table(IndexSet::new(alloc)),
        }
    }

    /// Number of keys.
    pub fn len(&self) -> usize
        ensures len { result ≡ length self.now }
        ensures distinct { IsDistinct K.eq self.now }
    {
        self.as_slice().len()
    }

    /// The keys, in the order of insertion.
    pub fn as_slice(&self) -> &[K]
        ensures keys { result.now ≡ self.now }
        ensures distinct { IsDistinct K.eq self.now }
    {
        match &self.index {
            Index::Table(keys) => keys.as_slice(),
            Index::Noted(keys) => keys.as_slice(),
        }
    }

    /// Index of the key that equals the query, or `None`. Few keys are compared one by one. Among more, the key is
    /// found by its hash.
    pub fn index_of<Q: Equivalent<K>>(&self, key: Q) -> Option<usize>
        ensures { result ≡ position (Q.equivalent key) self.now }
    {
        let keys = self.as_slice();
        if keys.len() > FEW {
            return self.index_by_hash(key);
        }
        index_among(keys, key)
    }

    /// Index of the key that equals the query, found by its hash. It is a function of its own so that a look-up among
    /// few keys saves no registers for it.
    #[inline(never)]
    fn index_by_hash<Q: Equivalent<K>>(&self, key: Q) -> Option<usize>
        ensures { result ≡ position (Q.equivalent key) self.now }
    {
        match &self.index {
            Index::Table(keys) => keys.get_index_of(key),
            Index::Noted(keys) => keys.index_of(key),
        }
    }
}

impl<K: Eq + Hash + Drop> Keys<K> {
    /// A list without keys, with room for `capacity`.
    pub fn with_capacity(alloc: Global, capacity: usize) -> Result<Keys<K>, AllocError>
        ensures { IfOk result (λ k. k ≡ []) }
    {
        if capacity > TABLE {
            let keys = NotedKeys::with_capacity(alloc, capacity)?;
            return Ok(Keys {
                index: Index::Noted(keys),
            });
        }
        let keys = IndexSet::with_capacity(alloc, capacity)?;
        Ok(Keys {
            index: Index::Table(keys),
        })
    }

    /// Adds a key at the end unless it is there already. Returns its index and whether it is new. If an allocation
    /// fails, the keys stay the same.
    pub fn insert_full(&mut self, key: K) -> Result<(usize, bool), AllocError>
        ensures index { IfOk result (λ r. r.0 ≡ position_or_len (K.eq key) self.old) }
        ensures added { IfOk result (λ r. r.1 ≡ not (list_any (K.eq key) self.old)) }
        ensures keys { OnOk result (self.new ≡ insert_key K.eq self.old key) }
        ensures stored { IfOk result (λ r. IsKeyAt K.eq self.new key r.0) }
        ensures within { IfOk result (λ r. r.0 < length self.new) }
        ensures distinct { OnOk result (IsDistinct K.eq self.new) }
        ensures err { OnErr result (self.new ≡ self.old) }
    {
        self.note_many()?;
        match &mut self.index {
            Index::Table(keys) => Ok(keys.insert_full(key)?),
            Index::Noted(keys) => keys.insert_full(key),
        }
    }

    /// Replaces the hash table by [`NotedKeys`] once it has as many keys as it may have.
    fn note_many(&mut self) -> Result<(), AllocError>
        ensures { self.new ≡ self.old }
    {
        let Index::Table(table) = &self.index else {
            return Ok(());
        };
        if table.len() < TABLE {
            return Ok(());
        }
        let alloc = *table.allocator();
        let places = places_of(alloc, table.as_slice())?;
        let room = Vec::with_capacity(alloc, 2 * table.len())?;
        let table = replace(&mut self.index, Index::Table(IndexSet::new(alloc)));
        if let Index::Table(table) = table {
            self.index = Index::Noted(NotedKeys::new(moved(table, room), places));
        }
        Ok(())
    }
}

impl<K: Eq + Hash + Clone + Drop> Keys<K> {
    /// Copies the keys. Nothing is hashed.
    pub fn copied(&self) -> Result<Keys<K>, AllocError>
        requires exact { (k l : K) → K.is_clone k l → l ≡ k }
        ensures { IfOk result (λ k. k ≡ self.now) }
    {
        let index = match &self.index {
            Index::Table(keys) => Index::Table(keys.clone()?),
            Index::Noted(keys) => Index::Noted(keys.copied()?),
        };
        Ok(Keys { index })
    }
}

impl<K: Eq + Hash + Drop> Keys<K> {
    /// Moves the keys out into a vector.
    pub fn into_vec(self, alloc: Global) -> Result<Vec<K>, AllocError>
        ensures keys { IfOk result (λ v. v.items ≡ self) }
        ensures distinct { IfOk result (λ v. IsDistinct K.eq v.items) }
    {
        let Keys { index } = self;
        match index {
            Index::Table(table) => {
                let room = Vec::with_capacity(alloc, table.len())?;
                Ok(moved(table, room))
            }
            Index::Noted(keys) => Ok(keys.into_vec()),
        }
    }
}

/// Moves the keys of a table into a vector that has room for them.
fn moved<K: Eq + Hash + Drop>(table: IndexSet<K>, room: Vec<K>) -> Vec<K>
    requires empty { room.items ≡ [] }
    requires room { length table.keys ≤ vec_capacity room }
    ensures { result.items ≡ table.keys }
{
    let mut keys = room;
    for key in table {
        keys.push_reserved(key);
    }
    keys
}
