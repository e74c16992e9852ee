//! Indices of keys, by 64-bit hashes.
ghost use Rattle.std.specs.Prelude.{◌≡◌, position};
ghost use Rattle.std.specs.List.{IsDistinct};
ghost use Rattle.expr_pairs.specs.Places.{AreNoted, IsSpot, key_hash};

use crate::few::index_among;
use indexmap::Equivalent;
use std::collections::BTreeMap;
use std::hash::{DefaultHasher, Hash, Hasher};

/// The index of each key, by slot.
///
/// A hash table uses only a few bits of a hash. Whoever knows the hash function finds strings that agree in these bits
/// at once. Here a slot is a whole hash. An attacker who wants two keys in one slot has to try some 2^32, and for 16
/// keys far more. The hash is SipHash-1-3, because strings with one hash of std's `FoldHasher` are known.
pub(crate) type Places = BTreeMap<u64, usize>;

/// Number of slots of a key: its hash and the numbers after it.
const SLOTS: u64 = 16;

/// Where a key is, or where it can be entered.
#[derive(Clone, Copy)]
pub(crate) enum Spot {
    /// The index of the key.
    At(usize),
    /// The key is missing. This is its first free slot.
    Free(u64),
    /// The key is missing and all its slots are taken. Such a key is entered nowhere.
    Crowded,
}

/// The hash of a key.
fn key_hash<Q: Hash>(key: &Q) -> u64
    ensures { result ≡ key_hash (Q.hash_input key.now) }
{
    let mut state = DefaultHasher::new();
    key.hash(&mut state);
    state.finish()
}

/// The spot of the key that equals the query.
pub(crate) fn spot_of<K: Eq + Hash, Q: Equivalent<K>>(keys: &[K], places: &Places, key: Q) -> Spot
    requires noted { AreNoted (λ k. key_hash (K.hash_input k)) keys.now places.now }
    requires distinct { IsDistinct K.eq keys.now }
    ensures { IsSpot (position (Q.equivalent key) keys.now) (key_hash (Q.hash_input key)) places.now result }
{
    let hash = key_hash(&key);
    for rank in 0..SLOTS {
        let slot = hash.wrapping_add(rank);
        let Some(place) = places.get(&slot) else {
            return Spot::Free(slot);
        };
        if key.equivalent(&keys[*place]) {
            return Spot::At(*place);
        }
    }
    match index_among(keys, key) {
        Some(place) => Spot::At(place),
        None => Spot::Crowded,
    }
}
