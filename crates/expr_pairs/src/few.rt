//! Linear search for a key.
ghost use Rattle.std.specs.Prelude.{◌≡◌, position};

use indexmap::Equivalent;
use std::hash::Hash;

/// Index of the first key that equals the query, found by comparing one after the other.
pub(crate) fn index_among<K: Eq + Hash, Q: Equivalent<K>>(keys: &[K], key: Q) -> Option<usize>
    ensures { result ≡ position (Q.equivalent key) keys.now }
{
    for at in 0..keys.len() {
        if key.equivalent(&keys[at]) {
            return Some(at);
        }
    }
    None
}
