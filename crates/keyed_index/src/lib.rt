//! Index maps and sets whose hashes are keyed by what is read.
//!
//! Whoever writes a file picks the names in it. Under a hash that is known beforehand they can be
//! picked so that all of them fall into one place, and each look-up then walks past all the
//! others. Here a hash has a key, and the key is a digest of the very bytes that the names come
//! from: it is the same in every run, and names that are picked for one key change the key.
#![tactic(auto)]

mod text_key;

use indexmap::{IndexMap, IndexSet};
pub use text_key::TextKey;

/// A map in the order of insertion, whose hashes have a key.
pub type KeyedMap<K, V> = IndexMap<K, V, TextKey>;

/// A set in the order of insertion, whose hashes have a key.
pub type KeyedSet<K> = IndexSet<K, TextKey>;
