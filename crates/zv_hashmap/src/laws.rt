// The laws of tables, each the contract of a function that does nothing.
ghost use Rattle.std.specs.Prelude.{◌≡◌, ℕ, List, length};
ghost use Rattle.zv_map.specs.Maps.{look_up};
ghost use Rattle.zv_hashmap.specs.Table.{AreHome, Table, found, pairs_of};

use crate::key::HashBytes;

/// A table in which each key leads to its own slot has for every key, stored or not, what its pairs
/// have.
pub fn home_tables<K: HashBytes>()
    ensures { (t : Table) → length t.values ≡ length t.keys → AreHome K.hashed t →
        (key : List ℕ) → found K.cmp K.hashed t key ≡ look_up K.cmp (pairs_of t) key }
{}
