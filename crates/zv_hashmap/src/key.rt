// Keys, and the bytes that are hashed for them.
ghost use Rattle.std.specs.Prelude.{◌≡◌, ℕ, ◌+◌, ◌^◌, ◌<◌, List, length, None, IsTrue};
ghost use Rattle.std.specs.declared.cmp.Ordering.TheVariants.{Equal};
ghost use Rattle.std.proofs.lemmas.Map.Lookups.{CmpEqualImpliesEq};
ghost use Rattle.zv_ule.specs.Views.{element_of};
ghost use Rattle.zv_xxhash.specs.Digest.{xxh64};
ghost use Rattle.zv_hashmap.specs.Hashed.{Writes, key_hash};

mod lists;
mod numbers;
mod texts;
mod tuples;

use zv_ule::{AsULE, VarBox, VarRef, ZvArg, ZvKind, ZvOrd};
use zv_xxhash::XxHash64;

/// The seed of the hashes of keys.
const SEED: u64 = 0xaabb_ccdd;

/// A kind whose elements can be keys of a hash table.
pub trait HashBytes: ZvOrd {
    /// The bytes that are hashed for an element.
    ghost hashed: { List ℕ → List ℕ };

    /// Writes an element to a hasher.
    fn hash_element(element: &[u8], hasher: &mut XxHash64)
        requires usable { IsTrue Self.usable }
        requires spells { Self.fault element.now ≡ None }
        ensures { Writes hasher.old hasher.new (hashed element.now) };

    /// The hash of an element: XXH64 of the bytes that are hashed for it.
    #[inline]
    fn element_hash(element: &[u8]) -> u64
        requires usable { IsTrue Self.usable }
        requires spells { Self.fault element.now ≡ None }
        ensures { result ≡ key_hash hashed element.now }
    {
        let mut hasher = XxHash64::with_seed(SEED);
        Self::hash_element(element, &mut hasher);
        hasher.finish()
    }

    /// For elements that compare Equal the same bytes are hashed. It holds of all lists of numbers,
    /// as the laws of orders do.
    ghost alike: { (a b : List ℕ) → Self.cmp a b ≡ Equal → hashed a ≡ hashed b };
}

/// An argument that can be looked up in a hash table: it is hashed as the element that would be
/// written for it, and nothing is written.
pub trait HashArg<K: HashBytes>: ZvArg<K> {
    /// Writes the argument to a hasher.
    fn hash_arg(&self, hasher: &mut XxHash64)
        requires usable { IsTrue K.usable }
        requires below { length (Self.bytes self.now) < 2 ^ 64 }
        ensures { Writes hasher.old hasher.new (K.hashed (Self.bytes self.now)) };

    /// The hash of the argument.
    #[inline]
    fn arg_hash(&self) -> u64
        requires usable { IsTrue K.usable }
        requires below { length (Self.bytes self.now) < 2 ^ 64 }
        ensures { result ≡ key_hash K.hashed (Self.bytes self.now) }
    {
        let mut hasher = XxHash64::with_seed(SEED);
        self.hash_arg(&mut hasher);
        hasher.finish()
    }
}

/// A type of fixed width whose values can be keys, and parts of keys. Values that compare Equal are
/// the same value.
pub trait FixedKey: AsULE + Ord + HashBytes {
    /// The bytes that are hashed for a value.
    ghost hashed_value: { Self → List ℕ };

    /// Writes a value to a hasher.
    fn hash_value(self, hasher: &mut XxHash64)
        ensures written { Writes hasher.old hasher.new (hashed_value self) }
        ensures valid { Self.AsULE.is_value self };

    /// An element is hashed as its value.
    ghost by_value: { (b : List ℕ) →
        Self.hashed b ≡ hashed_value (Self.loaded (Self.ULE.value b)) };

    /// Values that compare Equal are the same.
    ghost exact: { CmpEqualImpliesEq Self.Ord.cmp };
}

/// Writes the bytes of an element of fixed width to a hasher, from where they lie.
#[inline]
fn hash_chunk<T: AsULE>(element: &[u8], hasher: &mut XxHash64)
    requires usable { IsTrue T.usable }
    requires spells { T.fault element.now ≡ None }
    ensures { Writes hasher.old hasher.new
        (T.ULE.chunk (T.stored (T.loaded (T.ULE.value element.now)))) }
{
    hasher.write(element);
}

impl<T: FixedKey> HashArg<T> for T {
    #[inline]
    fn hash_arg(&self, hasher: &mut XxHash64) {
        self.hash_value(hasher);
    }
}

impl<K: HashBytes> HashArg<K> for VarRef<'_, K> {
    #[inline]
    fn hash_arg(&self, hasher: &mut XxHash64) {
        K::hash_element(self.as_bytes(), hasher);
    }

    #[inline]
    fn arg_hash(&self) -> u64 {
        K::element_hash(self.as_bytes())
    }
}

impl<K: HashBytes> HashArg<K> for VarBox<K> {
    #[inline]
    fn hash_arg(&self, hasher: &mut XxHash64) {
        K::hash_element(self.as_bytes(), hasher);
    }

    #[inline]
    fn arg_hash(&self) -> u64 {
        K::element_hash(self.as_bytes())
    }
}

/// The hash of a key: XXH64 of the bytes that are hashed for it.
#[inline]
pub fn compute_hash<K: HashBytes, Q: HashArg<K>>(key: &Q) -> u64
    requires usable { IsTrue K.usable }
    requires below { length (Q.bytes key.now) < 2 ^ 64 }
    ensures { result ≡ key_hash K.hashed (Q.bytes key.now) }
{
    key.arg_hash()
}
