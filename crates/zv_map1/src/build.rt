// How a map is made.
ghost use Rattle.std.specs.Prelude.{◌≡◌, ◌*◌, ◌||◌, ◌&&◌, ◌==◌, ◌≤◌, [], length, zip, IsTrue, IfOk};
ghost use Rattle.std.specs.Prelude.{IfSome};
ghost use Rattle.std.specs.Prelude.{OnErr, OnOk, false, is_some};
ghost use Rattle.std.specs.Result.{result_err};
ghost use Rattle.zv_map.specs.Views.{bytes_of};
ghost use Rattle.zv_map1.specs.Borrowed.{pairs_of};
ghost use Rattle.zv_map1.specs.Building.{columns_fault};
ghost use Rattle.zv_map1.specs.Room.{CanGrowBy, IsSameMap, KeepsRoom};

use crate::borrowed::ZeroMapBorrowed;
use crate::error::VecsError;
use crate::map::MapOver;
use std::alloc::Global;
use std::marker::PhantomData;
use zv_map::{MutableZeroVecLike, ZeroVecSearch, ZvContainer};
use zv_ule::{NoMemory, UsableKind, ZvKind, ZvOrd};

impl<K: ZvOrd, V: ZvKind, C: ZvContainer<K> + Drop, D: ZvContainer<V> + Drop> MapOver<K, V, C, D> {
    /// The map of no pairs. It takes no memory.
    #[tactic(auto, using(crate::proofs::Zipped::none_ascends))]
    pub fn new() -> Self
        requires keys { IsTrue K.usable }
        requires values { IsTrue V.usable }
        ensures pairs { result.pairs ≡ [] }
        ensures keys { result.keys.bytes ≡ [] }
        ensures values { result.values.bytes ≡ [] }
        ensures owned { (result.keys.owned ≡ false) × (result.values.owned ≡ false) }
        ensures spare { (result.keys.spare ≡ 0) × (result.values.spare ≡ 0) }
    {
        MapOver {
            keys: C::zvl_new(),
            values: D::zvl_new(),
            kinds: PhantomData,
        }
    }

    /// The map of these keys, each with the value at its place.
    ///
    /// # Errors
    /// `Count` where there are not as many values as keys, else `KeyOrder` where the keys don't
    /// ascend strictly. The vectors are dropped then.
    #[tactic(auto, using(zv_ule::proofs::Ascents::sorted_from_ascends))]
    pub fn from_vecs(keys: C, values: D) -> Result<Self, VecsError>
        ensures error { result_err result ≡ columns_fault K.cmp (C.list keys) (D.list values) }
        ensures pairs { IfOk result (λ m. m.pairs ≡ zip (C.list keys) (D.list values)) }
        ensures keys { IfOk result (λ m. m.keys.bytes ≡ C.bytes keys) }
        ensures values { IfOk result (λ m. m.values.bytes ≡ D.bytes values) }
        ensures owned { IfOk result (λ m. (m.keys.owned ≡ C.owned keys)
            × (m.values.owned ≡ D.owned values)) }
    {
        if keys.zvl_as_borrowed().len() != values.zvl_as_borrowed().len() {
            return Err(VecsError::Count);
        }
        if !keys.zvl_is_ascending() {
            return Err(VecsError::KeyOrder);
        }
        Ok(MapOver {
            keys,
            values,
            kinds: PhantomData,
        })
    }
}

/// The map of no pairs, as [`MapOver::new`].
impl<K, V, C, D> Default for MapOver<K, V, C, D>
where
    K: ZvOrd + UsableKind,
    V: ZvKind + UsableKind,
    C: ZvContainer<K> + Drop,
    D: ZvContainer<V> + Drop,
{
    ghost is_default = { λ m. (m.pairs ≡ []) × (m.keys.owned ≡ false) × (m.values.owned ≡ false) };

    #[inline]
    fn default() -> Self {
        MapOver::new()
    }
}

impl<K: ZvOrd, V: ZvKind, C: ZvContainer<K>, D: ZvContainer<V>> MapOver<K, V, C, D> {
    /// Takes all pairs out. It takes no memory, and keeps what memory the map has.
    #[tactic(auto, using(crate::proofs::Zipped::none_ascends))]
    pub fn clear(&mut self)
        ensures pairs { self.new.pairs ≡ [] }
        ensures keys { self.new.keys.bytes ≡ [] }
        ensures values { self.new.values.bytes ≡ [] }
        ensures room { KeepsRoom self.old self.new }
    {
        self.keys.zvl_clear();
        self.values.zvl_clear();
    }
}

impl<
    'a,
    K: ZvOrd,
    V: ZvKind,
    C: MutableZeroVecLike<'a, K> + Drop,
    D: MutableZeroVecLike<'a, V> + Drop,
> MapOver<K, V, C, D> {
    /// The map of no pairs, with room for so many whose lengths aren't known.
    pub fn with_capacity(alloc: Global, capacity: usize) -> Result<Self, NoMemory>
        requires keys { IsTrue K.usable }
        requires values { IsTrue V.usable }
        ensures pairs { IfOk result (λ m. m.pairs ≡ []) }
        ensures room { IfOk result (CanGrowBy (capacity * C.element_room)
            (capacity * D.element_room)) }
    {
        let mut map = Self::new();
        map.reserve(alloc, capacity)?;
        Ok(map)
    }

    /// Makes both vectors own their bytes, with room for so many pairs more whose lengths aren't
    /// known: four bytes and the width of a field for an element of any length.
    pub fn reserve(&mut self, alloc: Global, additional: usize) -> Result<(), NoMemory>
        ensures same { IsSameMap self.old self.new }
        ensures room { OnOk result (CanGrowBy (additional * C.element_room)
            (additional * D.element_room) self.new) }
    {
        self.keys.zvl_reserve(alloc, additional)?;
        self.values.zvl_reserve(alloc, additional)
    }

    /// A map with the same pairs, bytes, layouts and variants of its vectors.
    pub fn clone(&self, alloc: Global) -> Result<Self, NoMemory>
        ensures pairs { IfOk result (λ m. m.pairs ≡ self.now.pairs) }
        ensures keys { IfOk result (λ m. m.keys.bytes ≡ self.now.keys.bytes) }
        ensures values { IfOk result (λ m. m.values.bytes ≡ self.now.values.bytes) }
        ensures layouts { IfOk result (λ m. (m.keys.layout ≡ self.now.keys.layout)
            × (m.values.layout ≡ self.now.values.layout)) }
        ensures owned { IfOk result (λ m. (m.keys.owned ≡ self.now.keys.owned)
            × (m.values.owned ≡ self.now.values.owned)) }
    {
        Ok(MapOver {
            keys: self.keys.zvl_clone(alloc)?,
            values: self.values.zvl_clone(alloc)?,
            kinds: PhantomData,
        })
    }

    /// The map that is viewed, which borrows its bytes, or `None` where a vector has bytes and a
    /// layout that isn't its container's.
    pub fn from_borrowed(b: ZeroMapBorrowed<'a, K, V>) -> Option<Self>
        ensures fits { is_some result ≡
            ((length (bytes_of b.entry.keys) == 0 || C.has_layout b.entry.keys.layout)
            && (length (bytes_of b.entry.values) == 0 || D.has_layout b.entry.values.layout)) }
        ensures pairs { IfSome result (λ m. m.pairs ≡ pairs_of b.entry) }
        ensures keys { IfSome result (λ m. m.keys.bytes ≡ bytes_of b.entry.keys) }
        ensures values { IfSome result (λ m. m.values.bytes ≡ bytes_of b.entry.values) }
        ensures owned { IfSome result (λ m. (m.keys.owned ≡ false) × (m.values.owned ≡ false)) }
    {
        let keys = C::zvl_from_borrowed(b.keys().raw())?;
        let values = D::zvl_from_borrowed(b.values().raw())?;
        Some(MapOver {
            keys,
            values,
            kinds: PhantomData,
        })
    }
}
