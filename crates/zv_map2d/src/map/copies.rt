// Copies of a map, and its views that outlive it.
ghost use Rattle.std.specs.Prelude.{◌≡◌, ◌↔◌, ◌&&◌, IsTrue, IfOk, IfSome, false, is_some, not};
ghost use Rattle.std.specs.Prelude.{true};
ghost use Rattle.zv_map.specs.Views.{bytes_of, list_of};
ghost use Rattle.zv_map2d.specs.Borrowed.{AreTaken, IsViewedIn, is_taken, parts_in, rows_in};
ghost use Rattle.zv_map2d.specs.Views.{IsBorrowed, IsCopy, parts_of};

use crate::borrowed::ZeroMap2dBorrowed;
use crate::map::Map2dOver;
use std::alloc::Global;
use std::marker::PhantomData;
use zv_fixed::ZeroVec;
use zv_map::{KvSlice, MutableZeroVecLike};
use zv_ule::{NoMemory, ZvKind, ZvOrd};

/// A view of a list that lives as long as the bytes that the list borrows.
#[inline]
fn inner_view<'a, T: ZvKind, C: MutableZeroVecLike<'a, T>>(list: &C) -> Option<KvSlice<'a, T>>
    ensures borrowed { is_some result ≡ not (C.owned list.now) }
    ensures list { IfSome result (λ v. list_of v ≡ C.list list.now) }
    ensures bytes { IfSome result (λ v. bytes_of v ≡ C.bytes list.now) }
    ensures layout { IfSome result (λ v. v.layout ≡ C.layout list.now) }
    ensures fits { C.has_layout (C.layout list.now) ≡ true }
{
    let raw = list.zvl_as_borrowed_inner()?;
    Some(KvSlice::of_valid(raw))
}

/// The list of a view, if the view is in a layout of the list's container.
#[inline]
fn list_of_view<'a, T: ZvKind, C: MutableZeroVecLike<'a, T>>(view: KvSlice<'a, T>) -> Option<C>
    ensures fits { is_some result ≡ is_taken C.has_layout view.entry }
    ensures list { IfSome result (λ list. C.list list ≡ list_of view.entry) }
    ensures bytes { IfSome result (λ list. C.bytes list ≡ bytes_of view.entry) }
    ensures borrowed { IfSome result (λ list. C.owned list ≡ false) }
    ensures usable { IsTrue T.usable }
{
    C::zvl_from_borrowed(view.raw())
}

impl<
    'a,
    K0: ZvOrd,
    K1: ZvOrd,
    V: ZvKind,
    C0: MutableZeroVecLike<'a, K0> + Drop,
    C1: MutableZeroVecLike<'a, K1> + Drop,
    D: MutableZeroVecLike<'a, V> + Drop,
> Map2dOver<'a, K0, K1, V, C0, C1, D> {
    /// The same map as views of the bytes that it borrows, which live as long as those bytes, or
    /// `None` where a vector owns its bytes.
    pub fn as_borrowed_inner(&self) -> Option<ZeroMap2dBorrowed<'a, K0, K1, V>>
        ensures borrowed { IsTrue (is_some result) ↔ IsBorrowed self.now }
        ensures rows { IfSome result (λ b. rows_in b ≡ self.now.rows) }
        ensures parts { IfSome result (λ b. parts_in b ≡ parts_of self.now) }
        ensures layouts { IfSome result (IsViewedIn self.now) }
        ensures fits { IfSome result (AreTaken C0.has_layout C1.has_layout D.has_layout) }
    {
        let keys0 = inner_view::<K0, C0>(&self.keys0)?;
        let joiner = self.joiner.as_maybe_borrowed()?;
        let keys1 = inner_view::<K1, C1>(&self.keys1)?;
        let values = inner_view::<V, D>(&self.values)?;
        Some(ZeroMap2dBorrowed {
            keys0,
            joiner,
            keys1,
            values,
        })
    }

    /// The same map, with the same bytes, borrowed, or `None` where a view has bytes and isn't in a
    /// layout of its container.
    pub fn from_borrowed(b: ZeroMap2dBorrowed<'a, K0, K1, V>) -> Option<Self>
        ensures fits { is_some result ≡ (is_taken C0.has_layout b.entry.keys0
            && (is_taken C1.has_layout b.entry.keys1 && is_taken D.has_layout b.entry.values)) }
        ensures rows { IfSome result (λ m. m.rows ≡ rows_in b.entry) }
        ensures parts { IfSome result (λ m. parts_of m ≡ parts_in b.entry) }
        ensures borrowed { IfSome result IsBorrowed }
    {
        let keys0 = list_of_view::<K0, C0>(b.keys0)?;
        let keys1 = list_of_view::<K1, C1>(b.keys1)?;
        let values = list_of_view::<V, D>(b.values)?;
        Some(Map2dOver {
            keys0,
            joiner: ZeroVec::new_borrowed(b.joiner),
            keys1,
            values,
            kinds: PhantomData,
        })
    }

    /// A copy of the map. Each vector of it borrows its bytes where the map's does, and else owns a
    /// copy of them.
    pub fn clone(&self, alloc: Global) -> Result<Self, NoMemory>
        ensures { IfOk result (IsCopy self.now) }
    {
        let keys0 = self.keys0.zvl_clone(alloc)?;
        let joiner = self.joiner.clone(alloc)?;
        let keys1 = self.keys1.zvl_clone(alloc)?;
        let values = self.values.zvl_clone(alloc)?;
        Ok(Map2dOver {
            keys0,
            joiner,
            keys1,
            values,
            kinds: PhantomData,
        })
    }
}
