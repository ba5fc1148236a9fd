// Lists that are made of values, and lists that become others.
ghost use Rattle.std.specs.Prelude.{◌≡◌, ◌*◌, ◌-◌, ◌≤◌, [], true, false, not, is_some, map};
ghost use Rattle.std.specs.Prelude.{flat_map, None, IsTrue, IfOk, IfSome, IsOk, vec_capacity};
ghost use Rattle.std.specs.Prelude.{vec_len};
ghost use Rattle.std.specs.Iterator.{Drains, IsFinite};
ghost use Rattle.std.specs.Result.{result_err};
ghost use Rattle.zv_ule.specs.Chunks.{chunks_fault, values_of};

use super::ZeroVec;
use crate::cow_bytes::CowBytes;
use crate::values::{all_stored, joined, stored};
use std::alloc::Global;
use std::marker::PhantomData;
use zv_ule::{AsULE, NoMemory, SliceAsULE, ULE, UleError, all_known};

impl<'a, T: AsULE> ZeroVec<'a, T> {
    /// The list that owned bytes are, which have no fault.
    #[inline]
    fn of_owned(bytes: Vec<u8>) -> Self
        requires usable { IsTrue T.usable }
        requires spells { chunks_fault T.ULE.TY T.ULE.width T.ULE.chunk_fault bytes.items ≡ None }
        ensures values { result.values
            ≡ values_of T.ULE.width (λ b. T.loaded (T.ULE.value b)) bytes.items }
        ensures bytes { result.bytes ≡ bytes.items }
        ensures spare { result.spare ≡ vec_capacity bytes - vec_len bytes }
        ensures owned { result.owned ≡ true }
    {
        ZeroVec {
            cow: CowBytes::Owned(bytes),
            of: PhantomData,
        }
    }

    /// A list of no values that owns memory for `capacity` of them.
    pub fn with_capacity(alloc: Global, capacity: usize) -> Result<Self, NoMemory>
        requires { IsTrue T.usable }
        ensures values { IfOk result (λ v. v.values ≡ []) }
        ensures bytes { IfOk result (λ v. v.bytes ≡ []) }
        ensures spare { IfOk result (λ v. capacity * T.ULE.width ≤ v.spare) }
        ensures owned { IfOk result (λ v. v.owned ≡ true) }
    {
        let bytes = capacity
            .checked_mul(<T::ULE as ULE>::size())
            .ok_or(NoMemory)?;
        Ok(ZeroVec::of_owned(Vec::with_capacity(alloc, bytes)?))
    }

    /// A list of values that are given as they are stored. It owns its bytes.
    pub fn new_owned(alloc: Global, ules: &[T::ULE]) -> Result<Self, NoMemory>
        requires { IsTrue T.usable }
        ensures values { IfOk result (λ v. v.values ≡ map T.loaded ules.now) }
        ensures bytes { IfOk result (λ v. v.bytes ≡ flat_map T.ULE.chunk ules.now) }
        ensures owned { IfOk result (λ v. v.owned ≡ true) }
    {
        all_known(ules);
        Ok(ZeroVec::of_owned(joined(alloc, ules)?))
    }

    /// A list of the values of a slice. It owns its bytes.
    pub fn alloc_from_slice(alloc: Global, other: &[T]) -> Result<Self, NoMemory>
        requires { IsTrue T.usable }
        ensures values { IfOk result (λ v. v.values ≡ other.now) }
        ensures bytes { IfOk result (λ v. v.bytes
            ≡ flat_map (λ x. T.ULE.chunk (T.stored x)) other.now) }
        ensures owned { IfOk result (λ v. v.owned ≡ true) }
    {
        all_stored(other);
        Ok(ZeroVec::of_owned(stored(alloc, other)?))
    }

    /// A list of the items, in order. It owns its bytes.
    pub fn try_collect<I: IntoIterator<Item = T>>(alloc: Global, items: I) -> Result<Self, NoMemory>
        requires usable { IsTrue T.usable }
        requires ends { (it : I.IntoIter) → I.into_iter_gives items it
            → I.IntoIter.can_next it × IsFinite (I.IntoIter.remaining it) }
        ensures values { IfOk result (λ v. (it : I.IntoIter) × I.into_iter_gives items it
            × Drains I.IntoIter.next_gives it v.values) }
        ensures owned { IfOk result (λ v. v.owned ≡ true) }
    {
        let items = items.into_iter();
        let mut list = ZeroVec::with_capacity(alloc, items.size_hint().0)?;
        for item in items {
            list.push(alloc, item)?;
        }
        Ok(list)
    }

    /// A list of the same values in memory of its own: that which it lies in, if it owns its bytes.
    /// Where memory is refused the list is dropped.
    #[inline]
    pub fn into_owned(self, alloc: Global) -> Result<ZeroVec<'static, T>, NoMemory>
        ensures values { IfOk result (λ v. v.values ≡ self.entry.values) }
        ensures bytes { IfOk result (λ v. v.bytes ≡ self.entry.bytes) }
        ensures owned { IfOk result (λ v. v.owned ≡ true) }
        ensures fits { self.entry.owned ≡ true → IsOk result }
        ensures spare { IfOk result (λ v. self.entry.spare ≤ v.spare) }
        ensures in_place { self.entry.owned ≡ true →
            IfOk result (λ v. v.spare ≡ self.entry.spare) }
    {
        let ZeroVec { cow, of: _ } = self;
        Ok(ZeroVec {
            cow: cow.into_owned(alloc)?,
            of: PhantomData,
        })
    }

    /// The values.
    #[inline]
    pub fn to_vec(&self, alloc: Global) -> Result<Vec<T>, NoMemory>
        ensures { IfOk result (λ v. v.items ≡ self.now.values) }
    {
        Ok(self.iter().collect(alloc)?)
    }

    /// The bytes, as a list of numbers. They stay where they are.
    #[inline]
    pub fn into_bytes(self) -> ZeroVec<'a, u8>
        ensures values { result.values ≡ self.entry.bytes }
        ensures bytes { result.bytes ≡ self.entry.bytes }
        ensures owned { result.owned ≡ self.entry.owned }
        ensures spare { result.spare ≡ self.entry.spare }
    {
        let ZeroVec { cow, of: _ } = self;
        ZeroVec {
            cow,
            of: PhantomData,
        }
    }

    /// The list as one of a type whose values are stored alike. The bytes stay where they are.
    #[inline]
    pub fn cast<P: AsULE<ULE = T::ULE>>(self) -> ZeroVec<'a, P>
        ensures values { result.values
            ≡ values_of T.ULE.width (λ b. P.loaded (T.ULE.value b)) self.entry.bytes }
        ensures bytes { result.bytes ≡ self.entry.bytes }
        ensures owned { result.owned ≡ self.entry.owned }
        ensures spare { result.spare ≡ self.entry.spare }
    {
        let ZeroVec { cow, of: _ } = self;
        ZeroVec {
            cow,
            of: PhantomData,
        }
    }

    /// The list of another type of the same width that the bytes are, which stay where they are.
    /// The error is that of `parse_bytes`, and the list is dropped then.
    #[inline]
    pub fn try_into_converted<P: AsULE>(self) -> Result<ZeroVec<'a, P>, UleError>
        requires usable { IsTrue P.usable }
        requires widths { P.ULE.width ≡ T.ULE.width }
        ensures error { result_err result
            ≡ chunks_fault P.ULE.TY P.ULE.width P.ULE.chunk_fault self.entry.bytes }
        ensures values { IfOk result (λ v. v.values
            ≡ values_of P.ULE.width (λ b. P.loaded (P.ULE.value b)) self.entry.bytes) }
        ensures bytes { IfOk result (λ v. v.bytes ≡ self.entry.bytes) }
        ensures owned { IfOk result (λ v. v.owned ≡ self.entry.owned) }
        ensures spare { IfOk result (λ v. v.spare ≡ self.entry.spare) }
    {
        self.into_bytes().try_into_parsed()
    }
}

impl<'a> ZeroVec<'a, u8> {
    /// The list that the bytes are, which stay where they are. The error is that of `parse_bytes`,
    /// and the bytes are dropped then.
    #[inline]
    pub fn try_into_parsed<P: AsULE>(self) -> Result<ZeroVec<'a, P>, UleError>
        requires { IsTrue P.usable }
        ensures error { result_err result
            ≡ chunks_fault P.ULE.TY P.ULE.width P.ULE.chunk_fault self.entry.bytes }
        ensures values { IfOk result (λ v. v.values
            ≡ values_of P.ULE.width (λ b. P.loaded (P.ULE.value b)) self.entry.bytes) }
        ensures bytes { IfOk result (λ v. v.bytes ≡ self.entry.bytes) }
        ensures owned { IfOk result (λ v. v.owned ≡ self.entry.owned) }
        ensures spare { IfOk result (λ v. v.spare ≡ self.entry.spare) }
    {
        let ZeroVec { cow, of: _ } = self;
        <P::ULE as ULE>::validate_bytes(cow.bytes())?;
        Ok(ZeroVec {
            cow,
            of: PhantomData,
        })
    }
}

impl<'a, T: SliceAsULE> ZeroVec<'a, T> {
    /// Borrows the values of a slice, or gives `None` where they don't lie as they are stored: they
    /// do for `u8` alone.
    #[inline]
    pub fn try_from_slice(slice: &'a [T]) -> Option<Self>
        requires { IsTrue T.usable }
        ensures seen { is_some result ≡ T.is_seen }
        ensures values { IfSome result (λ v. v.values ≡ slice.now) }
        ensures bytes { IfSome result (λ v. v.bytes
            ≡ flat_map (λ x. T.ULE.chunk (T.stored x)) slice.now) }
        ensures owned { IfSome result (λ v. v.owned ≡ false) }
    {
        all_stored(slice);
        let bytes = T::slice_to_unaligned(slice)?;
        Some(ZeroVec {
            cow: CowBytes::Borrowed(bytes),
            of: PhantomData,
        })
    }

    /// Borrows the values of a slice of `u8`, and copies those of any other.
    #[inline]
    pub fn from_slice_or_alloc(alloc: Global, slice: &'a [T]) -> Result<Self, NoMemory>
        requires { IsTrue T.usable }
        ensures values { IfOk result (λ v. v.values ≡ slice.now) }
        ensures bytes { IfOk result (λ v. v.bytes
            ≡ flat_map (λ x. T.ULE.chunk (T.stored x)) slice.now) }
        ensures owned { IfOk result (λ v. v.owned ≡ not T.is_seen) }
        ensures borrowed { T.is_seen ≡ true → IsOk result }
    {
        match ZeroVec::try_from_slice(slice) {
            Some(list) => Ok(list),
            None => ZeroVec::alloc_from_slice(alloc, slice),
        }
    }
}
