// The elements of a container in another order.
ghost use Rattle.std.specs.Prelude.{◌≡◌, ◌<◌, ◌≤◌, [], length, true, IfErr, IfOk, IsPermutation};
ghost use Rattle.std.specs.Prelude.{OnErr, OnOk, map};
ghost use Rattle.std.specs.List.{All, range_with_len};
ghost use Rattle.zv_ule.specs.Views.{element_of};
ghost use Rattle.zv_owned.specs.Size.{takes_pushes};
ghost use Rattle.zv_map.specs.Permuted.{permuted};
ghost use Rattle.zv_map.specs.Refusals.{TooLargeUnless};
ghost use Rattle.zv_map.specs.Views.{list_of};
ghost use Rattle.zv_map.specs.declared.error.MapError.TheVariants.{Memory};

use crate::error::MapError;
use crate::vecs::MutableZeroVecLike;
use crate::view::KvSlice;
use std::alloc::{AllocError, Global};
use zv_ule::{NoMemory, VarRef, ZvKind};

/// The permutation of a container's elements. Each container has it.
pub trait ZeroVecPermute<'a, T: ZvKind>: MutableZeroVecLike<'a, T> {
    /// Puts the elements in another order: element `i` is then the one that was at
    /// `permutation[i]`. The list is written anew in memory of its own, with one allocation.
    ///
    /// # Errors
    /// `TooLarge` exactly where pushing the elements in the new order into an empty container would
    /// be refused, which the order has no part in: a list that was built is never refused. Then
    /// `Memory`.
    fn zvl_permute(&mut self, alloc: Global, permutation: &[usize]) -> Result<(), MapError>
        requires { IsPermutation (range_with_len 0 (length (Self.list self.old))) permutation.now }
        ensures ok { OnOk result
            (Self.list self.new ≡ permuted (Self.list self.old) permutation.now) }
        ensures owned { OnOk result (Self.owned self.new ≡ true) }
        ensures err { OnErr result (self.new ≡ self.old) }
        ensures refused { TooLargeUnless (takes_pushes Self.takes_insert []
            (permuted (Self.list self.old) permutation.now)) result };
}

/// The views at the places, one after another.
fn views_at<'b, T: ZvKind>(
    elements: KvSlice<'b, T>,
    alloc: Global,
    places: &[usize],
) -> Result<Vec<VarRef<'b, T>>, NoMemory>
    requires { All (λ i. i < length (list_of elements)) places.now }
    ensures { IfOk result (λ views. map element_of views.items
        ≡ permuted (list_of elements.entry) places.now) }
{
    let mut views = Vec::with_capacity(alloc, places.len())?;
    for place in places {
        views.push(elements.at(*place)).map_err(AllocError::from)?;
    }
    Ok(views)
}

/// The elements at the places, pushed one after another into a container of their own.
fn pushed_at<'a, T: ZvKind, C: MutableZeroVecLike<'a, T>>(
    elements: KvSlice<'_, T>,
    alloc: Global,
    places: &[usize],
) -> Result<C, MapError>
    requires within { All (λ i. i < length (list_of elements)) places.now }
    requires taken { takes_pushes C.takes_insert [] (permuted (list_of elements) places.now)
        ≡ true }
    ensures ok { IfOk result (λ c. C.list c ≡ permuted (list_of elements.entry) places.now) }
    ensures owned { IfOk result (λ c. C.owned c ≡ true) }
    ensures err { IfErr result (λ e. e ≡ Memory) }
{
    let mut ordered = C::zvl_new();
    ordered.zvl_reserve_bytes(alloc, elements.bytes().len())?;
    for place in places {
        ordered.zvl_push(alloc, &elements.at(*place))?;
    }
    Ok(ordered)
}

/// The elements at the places, one after another, in a container of their own. They are written at
/// once where the container has fields, which a push moves, if it can do that.
fn elements_at<'a, T: ZvKind, C: MutableZeroVecLike<'a, T>>(
    list: &C,
    alloc: Global,
    places: &[usize],
) -> Result<C, MapError>
    requires within { All (λ i. i < length (C.list list.now)) places.now }
    requires taken { takes_pushes C.takes_insert [] (permuted (C.list list.now) places.now)
        ≡ true }
    ensures ok { IfOk result (λ c. C.list c ≡ permuted (C.list list.now) places.now) }
    ensures owned { IfOk result (λ c. C.owned c ≡ true) }
    ensures err { IfErr result (λ e. e ≡ Memory) }
{
    let elements = list.zvl_as_borrowed();
    if list.zvl_field() > 0 {
        let views = views_at(elements, alloc, places)?;
        let mut ordered = C::zvl_new();
        if ordered.zvl_write_elements(alloc, &views)? {
            return Ok(ordered);
        }
    }
    pushed_at(elements, alloc, places)
}

impl<'a, T: ZvKind, C: MutableZeroVecLike<'a, T>> ZeroVecPermute<'a, T> for C {
    fn zvl_permute(&mut self, alloc: Global, permutation: &[usize]) -> Result<(), MapError> {
        if !self.zvl_takes_elements() {
            return Err(MapError::TooLarge);
        }
        *self = elements_at(self, alloc, permutation)?;
        Ok(())
    }
}
