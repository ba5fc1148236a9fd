// What the containers of maps are.
ghost use Rattle.std.specs.Prelude.{◌≡◌, ℕ, ◌==◌, ◌||◌, ◌+◌, ◌*◌, ◌^◌, ◌<◌, ◌≤◌, List, []};
ghost use Rattle.std.specs.Prelude.{◌∷◌, ◌++◌};
ghost use Rattle.std.specs.Prelude.{length, Option, is_some, IfSome, Bool, true, false, not};
ghost use Rattle.std.specs.Prelude.{IsFalse, IsTrue, IfOk, OnOk, OnErr, map, is_ok, set};
ghost use Rattle.std.specs.Prelude.{IsPermutation};
ghost use Rattle.std.specs.List.{insert, remove, slice_get};
ghost use Rattle.std.specs.Option.{option_map};
ghost use Rattle.std.specs.Result.{result_err};
ghost use Rattle.zv_ule.specs.Views.{element_of};
ghost use Rattle.zv_ule.specs.declared.error.UleError.{UleError};
ghost use Rattle.zv_owned.specs.Size.{takes_pushes};
ghost use Rattle.zv_map.specs.Layouts.{list_in, spells_in, encoding_in};
ghost use Rattle.zv_map.specs.Keys.{nth};
ghost use Rattle.zv_map.specs.Refusals.{TooLargeUnless};
ghost use Rattle.zv_map.specs.Reserved.{HasPlace, HasRoom, IsTaken, put_at, takes_put};
ghost use Rattle.zv_map.specs.Views.{bytes_of, list_of};
ghost use Rattle.zv_map.specs.declared.view.Layout.{Layout};

use crate::error::{MapError, TooLarge};
use crate::view::{KvSlice, RawView};
use std::alloc::Global;
use zv_ule::{NoMemory, UleError, VarRef, ZvArg, ZvKind};

/// A list of elements of a kind that is read in place.
pub trait ZeroVecLike<T: ZvKind>: Sized {
    /// The elements, each as its bytes.
    ghost list: { Self → List (List ℕ) };

    /// The bytes, which spell the list in the container's layout.
    ghost bytes: { Self → List ℕ };

    /// How the bytes spell the list.
    ghost layout: { Self → Layout };

    /// The empty list, in a view that has no bytes.
    fn zvl_new_borrowed() -> KvSlice<'static, T>
        requires { IsTrue T.usable }
        ensures list { list_of result ≡ [] }
        ensures bytes { bytes_of result ≡ [] };

    /// A view of the same list, of the same bytes in the same layout.
    fn zvl_as_borrowed(&self) -> KvSlice<'_, T>
        ensures list { list_of result ≡ list self.now }
        ensures bytes { bytes_of result ≡ bytes self.now }
        ensures layout { result.layout ≡ layout self.now };

    /// How many elements there are.
    fn zvl_len(&self) -> usize
        ensures { result ≡ length (list self.now) };

    /// Whether there is no element.
    #[inline]
    fn zvl_is_empty(&self) -> bool
        ensures { result ≡ (length (list self.now) == 0) }
    {
        self.zvl_len() == 0
    }

    /// The element at a place, counted from 0, or `None` from the end on.
    fn zvl_get(&self, index: usize) -> Option<VarRef<'_, T>>
        ensures { option_map element_of result ≡ slice_get (list self.now) index };
}

/// A container that borrows or owns the bytes of its list. What it means for contracts stands here,
/// with the calls on its room and the changes that take no memory; the others stand in
/// [`MutableZeroVecLike`]: a trait with a lifetime can't have meanings.
///
/// The meanings are data that each container gives, and the laws after the calls tie them.
pub trait ZvContainer<T: ZvKind>: ZeroVecLike<T> {
    /// An element that was taken out: the value where elements have one width, a box else.
    type OwnedType: ZvArg<T> + Drop;

    /// How many bytes the container can grow by without memory.
    ghost spare: { Self → ℕ };

    /// Whether it owns its bytes.
    ghost owned: { Self → Bool };

    /// Whether it may be changed without memory: it owns its bytes, and has whatever else such a
    /// change writes into beside the spare bytes.
    ghost ready: { Self → Bool };

    /// How many bytes an element takes beside its own: the width of a field, and 0 where there are
    /// no fields.
    ghost field: { ℕ };

    /// How many bytes are reserved for an element whose length isn't known.
    ghost element_room: { ℕ };

    /// The size rule: whether the list takes one element more, of so many bytes.
    ghost takes_insert: { List (List ℕ) → ℕ → Bool };

    /// The size rule: whether the list takes an element of so many bytes in the place of the one
    /// there.
    ghost takes_replace: { List (List ℕ) → ℕ → ℕ → Bool };

    /// Whether bytes in the layout can be the container's.
    ghost has_layout: { Layout → Bool };

    /// The layout that a list is in once it is settled.
    ghost settled: { List (List ℕ) → Layout };

    /// The error of bytes that spell no list, or nothing where they spell one.
    ghost parse_fault: { List ℕ → Option UleError };

    /// The list that bytes spell.
    ghost parse_list: { List ℕ → List (List ℕ) };

    /// The layout of a list that was read.
    ghost parse_layout: { Layout };

    /// The empty list, borrowed.
    fn zvl_new() -> Self
        requires { IsTrue T.usable }
        ensures list { Self.list result ≡ [] }
        ensures bytes { Self.bytes result ≡ [] }
        ensures owned { Self.owned result ≡ false }
        ensures spare { Self.spare result ≡ 0 };

    /// Whether the container owns its bytes.
    fn zvl_is_owned(&self) -> bool
        ensures { result ≡ owned self.now };

    /// How many bytes an element takes beside its own.
    fn zvl_field(&self) -> usize
        ensures { result ≡ field };

    /// How many bytes are reserved for an element whose length isn't known.
    fn zvl_element_room(&self) -> usize
        ensures { result ≡ element_room };

    /// A copy of the element at a place.
    fn zvl_get_owned(&self, alloc: Global, index: usize) -> Result<Self::OwnedType, NoMemory>
        requires { index < length (Self.list self.now) }
        ensures { IfOk result (λ e. Self.OwnedType.bytes e ≡ nth (Self.list self.now) index) };

    /// The bytes. They are those that were borrowed, or as the last change left them.
    #[inline]
    fn zvl_bytes(&self) -> &[u8]
        ensures bytes { result.now ≡ Self.bytes self.now }
        ensures spells { IsTrue (spells_in (Self.layout self.now) T.fault result.now) }
        ensures list { list_in (Self.layout self.now) result.now ≡ Self.list self.now }
    {
        self.zvl_as_borrowed().bytes()
    }

    /// The bytes that the list is written as in the container's layout. They lie in the container's
    /// own: all of them, but none where the list is empty.
    #[inline]
    fn zvl_spelling(&self) -> &[u8]
        ensures { result.now ≡ encoding_in (Self.layout self.now) (Self.list self.now) }
    {
        self.zvl_as_borrowed().encoding()
    }

    /// Whether the list takes one element more, of `len` bytes, by the container's size rule.
    fn zvl_takes_insert(&self, len: usize) -> bool
        ensures { result ≡ takes_insert (Self.list self.now) len };

    /// Whether the list takes an element of `len` bytes in the place of the one at `index`, by the
    /// container's size rule.
    fn zvl_takes_replace(&self, index: usize, len: usize) -> bool
        requires { index < length (Self.list self.now) }
        ensures { result ≡ takes_replace (Self.list self.now) index len };

    /// Whether an empty list takes the elements one after another by the container's size rule,
    /// which it then does in any order. A list that was read may be larger than one that is built.
    fn zvl_takes_elements(&self) -> bool
        ensures { result ≡ takes_pushes takes_insert [] (Self.list self.now) };

    /// The empty list, with the variant unchanged. It takes no memory and lowers no spare.
    fn zvl_clear(&mut self)
        ensures list { Self.list self.new ≡ [] }
        ensures bytes { Self.bytes self.new ≡ [] }
        ensures owned { owned self.new ≡ owned self.old }
        ensures ready { ready self.old ≡ true → ready self.new ≡ true }
        ensures spare { spare self.old ≤ spare self.new };

    /// Whether the container is ready for changes that take no memory.
    fn zvl_is_roomy(&self) -> bool
        ensures { result ≡ ready self.now };

    /// Puts the list into the layout in which it is settled. It takes no memory.
    fn zvl_settle(&mut self)
        requires { ready self.old ≡ true }
        ensures list { Self.list self.new ≡ Self.list self.old }
        ensures layout { Self.layout self.new ≡ settled (Self.list self.old) }
        ensures owned { owned self.new ≡ owned self.old }
        ensures ready { ready self.new ≡ true }
        ensures spare { spare self.old ≤ spare self.new };

    /// Makes the container own its bytes. One that does is never refused.
    fn zvl_make_owned(&mut self, alloc: Global) -> Result<(), NoMemory>
        ensures list { Self.list self.new ≡ Self.list self.old }
        ensures bytes { Self.bytes self.new ≡ Self.bytes self.old }
        ensures layout { Self.layout self.new ≡ Self.layout self.old }
        ensures owned { OnOk result (Self.owned self.new ≡ true) }
        ensures err { OnErr result (self.new ≡ self.old) };

    /// Makes the container own its bytes, with room for so many elements more whose lengths aren't
    /// known.
    fn zvl_reserve(&mut self, alloc: Global, additional: usize) -> Result<(), NoMemory>
        ensures list { Self.list self.new ≡ Self.list self.old }
        ensures bytes { Self.bytes self.new ≡ Self.bytes self.old }
        ensures layout { Self.layout self.new ≡ Self.layout self.old }
        ensures owned { OnOk result (Self.owned self.new ≡ true) }
        ensures ready { OnOk result (Self.ready self.new ≡ true) }
        ensures room { OnOk result (additional * Self.element_room ≤ Self.spare self.new) }
        ensures spare { Self.spare self.old ≤ Self.spare self.new }
        ensures err { OnErr result (self.new ≡ self.old) }
    {
        match additional.checked_mul(self.zvl_element_room()) {
            Some(n) => self.zvl_reserve_bytes(alloc, n),
            None => Err(NoMemory),
        }
    }

    /// Makes the container own its bytes, with `n` bytes to spare at least, so that changes that
    /// need no more take no memory.
    fn zvl_reserve_bytes(&mut self, alloc: Global, n: usize) -> Result<(), NoMemory>
        ensures list { Self.list self.new ≡ Self.list self.old }
        ensures bytes { Self.bytes self.new ≡ Self.bytes self.old }
        ensures layout { Self.layout self.new ≡ Self.layout self.old }
        ensures owned { OnOk result (Self.owned self.new ≡ true) }
        ensures ready { OnOk result (Self.ready self.new ≡ true) }
        ensures room { OnOk result (n ≤ Self.spare self.new) }
        ensures spare { Self.spare self.old ≤ Self.spare self.new }
        ensures err { OnErr result (self.new ≡ self.old) };

    /// Makes the container a list of its own of these elements, written at once, if it can: `false`
    /// means that nothing is done.
    #[inline]
    fn zvl_write_elements(
        &mut self,
        _alloc: Global,
        _elements: &[VarRef<'_, T>],
    ) -> Result<bool, NoMemory>
        requires { IsTrue T.usable }
        ensures list { IfOk result (λ written. IsTrue written →
            Self.list self.new ≡ map element_of _elements.now) }
        ensures owned { IfOk result (λ written. IsTrue written → Self.owned self.new ≡ true) }
        ensures untouched { IfOk result (λ written. IsFalse written → self.new ≡ self.old) }
        ensures err { OnErr result (self.new ≡ self.old) }
    {
        Ok(false)
    }

    /// Puts an element, which the size rule takes, before the one at a place. It takes no memory.
    fn zvl_insert_reserved<Q: ZvArg<T>>(&mut self, index: usize, value: &Q)
        requires below { length (Q.bytes value.now) < 2 ^ 64 }
        requires place { index ≤ length (Self.list self.old) }
        requires taken { IsTaken (Self.takes_insert (Self.list self.old)
            (length (Q.bytes value.now))) }
        requires room { HasRoom (Self.owned self.old) (Self.spare self.old)
            (length (Q.bytes value.now) + Self.field) }
        ensures list { Self.list self.new
            ≡ insert (Self.list self.old) index (Q.bytes value.now) }
        ensures ready { Self.ready self.new ≡ true }
        ensures spare { Self.spare self.old
            ≤ Self.spare self.new + (length (Q.bytes value.now) + Self.field) };

    /// Puts an element, which the size rule takes, in the place of another. It takes no memory.
    fn zvl_replace_reserved<Q: ZvArg<T>>(&mut self, index: usize, value: &Q)
        requires below { length (Q.bytes value.now) < 2 ^ 64 }
        requires place { index < length (Self.list self.old) }
        requires taken { IsTaken (Self.takes_replace (Self.list self.old) index
            (length (Q.bytes value.now))) }
        requires room { HasRoom (Self.owned self.old) (Self.spare self.old)
            (length (Q.bytes value.now) + Self.field) }
        ensures list { Self.list self.new ≡ set (Self.list self.old) index (Q.bytes value.now) }
        ensures ready { Self.ready self.new ≡ true }
        ensures spare { Self.spare self.old
            ≤ Self.spare self.new + (length (Q.bytes value.now) + Self.field) };

    /// Puts an element before the one at a place, or in its place. It takes no memory.
    ///
    /// # Errors
    /// [`TooLarge`] where the size rule refuses it; then nothing is changed.
    fn zvl_put_reserved<Q: ZvArg<T>>(
        &mut self,
        index: usize,
        replace: bool,
        value: &Q,
    ) -> Result<(), TooLarge>
        requires below { length (Q.bytes value.now) < 2 ^ 64 }
        requires place { HasPlace replace (length (Self.list self.old)) index }
        requires room { HasRoom (Self.owned self.old) (Self.spare self.old)
            (length (Q.bytes value.now) + Self.field) }
        ensures ok { OnOk result (Self.list self.new
            ≡ put_at replace (Self.list self.old) index (Q.bytes value.now)) }
        ensures err { OnErr result (self.new ≡ self.old) }
        ensures refused { is_ok result ≡ takes_put Self.takes_insert Self.takes_replace replace
            (Self.list self.old) index (length (Q.bytes value.now)) }
        ensures ready { OnOk result (Self.ready self.new ≡ true) }
        ensures spare { Self.spare self.old
            ≤ Self.spare self.new + (length (Q.bytes value.now) + Self.field) };

    /// Takes an element out. It takes no memory.
    fn zvl_discard(&mut self, index: usize)
        requires place { index < length (Self.list self.old) }
        requires owned { Self.owned self.old ≡ true }
        ensures list { Self.list self.new ≡ remove (Self.list self.old) index }
        ensures owned { Self.owned self.new ≡ true }
        ensures ready { Self.ready self.old ≡ true → Self.ready self.new ≡ true }
        ensures spare { Self.spare self.old ≤ Self.spare self.new };

    /// A field is small: at most four bytes.
    ghost small_field: { field ≤ 4 };

    /// What is ready is owned: a container that may be changed without memory owns its bytes.
    ghost ready_owned: { (x : Self) → ready x ≡ true → owned x ≡ true };

    /// What is owned, with room for a field, is ready.
    ghost owned_ready: { (x : Self) → owned x ≡ true → field ≤ spare x → ready x ≡ true };

    /// Where the empty list takes elements one after another, it takes them in any other order.
    ghost any_order: { (xs ys : List (List ℕ)) → IsPermutation xs ys →
        takes_pushes takes_insert [] xs ≡ true → takes_pushes takes_insert [] ys ≡ true };

    /// A container has its own layout, so it takes a view of itself.
    ghost own_layout: { (x : Self) → has_layout (Self.layout x) ≡ true };
}

/// A container whose list can be changed. Bytes that are borrowed are never written: the first
/// change makes the container own its bytes. A refused change leaves the container as it was.
pub trait MutableZeroVecLike<'a, T: ZvKind>: ZvContainer<T> + Drop {
    /// The empty list, with room for so many elements whose lengths aren't known. It owns its bytes
    /// where that is one element at least.
    fn zvl_with_capacity(alloc: Global, capacity: usize) -> Result<Self, NoMemory>
        requires { IsTrue T.usable }
        ensures list { IfOk result (λ c. Self.list c ≡ []) }
        ensures bytes { IfOk result (λ c. Self.bytes c ≡ []) }
        ensures owned { IfOk result (λ c. Self.owned c ≡ not (capacity == 0)) }
        ensures spare { IfOk result (λ c. capacity * Self.element_room ≤ Self.spare c) };

    /// The list that bytes spell, borrowed.
    fn zvl_parse(bytes: &'a [u8]) -> Result<Self, UleError>
        requires { IsTrue T.usable }
        ensures error { result_err result ≡ Self.parse_fault bytes.now }
        ensures list { IfOk result (λ c. Self.list c ≡ Self.parse_list bytes.now) }
        ensures bytes { IfOk result (λ c. Self.bytes c ≡ bytes.now) }
        ensures layout { IfOk result (λ c. Self.layout c ≡ Self.parse_layout) }
        ensures owned { IfOk result (λ c. Self.owned c ≡ false) };

    /// The list of a view, borrowed, or `None` where the view has bytes and a layout that isn't the
    /// container's.
    fn zvl_from_borrowed(b: RawView<'a>) -> Option<Self>
        requires usable { IsTrue T.usable }
        requires spells { IsTrue (spells_in b.layout T.fault b.bytes.now) }
        ensures fits { is_some result ≡
            (length b.entry.bytes.now == 0 || Self.has_layout b.entry.layout) }
        ensures list { IfSome result (λ c. Self.list c ≡ list_in b.entry.layout b.entry.bytes.now) }
        ensures bytes { IfSome result (λ c. Self.bytes c ≡ b.entry.bytes.now) }
        ensures owned { IfSome result (λ c. Self.owned c ≡ false) };

    /// A view that lives as long as the bytes that the container borrows, or `None` where it owns
    /// them.
    fn zvl_as_borrowed_inner(&self) -> Option<RawView<'a>>
        ensures borrowed { is_some result ≡ not (Self.owned self.now) }
        ensures list { IfSome result (λ b. list_in b.layout b.bytes.now ≡ Self.list self.now) }
        ensures bytes { IfSome result (λ b. b.bytes.now ≡ Self.bytes self.now) }
        ensures layout { IfSome result (λ b. b.layout ≡ Self.layout self.now) }
        ensures usable { IfSome result (λ _. IsTrue T.usable) }
        ensures spells { IfSome result (λ b. IsTrue (spells_in b.layout T.fault b.bytes.now)) };

    /// A container with the same list, bytes, layout and variant.
    fn zvl_clone(&self, alloc: Global) -> Result<Self, NoMemory>
        ensures list { IfOk result (λ c. Self.list c ≡ Self.list self.now) }
        ensures bytes { IfOk result (λ c. Self.bytes c ≡ Self.bytes self.now) }
        ensures layout { IfOk result (λ c. Self.layout c ≡ Self.layout self.now) }
        ensures owned { IfOk result (λ c. Self.owned c ≡ Self.owned self.now) };

    /// Puts an element at a place, before the one that stands there.
    fn zvl_insert<Q: ZvArg<T>>(
        &mut self,
        alloc: Global,
        index: usize,
        value: &Q,
    ) -> Result<(), MapError>
        requires below { length (Q.bytes value.now) < 2 ^ 64 }
        requires place { index ≤ length (Self.list self.old) }
        ensures ok { OnOk result
            (Self.list self.new ≡ insert (Self.list self.old) index (Q.bytes value.now)) }
        ensures owned { OnOk result (Self.owned self.new ≡ true) }
        ensures ready { Self.ready self.old ≡ true → Self.ready self.new ≡ true }
        ensures err { OnErr result (self.new ≡ self.old) }
        ensures refused { TooLargeUnless
            (Self.takes_insert (Self.list self.old) (length (Q.bytes value.now))) result };

    /// Puts an element at the end.
    fn zvl_push<Q: ZvArg<T>>(&mut self, alloc: Global, value: &Q) -> Result<(), MapError>
        requires below { length (Q.bytes value.now) < 2 ^ 64 }
        ensures ok { OnOk result
            (Self.list self.new ≡ Self.list self.old ++ Q.bytes value.now ∷ []) }
        ensures owned { OnOk result (Self.owned self.new ≡ true) }
        ensures ready { Self.ready self.old ≡ true → Self.ready self.new ≡ true }
        ensures err { OnErr result (self.new ≡ self.old) }
        ensures refused { TooLargeUnless
            (Self.takes_insert (Self.list self.old) (length (Q.bytes value.now))) result };

    /// Puts an element in the place of another, which is given back.
    fn zvl_replace<Q: ZvArg<T>>(
        &mut self,
        alloc: Global,
        index: usize,
        value: &Q,
    ) -> Result<Self::OwnedType, MapError>
        requires below { length (Q.bytes value.now) < 2 ^ 64 }
        requires place { index < length (Self.list self.old) }
        ensures ok { OnOk result
            (Self.list self.new ≡ set (Self.list self.old) index (Q.bytes value.now)) }
        ensures before { IfOk result
            (λ old. Self.OwnedType.bytes old ≡ nth (Self.list self.old) index) }
        ensures owned { OnOk result (Self.owned self.new ≡ true) }
        ensures ready { Self.ready self.old ≡ true → Self.ready self.new ≡ true }
        ensures err { OnErr result (self.new ≡ self.old) }
        ensures refused { TooLargeUnless
            (Self.takes_replace (Self.list self.old) index (length (Q.bytes value.now))) result };

    /// Takes an element out, which is given back.
    fn zvl_remove(&mut self, alloc: Global, index: usize) -> Result<Self::OwnedType, NoMemory>
        requires { index < length (Self.list self.old) }
        ensures ok { OnOk result (Self.list self.new ≡ remove (Self.list self.old) index) }
        ensures before { IfOk result
            (λ old. Self.OwnedType.bytes old ≡ nth (Self.list self.old) index) }
        ensures owned { OnOk result (Self.owned self.new ≡ true) }
        ensures ready { Self.ready self.old ≡ true → Self.ready self.new ≡ true }
        ensures err { OnErr result (self.new ≡ self.old) };
}

/// A kind that keys or values of maps are of, with the container that keeps its lists.
pub trait ZeroMapKV<'a>: ZvKind {
    /// The container of lists of the kind.
    type Container: MutableZeroVecLike<'a, Self> + Drop;
}
