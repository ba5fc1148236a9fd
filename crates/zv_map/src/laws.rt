// The laws of containers, each the contract of a function that does nothing.
ghost use Rattle.std.specs.Prelude.{◌≡◌, ℕ, List, [], IsTrue, true};
ghost use Rattle.std.specs.List.{AllByRecursion};
ghost use Rattle.zv_ule.specs.Bytes.{IsBytes};
ghost use Rattle.zv_map.specs.Keys.{IsElementOf};
ghost use Rattle.zv_map.specs.Layouts.{encoding_in, list_in, spells_in};
ghost use Rattle.zv_map.specs.Views.{list_of};
ghost use Rattle.zv_map.specs.declared.view.Layout.{Layout};

use crate::vecs::ZvContainer;
use crate::view::{KvSlice, Layout};
use zv_ule::ZvKind;

/// What lists in a layout are of and are written as, and what a container's layout is:
///
/// - `elements`: the elements of a list that bytes spell are the kind's;
/// - `empty`: the empty list is written as no bytes;
/// - `sound`, `list`: where bytes spell a list, what the list is written as spells it too;
/// - `layout`: a container has its own layout, so it takes a view of itself.
pub fn spellings_are_read<T: ZvKind, C: ZvContainer<T>>()
    ensures elements { (layout : Layout) (bytes : List ℕ) → IsBytes bytes →
        IsTrue (spells_in layout T.fault bytes) →
        AllByRecursion (IsElementOf T.fault) (list_in layout bytes) }
    ensures empty { (layout : Layout) → encoding_in layout [] ≡ [] }
    ensures sound { (layout : Layout) (bytes : List ℕ) → IsBytes bytes →
        IsTrue (spells_in layout T.fault bytes) →
        IsTrue (spells_in layout T.fault (encoding_in layout (list_in layout bytes))) }
    ensures list { (layout : Layout) (bytes : List ℕ) → IsBytes bytes →
        IsTrue (spells_in layout T.fault bytes) →
        list_in layout (encoding_in layout (list_in layout bytes)) ≡ list_in layout bytes }
    ensures layout { (x : C) → C.has_layout (C.layout x) ≡ true }
{}

/// The elements of a list that the bytes spell are the kind's. It does nothing.
#[inline]
fn bytes_are_valid<T: ZvKind>(_layout: Layout, _bytes: &[u8])
    requires { IsTrue (spells_in _layout T.fault _bytes.now) }
    ensures { AllByRecursion (IsElementOf T.fault) (list_in _layout _bytes.now) }
{}

/// The elements of the list of a view are the kind's. It does nothing.
#[inline]
pub fn elements_are_valid<T: ZvKind>(list: KvSlice<'_, T>)
    ensures { AllByRecursion (IsElementOf T.fault) (list_of list.entry) }
{
    bytes_are_valid::<T>(list.layout(), list.bytes());
}
