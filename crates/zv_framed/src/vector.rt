// Containers whose bytes are a part of a frame.
ghost use Rattle.std.specs.Prelude.{◌≡◌, ℕ, List, true, None, IsTrue, refl};
ghost use Rattle.zv_map.specs.Layouts.{encoding_in, list_in, spells_in};
ghost use Rattle.zv_map.specs.Views.{list_of};
ghost use Rattle.zv_map.specs.declared.view.Layout.{Layout};

use zv_fixed::ZeroVec;
use zv_map::{KvSlice, Layout, MapFormat, ZvContainer};
use zv_owned::vector::VarZeroVec;
use zv_ule::{AsULE, ZvKind};

/// A container that reads each list which it writes: its bytes are in one layout, whatever the
/// list. A part of a frame names no layout, so a container that has two has no part.
pub trait OneLayout<T: ZvKind>: ZvContainer<T> {
    /// The container's layout is the one that it reads.
    ghost one: { (layout : Layout) → Self.has_layout layout ≡ true →
        layout ≡ Self.parse_layout };

    /// Bytes that spell a list in that layout are read without an error,
    ghost sound: { (bytes : List ℕ) → IsTrue (spells_in Self.parse_layout T.fault bytes) →
        Self.parse_fault bytes ≡ None };

    /// and as the list that they spell.
    ghost reads: { (bytes : List ℕ) →
        Self.parse_list bytes ≡ list_in Self.parse_layout bytes };
}

impl<'a, T: AsULE> OneLayout<T> for ZeroVec<'a, T> {
    ghost use Rattle.zv_map.proofs.FixedLists.{fault_fixed};
    ghost use Rattle.zv_framed.specs.Laws.{fixed_alone};

    ghost one = { fixed_alone };

    ghost sound = { fault_fixed T.kind };

    ghost reads = { λ _. refl };
}

impl<'a, T: ZvKind, F: MapFormat> OneLayout<T> for VarZeroVec<'a, T, F> {
    ghost use Rattle.zv_framed.specs.Laws.{fields_alone, fields_read, fields_sound};

    ghost one = { fields_alone F.width_positive F.LAYOUT F.layout_width };

    ghost sound = { fields_sound F.width_positive F.LAYOUT F.layout_width T.fault };

    ghost reads = { fields_read F.width_positive F.LAYOUT F.layout_width };
}

/// What a list is written as in its container's layout is read back as the list. It does nothing.
#[inline]
fn is_read_back<T: ZvKind, C: OneLayout<T>>(_layout: Layout, _bytes: &[u8])
    requires layout { C.has_layout _layout ≡ true }
    requires spells { IsTrue (spells_in _layout T.fault _bytes.now) }
    ensures layout { _layout ≡ C.parse_layout }
    ensures sound { C.parse_fault (encoding_in _layout (list_in _layout _bytes.now)) ≡ None }
    ensures list { C.parse_list (encoding_in _layout (list_in _layout _bytes.now))
        ≡ list_in _layout _bytes.now }
{}

/// The bytes that a list is written as in a frame: all of them, but none where it is empty.
#[inline]
pub(crate) fn part_of<'b, T: ZvKind, C: OneLayout<T>>(list: KvSlice<'b, T>) -> &'b [u8]
    requires { C.has_layout list.layout ≡ true }
    ensures written { result.now ≡ encoding_in C.parse_layout (list_of list.entry) }
    ensures sound { C.parse_fault result.now ≡ None }
    ensures list { C.parse_list result.now ≡ list_of list.entry }
{
    is_read_back::<T, C>(list.layout(), list.bytes());
    list.encoding()
}
