// The framed form of maps in two levels: first keys, joiner, second keys, values.
ghost use Rattle.std.specs.Prelude.{◌≡◌, ◌∷◌, [], ◌&&◌, None};
ghost use Rattle.std.specs.List.{flat_map};
ghost use Rattle.zv_ule.specs.Bytes.{le};
ghost use Rattle.zv_map.specs.Layouts.{encoding_in};
ghost use Rattle.zv_fixed.specs.Views.{values_in};
ghost use Rattle.zv_map2d.specs.Causes.{joiner_fault, lists_fault, numbers, reading, readings};
ghost use Rattle.zv_map2d.specs.Rows.{ends, firsts, rows_of, seconds, values};
ghost use Rattle.zv_framed.specs.Faults.{map2d_fault, rows_error};
ghost use Rattle.zv_framed.specs.Read.{IsReadMap2d};

use crate::error::FormError;
use crate::form::{Framed, FramedForm};
use crate::frame::{cut_four, frame_parts};
use crate::vector::{OneLayout, part_of};
use std::alloc::Global;
use zv_fixed::{ZeroSlice, ZeroVec};
use zv_map::{MutableZeroVecLike, ZvContainer};
use zv_map2d::{EditError, Map2dOver};
use zv_ule::{NoMemory, ZvKind, ZvOrd};

/// What is wrong with the lists of a map in two levels, as the error of a frame. It is none of the
/// last three: lists have no frame, and need no memory and no sink.
fn rows_error(error: EditError) -> FormError
    ensures { result ≡ rows_error error }
{
    match error {
        EditError::Ule(error) => FormError::Part(error),
        EditError::Keys0Joiner | EditError::Keys1Values => FormError::Count,
        EditError::JoinerOrder => FormError::JoinerOrder,
        EditError::JoinerEnd => FormError::JoinerEnd,
        EditError::KeyOrder => FormError::KeyOrder,
        EditError::Frame | EditError::Memory | EditError::Write => FormError::Frame,
    }
}

impl<'a, K0, K1, V, C0, C1, D> FramedForm for Map2dOver<'a, K0, K1, V, C0, C1, D>
where
    K0: ZvOrd,
    K1: ZvOrd,
    V: ZvKind,
    C0: OneLayout<K0>,
    C1: OneLayout<K1>,
    D: OneLayout<V>,
{
    ghost count = { 4 };

    ghost usable = { K0.usable && (K1.usable && V.usable) };

    ghost parts = { λ m. encoding_in C0.parse_layout (firsts m.rows)
        ∷ flat_map (le 4) (ends m.rows)
        ∷ encoding_in C1.parse_layout (seconds m.rows)
        ∷ encoding_in D.parse_layout (values m.rows) ∷ [] };

    ghost fault = { map2d_fault (readings
        (reading C0.parse_fault C0.parse_list)
        (reading C1.parse_fault C1.parse_list)
        (reading D.parse_fault D.parse_list)
        K0.cmp K1.cmp) };

    ghost IsRead = { IsReadMap2d (readings
        (reading C0.parse_fault C0.parse_list)
        (reading C1.parse_fault C1.parse_list)
        (reading D.parse_fault D.parse_list)
        K0.cmp K1.cmp) };

    ghost IsSame = { λ m n. n.rows ≡ m.rows };
}

/// The lists of a map have no fault, and are those of this map alone. It does nothing.
#[inline]
fn lists_are_sound<K0, K1, V, C0, C1, D>(map: &Map2dOver<'_, K0, K1, V, C0, C1, D>)
where
    K0: ZvOrd,
    K1: ZvOrd,
    V: ZvKind,
    C0: ZvContainer<K0>,
    C1: ZvContainer<K1>,
    D: ZvContainer<V>,
    ensures sound { lists_fault K0.cmp K1.cmp (record {
      keys0 = firsts map.now.rows;
      joiner = ends map.now.rows;
      keys1 = seconds map.now.rows;
      values = values map.now.rows;
    }) ≡ None }
    ensures rows { rows_of (firsts map.now.rows) (ends map.now.rows) (seconds map.now.rows)
        (values map.now.rows) ≡ map.now.rows }
{
    map.in_order();
}

/// The bytes that a joiner is written as in a frame: all of them.
#[inline]
fn joiner_part(joiner: ZeroSlice<'_, u32>) -> &[u8]
    ensures written { result.now ≡ flat_map (le 4) (values_in joiner.entry) }
    ensures sound { joiner_fault result.now ≡ None }
    ensures numbers { numbers result.now ≡ values_in joiner.entry }
{
    joiner.as_bytes()
}

impl<'a, K0, K1, V, C0, C1, D> Framed<'a> for Map2dOver<'a, K0, K1, V, C0, C1, D>
where
    K0: ZvOrd,
    K1: ZvOrd,
    V: ZvKind,
    C0: MutableZeroVecLike<'a, K0> + OneLayout<K0> + Drop,
    C1: MutableZeroVecLike<'a, K1> + OneLayout<K1> + Drop,
    D: MutableZeroVecLike<'a, V> + OneLayout<V> + Drop,
{
    fn to_framed_bytes(&self, alloc: Global) -> Result<Vec<u8>, NoMemory> {
        lists_are_sound(self);
        let keys0 = part_of::<K0, C0>(self.keys0().zvl_as_borrowed());
        let joiner = joiner_part(self.joiner());
        let keys1 = part_of::<K1, C1>(self.keys1().zvl_as_borrowed());
        let values = part_of::<V, D>(self.values().zvl_as_borrowed());
        frame_parts(alloc, &[keys0, joiner, keys1, values])
    }

    fn parse_framed(bytes: &'a [u8]) -> Result<Self, FormError> {
        let (keys0, joiner, keys1, values) = cut_four(bytes).ok_or(FormError::Frame)?;
        let keys0 = C0::zvl_parse(keys0)?;
        let joiner = ZeroVec::parse_bytes(joiner)?;
        let keys1 = C1::zvl_parse(keys1)?;
        let values = D::zvl_parse(values)?;
        Map2dOver::from_vecs(keys0, joiner, keys1, values).map_err(rows_error)
    }
}
