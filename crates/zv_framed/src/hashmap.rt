// The framed form of hash tables: displacements, keys, values.
ghost use Rattle.std.specs.Prelude.{◌≡◌, ◌∷◌, [], ◌&&◌, None, length};
ghost use Rattle.zv_fixed.specs.Views.{values_in};
ghost use Rattle.zv_map.specs.Layouts.{encoding_in};
ghost use Rattle.zv_map2d.specs.Causes.{reading};
ghost use Rattle.zv_hashmap.specs.Table.{parts_fault};
ghost use Rattle.zv_framed.specs.Displacements.{displacements_fault, displacements_in};
ghost use Rattle.zv_framed.specs.Displacements.{displacements_written};
ghost use Rattle.zv_framed.specs.Faults.{table_fault};
ghost use Rattle.zv_framed.specs.Read.{IsReadTable, IsSameTable};

use crate::error::FormError;
use crate::form::{Framed, FramedForm};
use crate::frame::{cut_three, frame_parts};
use crate::vector::{OneLayout, part_of};
use std::alloc::Global;
use zv_fixed::{ZeroSlice, ZeroVec};
use zv_hashmap::{HashBytes, HashMapOver};
use zv_map::MutableZeroVecLike;
use zv_ule::{NoMemory, ZvKind};

impl<'a, K: HashBytes, V: ZvKind, C: OneLayout<K>, D: OneLayout<V>> FramedForm
    for HashMapOver<'a, K, V, C, D> {
    ghost count = { 3 };

    ghost usable = { K.usable && V.usable };

    ghost parts = { λ t. displacements_written t.displacements
        ∷ encoding_in C.parse_layout t.keys ∷ encoding_in D.parse_layout t.values ∷ [] };

    ghost fault = { table_fault (reading C.parse_fault C.parse_list)
        (reading D.parse_fault D.parse_list) };

    ghost IsRead = { IsReadTable (reading C.parse_fault C.parse_list)
        (reading D.parse_fault D.parse_list) };

    ghost IsSame = { IsSameTable };
}

/// The bytes that displacements are written as in a frame: all of them.
#[inline]
fn displacements_part(displacements: ZeroSlice<'_, (u32, u32)>) -> &[u8]
    ensures written { result.now ≡ displacements_written (values_in displacements.entry) }
    ensures sound { displacements_fault result.now ≡ None }
    ensures values { displacements_in result.now ≡ values_in displacements.entry }
{
    displacements.as_bytes()
}

impl<'a, K, V, C, D> Framed<'a> for HashMapOver<'a, K, V, C, D>
where
    K: HashBytes,
    V: ZvKind,
    C: MutableZeroVecLike<'a, K> + OneLayout<K> + Drop,
    D: MutableZeroVecLike<'a, V> + OneLayout<V> + Drop,
{
    fn to_framed_bytes(&self, alloc: Global) -> Result<Vec<u8>, NoMemory> {
        let displacements = displacements_part(self.displacements());
        let keys = part_of::<K, C>(self.keys());
        let values = part_of::<V, D>(self.values());
        frame_parts(alloc, &[displacements, keys, values])
    }

    fn parse_framed(bytes: &'a [u8]) -> Result<Self, FormError> {
        let (displacements, keys, values) = cut_three(bytes).ok_or(FormError::Frame)?;
        let displacements = ZeroVec::parse_bytes(displacements)?;
        let keys = C::zvl_parse(keys)?;
        let values = D::zvl_parse(values)?;
        Ok(HashMapOver::from_parts(displacements, keys, values)?)
    }
}
