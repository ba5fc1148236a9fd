// The framed form of maps in one level: keys, values.
ghost use Rattle.std.specs.Prelude.{◌≡◌, ◌∷◌, [], ◌&&◌, None};
ghost use Rattle.zv_map.specs.Layouts.{encoding_in};
ghost use Rattle.zv_map.specs.Maps.{keys_of, values_of};
ghost use Rattle.zv_map1.specs.Building.{columns_fault};
ghost use Rattle.zv_map2d.specs.Causes.{reading};
ghost use Rattle.zv_framed.specs.Faults.{map_fault};
ghost use Rattle.zv_framed.specs.Read.{IsReadMap};

use crate::error::FormError;
use crate::form::{Framed, FramedForm};
use crate::frame::{cut_two, frame_parts};
use crate::vector::{OneLayout, part_of};
use std::alloc::Global;
use zv_map::{MutableZeroVecLike, ZvContainer};
use zv_map1::MapOver;
use zv_ule::{NoMemory, ZvKind, ZvOrd};

impl<K: ZvOrd, V: ZvKind, C: OneLayout<K>, D: OneLayout<V>> FramedForm for MapOver<K, V, C, D> {
    ghost count = { 2 };

    ghost usable = { K.usable && V.usable };

    ghost parts = { λ m. encoding_in C.parse_layout (keys_of m.pairs)
        ∷ encoding_in D.parse_layout (values_of m.pairs) ∷ [] };

    ghost fault = { map_fault (reading C.parse_fault C.parse_list)
        (reading D.parse_fault D.parse_list) K.cmp };

    ghost IsRead = { IsReadMap (reading C.parse_fault C.parse_list)
        (reading D.parse_fault D.parse_list) };

    ghost IsSame = { λ m n. n.pairs ≡ m.pairs };
}

/// The lists of a map have no fault. It does nothing.
#[inline]
fn lists_are_sound<K: ZvOrd, V: ZvKind, C: ZvContainer<K>, D: ZvContainer<V>>(
    map: &MapOver<K, V, C, D>,
)
    ensures { columns_fault K.cmp (keys_of map.now.pairs) (values_of map.now.pairs) ≡ None }
{
    map.in_order();
}

impl<'a, K, V, C, D> Framed<'a> for MapOver<K, V, C, D>
where
    K: ZvOrd,
    V: ZvKind,
    C: MutableZeroVecLike<'a, K> + OneLayout<K> + Drop,
    D: MutableZeroVecLike<'a, V> + OneLayout<V> + Drop,
{
    fn to_framed_bytes(&self, alloc: Global) -> Result<Vec<u8>, NoMemory> {
        lists_are_sound(self);
        let map = self.as_borrowed();
        let keys = part_of::<K, C>(map.keys());
        let values = part_of::<V, D>(map.values());
        frame_parts(alloc, &[keys, values])
    }

    fn parse_framed(bytes: &'a [u8]) -> Result<Self, FormError> {
        let (keys, values) = cut_two(bytes).ok_or(FormError::Frame)?;
        let keys = C::zvl_parse(keys)?;
        let values = D::zvl_parse(values)?;
        Ok(MapOver::from_vecs(keys, values)?)
    }
}
