// Lists of values of fixed width as keys: their bytes.
ghost use Rattle.std.specs.Prelude.{◌≡◌, ℕ, List, flat_map};
ghost use Rattle.zv_ule.specs.Chunks.{values_of};
ghost use Rattle.zv_hashmap.specs.Laws.{alike_by, exact_lists};

use crate::key::{FixedKey, HashBytes};
use zv_fixed::ZeroSliceULE;
use zv_xxhash::XxHash64;

impl<T: FixedKey> HashBytes for ZeroSliceULE<T> {
    ghost hashed = { λ b. flat_map (λ v. T.ULE.chunk (T.stored v))
        (values_of T.ULE.width (λ c. T.loaded (T.ULE.value c)) b) };

    #[inline]
    fn hash_element(element: &[u8], hasher: &mut XxHash64) {
        hasher.write(element);
    }

    ghost alike = { alike_by (values_of T.ULE.width (λ c. T.loaded (T.ULE.value c)))
        (flat_map (λ v. T.ULE.chunk (T.stored v))) (exact_lists T.Ord.cmp T.exact) };
}
