// The lists that `Default` gives.
use zv_fixed::{ZeroSlice, ZeroSliceULE, ZeroVec};
use zv_owned::VarZeroVec16;
use zv_ule::{Index16, SliceULE, StrULE};
use zv_var::{VarZeroSliceULE, VarZeroVecComponents};

#[test]
fn default_lists_are_empty(rt: HostRuntime) {
    assert!(rt; ZeroSlice::<'_, char>::default().is_empty());
    let numbers = ZeroVec::<'_, u32>::default();
    assert!(rt; numbers.is_empty() && !numbers.is_owned());
    assert!(rt; VarZeroVecComponents::<'_, StrULE, Index16>::default().is_empty());
    let texts = VarZeroVec16::<'_, StrULE>::default();
    assert!(rt; texts.is_empty() && !texts.is_owned());
}

#[test]
fn lists_of_composed_kinds_have_defaults(rt: HostRuntime) {
    assert!(rt; ZeroVec::<'_, Option<char>>::default().is_empty());
    assert!(rt; ZeroVec::<'_, (u8, i128, bool)>::default().is_empty());
    assert!(rt; VarZeroVec16::<'_, SliceULE<u8>>::default().is_empty());
    assert!(rt; VarZeroVec16::<'_, ZeroSliceULE<(u32, char)>>::default().is_empty());
    assert!(rt; VarZeroVec16::<'_, VarZeroSliceULE<StrULE, Index16>>::default().is_empty());
}
