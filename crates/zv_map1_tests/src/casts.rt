// Maps whose keys or values are taken as those of another kind.
ghost use Rattle.std.specs.Prelude.{◌≡◌, true};

use std::alloc::Global;
use std::num::NonZeroU8;
use std::process::Abort;
use std::test::Fail;
use zv_map::{MapError, MutableZeroVecLike, ZeroMapKV, ZvContainer};
use zv_map1::MapOver;
use zv_map1::map::casts::{CastInto, ConvertInto};
use zv_ule::{TyName, UleError};

type Of<'a, K> = <K as ZeroMapKV<'a>>::Container;

// 2^32 - 1 has the bytes of -1.
fn become_signed<'a, C, D, E>(rt: &impl Abort, alloc: Global) -> Result<(), Fail>
where
    C: MutableZeroVecLike<'a, u32>,
    D: MutableZeroVecLike<'a, u32> + CastInto<u32, i32, E>,
    E: ZvContainer<i32> + Drop,
{
    let map = MapOver::<u32, u32, C, D>::try_from_pairs(alloc, &[(4, 1), (9, u32::MAX)])?;
    let map = map.cast_zv_v_unchecked::<i32, E>();
    assert!(rt; map.get_copied(&4) == Some(1));
    assert!(rt; map.get_copied(&9) == Some(-1));
    Ok(())
}

#[test]
fn values_become_signed(rt: HostRuntime) -> Result<(), Fail> {
    become_signed::<Of<'_, u32>, Of<'_, u32>, Of<'_, i32>>(&rt, rt.alloc())
}

// A map from numbers to bytes.
type Bytes<C, D> = MapOver<u32, u8, C, D>;

// The map of 4 to 1, and of 9 to a byte.
fn bytes<'a, C, D>(alloc: Global, byte: u8) -> Result<Bytes<C, D>, MapError>
where
    C: MutableZeroVecLike<'a, u32>,
    D: MutableZeroVecLike<'a, u8>,
{
    Bytes::try_from_pairs(alloc, &[(4, 1), (9, byte)])
}

// What 9 has once the bytes are converted, or why they aren't.
fn converted<'a, C, D, E>(map: Bytes<C, D>) -> Result<Option<NonZeroU8>, UleError>
where
    C: MutableZeroVecLike<'a, u32>,
    D: ConvertInto<u8, NonZeroU8, E> + Drop,
    E: ZvContainer<NonZeroU8> + Drop,
    requires { D.ConvertInto.same_width ≡ true }
{
    let map = map.try_convert_zv_v_unchecked::<NonZeroU8, E>()?;
    Ok(map.get_copied(&9))
}

// A number that isn't 0 is one of the other kind.
fn are_converted<'a, C, D, E>(rt: &impl Abort, alloc: Global) -> Result<(), Fail>
where
    C: MutableZeroVecLike<'a, u32>,
    D: MutableZeroVecLike<'a, u8> + ConvertInto<u8, NonZeroU8, E>,
    E: ZvContainer<NonZeroU8> + Drop,
    requires { D.ConvertInto.same_width ≡ true }
{
    let whole = converted::<C, D, E>(bytes(alloc, 255)?);
    assert!(rt; whole == Ok(NonZeroU8::new(255)));
    let refused = converted::<C, D, E>(bytes(alloc, 0)?);
    assert!(rt; refused == Err(UleError::parse(TyName::NonZeroU8)));
    Ok(())
}

#[test]
fn values_are_converted(rt: HostRuntime) -> Result<(), Fail> {
    are_converted::<Of<'_, u32>, Of<'_, u8>, Of<'_, NonZeroU8>>(&rt, rt.alloc())
}

// The keys of a map ascend by the order of their own kind.
fn are_taken<'a, C, D>(rt: &impl Abort, alloc: Global) -> Result<(), Fail>
where
    C: MutableZeroVecLike<'a, u32> + CastInto<u32, u32, C> + ConvertInto<u32, u32, C>,
    D: MutableZeroVecLike<'a, u8>,
    requires { C.ConvertInto.same_width ≡ true }
{
    let map = bytes::<C, D>(alloc, 255)?;
    map.in_order();
    let map = map.cast_zv_k_unchecked::<u32, C>();
    map.in_order();
    let map = map.try_convert_zv_k_unchecked::<u32, C>()?;
    assert!(rt; map.get_copied(&9) == Some(255));
    Ok(())
}

#[test]
fn keys_are_taken(rt: HostRuntime) -> Result<(), Fail> {
    are_taken::<Of<'_, u32>, Of<'_, u8>>(&rt, rt.alloc())
}
