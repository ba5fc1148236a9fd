// Maps of either level and hash tables at the containers of kinds. They meet in few functions,
// since a proof about the containers of a kind takes half a minute.

use crate::{maps, maps2d, tables};
use std::alloc::Global;
use std::num::NonZeroU8;
use std::process::Abort;
use std::test::Fail;
use zv_framed::OneLayout;
use zv_map::{MutableZeroVecLike, ZeroMapKV};
use zv_ule::StrULE;

type Of<'a, K> = <K as ZeroMapKV<'a>>::Container;

fn have_both<'a, C0, C1, D>(rt: &impl Abort, alloc: Global) -> Result<(), Fail>
where
    C0: MutableZeroVecLike<'a, u32> + OneLayout<u32>,
    C1: MutableZeroVecLike<'a, u16> + OneLayout<u16>,
    D: MutableZeroVecLike<'a, StrULE> + OneLayout<StrULE>,
{
    maps::have_both::<C0, D>(rt, alloc)?;
    maps2d::have_both::<C0, C1, D>(rt, alloc)?;
    tables::have_both::<C0, D>(rt, alloc)
}

#[test]
fn numbers_to_texts(rt: HostRuntime) -> Result<(), Fail> {
    have_both::<Of<'_, u32>, Of<'_, u16>, Of<'_, StrULE>>(&rt, rt.alloc())
}

fn other_keys<'a, C0, C1, C2, D>(rt: &impl Abort, alloc: Global) -> Result<(), Fail>
where
    C0: MutableZeroVecLike<'a, (u32, u32)>,
    C1: MutableZeroVecLike<'a, i8>,
    C2: MutableZeroVecLike<'a, NonZeroU8> + OneLayout<NonZeroU8>,
    D: MutableZeroVecLike<'a, StrULE> + OneLayout<StrULE>,
{
    maps::are_arrays::<C0, D>(rt, alloc)?;
    maps::are_signed::<C1>(rt, alloc)?;
    maps2d::are_refused::<C2, D>(rt);
    Ok(())
}

#[test]
fn pairs_signs_and_faults(rt: HostRuntime) -> Result<(), Fail> {
    let alloc = rt.alloc();
    other_keys::<Of<'_, (u32, u32)>, Of<'_, i8>, Of<'_, NonZeroU8>, Of<'_, StrULE>>(&rt, alloc)
}
