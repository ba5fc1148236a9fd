// Lists and maps of either level at the containers of kinds. They meet in few functions, since a
// proof about the containers of a kind takes half a minute.
use crate::containers::{NUMBER, NUMBERS, TEXT, TEXTS, try_calls};
use crate::{maps, maps2d};
use std::alloc::Global;
use std::process::Abort;
use std::test::Fail;
use zv_map::{FlexULE, MutableZeroVecLike, ZeroMapKV};
use zv_ule::StrULE;

type Of<'a, K> = <K as ZeroMapKV<'a>>::Container;

// Makes each call on lists of numbers, lists of texts, and maps from numbers to texts.
fn try_both<'a, C, D>(rt: &impl Abort, alloc: Global) -> Result<(), Fail>
where
    C: MutableZeroVecLike<'a, u32>,
    D: MutableZeroVecLike<'a, StrULE>,
{
    try_calls::<u32, C, u32>(rt, alloc, NUMBER, &NUMBERS, &7)?;
    try_calls::<StrULE, D, &str>(rt, alloc, TEXT, &TEXTS, &"bc")?;
    maps::try_calls::<C, D>(rt, alloc)?;
    maps2d::try_calls::<C, D>(rt, alloc)
}

#[test]
fn numbers_and_texts_are_as_they_were(rt: HostRuntime) -> Result<(), Fail> {
    try_both::<Of<'_, u32>, Of<'_, StrULE>>(&rt, rt.alloc())
}

#[test]
fn texts_of_either_form_are_as_they_were(rt: HostRuntime) -> Result<(), Fail> {
    let alloc = rt.alloc();
    try_calls::<FlexULE<StrULE>, Of<'_, FlexULE<StrULE>>, &str>(&rt, alloc, TEXT, &TEXTS, &"bc")
}
