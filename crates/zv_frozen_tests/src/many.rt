// As many pairs as a frozen image holds.
ghost use Rattle.std.specs.Prelude.{◌≡◌, ◌<◌, ◌^◌, length};

use std::alloc::{AllocError, Global};
use std::marker::Brand;
use std::process::Abort;
use std::sync::ledger::{Blank, Ledger};
use std::test::Fail;
use zv_frozen::{FreezeError, Frozen, freeze};
use zv_map::FlexULE;
use zv_map2d::ImageMap;
use zv_ule::{Steps, VarRef};

// How many keys of two texts of one byte fit in a list with fields of two bytes: each takes eight
// of 65,535 bytes.
const MOST: u16 = 8191;

// The text of one byte: the last seven binary digits of a number.
fn text(alloc: Global, number: u16) -> Result<String, AllocError> {
    let mut text = String::new(alloc);
    text.push((number % 128) as u8 as char)?;
    Ok(text)
}

// A text that is at hand is shorter than 2^64 bytes. It does nothing.
fn text_is_short(text: &str)
    ensures { length text.now < 2 ^ 64 }
{}

// Puts a number for its pair: the texts of its digits by 128.
fn put(alloc: Global, map: &mut ImageMap<'static>, number: u16) -> Result<(), Fail> {
    let (key0, key1) = (text(alloc, number / 128)?, text(alloc, number)?);
    let (key0, key1) = (key0.as_str(), key1.as_str());
    text_is_short(key0);
    text_is_short(key1);
    let bytes = number.to_le_bytes();
    let value = FlexULE::of_plain(VarRef::of_bytes(&bytes));
    let _ = map.insert(alloc, &key0, &key1, &value)?;
    Ok(())
}

// The frozen image of the numbers below a count, each under its pair, or why there is none.
fn frozen_of(alloc: Global, count: u16) -> Result<Result<Vec<u8>, FreezeError>, Fail> {
    let mut map = ImageMap::new();
    for number in 0..count {
        put(alloc, &mut map, number)?;
    }
    Ok(freeze(alloc, &map))
}

// Whether a look-up that is counted answers as one that isn't. (A caller can't name the ledger of
// a call that is given a `&str`.)
fn is_counted_alike<L: Ledger>(
    frozen: &Frozen<'_>,
    key0: &String,
    key1: &String,
    blank: Blank,
) -> bool
    requires name { blank.name ≡ L.name }
    requires parts { blank.parts ≡ L.parts }
    requires some { 0 < blank.parts }
{
    let mut steps = Steps::<L>::start(blank);
    let (key0, key1) = (key0.as_str(), key1.as_str());
    let counted = frozen.get_counted(key0, key1, &mut steps);
    match (frozen.get(key0, key1), counted) {
        (Some(value), Some(counted)) => value.as_bytes() == counted.as_bytes(),
        (None, None) => true,
        _ => false,
    }
}

// Whether the pair of a number has it, counted or not, or has nothing where it is not put.
fn is_asked(
    alloc: Global,
    frozen: &Frozen<'_>,
    number: u16,
    is_put: bool,
) -> Result<bool, AllocError> {
    let (key0, key1) = (text(alloc, number / 128)?, text(alloc, number)?);
    let is_told = match frozen.get(key0.as_str(), key1.as_str()) {
        Some(value) => is_put && value.as_bytes() == number.to_le_bytes().as_slice(),
        None => !is_put,
    };
    Ok(is_told && is_counted_alike::<Brand>(frozen, &key0, &key1, Blank::new(1)))
}

#[test]
fn as_many_pairs_as_fit_are_found(rt: HostRuntime) -> Result<(), Fail> {
    let alloc = rt.alloc();
    let bytes = frozen_of(alloc, MOST)??;
    let frozen = Frozen::parse(&bytes)?;
    assert!(rt; frozen.len() == MOST as usize);
    for number in 0..16_384 {
        assert!(rt; is_asked(alloc, &frozen, number, number < MOST)?);
    }
    Ok(())
}

#[test]
fn one_pair_more_is_too_large(rt: HostRuntime) -> Result<(), Fail> {
    let frozen = frozen_of(rt.alloc(), MOST + 1)?;
    assert!(&rt; matches!(frozen, Err(FreezeError::TooLarge)));
    Ok(())
}

#[test]
fn no_pairs_are_three_empty_parts(rt: HostRuntime) -> Result<(), Fail> {
    let bytes = frozen_of(rt.alloc(), 0)??;
    assert!(&rt; bytes.as_slice() == [0u8; 24].as_slice());
    Ok(())
}
