// Numbers at their bounds.

use crate::json::{Cases, reads_values};
use std::num::{NonZeroI8, NonZeroU8};
use std::test::Fail;
use zv_fixed::ZeroVec;
use zv_forms::ToJson;
use zv_json::{JsonError, JsonKind};

const U8: Cases<'_> = r#"
Ok [0,255]
Ok []
Range [256]
Range [-1]
Wide [-0]
Wide [1.0]
Shape ["1"]
Shape [null]
Shape [true]
"#;

const I8: Cases<'_> = r#"
Ok [-128,127]
Range [128]
Range [-129]
"#;

const U16: Cases<'_> = r#"
Ok [0,65535]
Range [65536]
"#;

const I16: Cases<'_> = r#"
Ok [-32768,32767]
Range [32768]
Range [-32769]
"#;

const U32: Cases<'_> = r#"
Ok [0,4294967295]
Range [4294967296]
Wide [1.5]
Wide [1e2]
Wide [18446744073709551616]
"#;

const I32: Cases<'_> = r#"
Ok [-2147483648,2147483647]
Range [2147483648]
Range [-2147483649]
"#;

const U64: Cases<'_> = r#"
Ok [0,18446744073709551615]
Wide [18446744073709551616]
Range [-1]
"#;

const I64: Cases<'_> = r#"
Ok [-9223372036854775808,9223372036854775807]
Range [9223372036854775808]
Wide [18446744073709551616]
Wide [-9223372036854775809]
"#;

const U128: Cases<'_> = r#"
Ok [0,18446744073709551615]
Wide [18446744073709551616]
Range [-1]
Wide [-9223372036854775809]
"#;

const I128: Cases<'_> = r#"
Ok [-9223372036854775808,18446744073709551615]
Wide [18446744073709551616]
Wide [-9223372036854775809]
"#;

const NON_ZERO_U8: Cases<'_> = r#"
Ok [1,255]
Range [0]
Range [256]
"#;

const NON_ZERO_I8: Cases<'_> = r#"
Ok [-128,-1,1,127]
Range [0]
Range [128]
"#;

#[test]
fn numbers_without_a_sign_are_read_in_their_range(rt: HostRuntime) -> Result<(), Fail> {
    let alloc = rt.alloc();
    reads_values::<u8>(&rt, alloc, U8)?;
    reads_values::<u16>(&rt, alloc, U16)?;
    reads_values::<u32>(&rt, alloc, U32)?;
    reads_values::<u64>(&rt, alloc, U64)?;
    reads_values::<u128>(&rt, alloc, U128)?;
    reads_values::<NonZeroU8>(&rt, alloc, NON_ZERO_U8)
}

#[test]
fn numbers_with_a_sign_are_read_in_their_range(rt: HostRuntime) -> Result<(), Fail> {
    let alloc = rt.alloc();
    reads_values::<i8>(&rt, alloc, I8)?;
    reads_values::<i16>(&rt, alloc, I16)?;
    reads_values::<i32>(&rt, alloc, I32)?;
    reads_values::<i64>(&rt, alloc, I64)?;
    reads_values::<i128>(&rt, alloc, I128)?;
    reads_values::<NonZeroI8>(&rt, alloc, NON_ZERO_I8)
}

#[test]
fn numbers_past_64_bits_are_not_written(rt: HostRuntime) -> Result<(), Fail> {
    let alloc = rt.alloc();
    let above = ZeroVec::<'_, u128>::alloc_from_slice(alloc, &[1 << 64])?;
    assert!(&rt; above.to_json(alloc).err() == Some(JsonError::Wide));
    let below = ZeroVec::<'_, i128>::alloc_from_slice(alloc, &[-9_223_372_036_854_775_809])?;
    assert!(&rt; below.to_json(alloc).err() == Some(JsonError::Wide));
    let lowest = ZeroVec::<'_, i128>::alloc_from_slice(alloc, &[-9_223_372_036_854_775_808])?;
    let written = lowest.to_json(alloc)?.to_string(alloc)?;
    assert!(&rt; written.as_str() == "[-9223372036854775808]");
    Ok(())
}

#[test]
fn a_byte_is_an_element_and_a_key(rt: HostRuntime) -> Result<(), Fail> {
    let alloc = rt.alloc();
    let value = u8::element_to_json(alloc, &[7])?;
    assert!(&rt; value.as_u64() == Some(7));
    assert!(&rt; u8::element_from_json(alloc, &value)?.as_bytes() == [7].as_slice());
    let name = u8::key_to_text(alloc, &[7])?;
    assert!(&rt; name.as_ref().map(String::as_str) == Some("7"));
    assert!(&rt; u8::key_from_text(alloc, "7")?.as_bytes() == [7].as_slice());
    assert!(&rt; u8::key_from_text(alloc, "256").err() == Some(JsonError::BadKey));
    Ok(())
}
