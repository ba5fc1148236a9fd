// Names of elements as keys of objects.
ghost use Rattle.std.specs.Prelude.{IsTrue};

use std::alloc::Global;
use std::process::Abort;
use std::test::Fail;
use zv_json::{JsonError, JsonKey};

// Each of these texts is a key's name, and none of the others is.
fn are_names<K: JsonKey>(
    rt: &impl Abort,
    alloc: Global,
    names: &[&str],
    others: &[&str],
) -> Result<(), Fail>
    requires { IsTrue K.usable }
{
    for text in names {
        let key = K::key_from_text(alloc, text)?;
        let name = K::key_to_text(alloc, key.as_bytes())?;
        assert!(rt; name.as_ref().map(String::as_str) == Some(*text), "{text}");
    }
    for text in others {
        let refusal = K::key_from_text(alloc, text).err();
        assert!(rt; refusal == Some(JsonError::BadKey), "{text}");
    }
    Ok(())
}

// Texts that are the names of no numbers.
const NO_NUMBERS: [&str; 12] = [
    "", "-", "-0", "+1", "01", "-01", " 1", "1 ", "1.0", "1e0", "0x1", "a",
];

// 0, 1 and the bounds are names; the numbers beyond them and other texts are none.
fn are_numbers<K: JsonKey>(
    rt: &impl Abort,
    alloc: Global,
    bounds: &[&str],
    beyond: &[&str],
) -> Result<(), Fail>
    requires { IsTrue K.usable }
{
    are_names::<K>(rt, alloc, bounds, beyond)?;
    are_names::<K>(rt, alloc, &["0", "1"], &NO_NUMBERS)
}

#[test]
fn characters_are_names(rt: HostRuntime) -> Result<(), Fail> {
    are_names::<char>(&rt, rt.alloc(), &["a", "ω"], &["", "ab", " 1"])
}

#[test]
fn numbers_without_a_sign_are_names(rt: HostRuntime) -> Result<(), Fail> {
    let alloc = rt.alloc();
    are_numbers::<u8>(&rt, alloc, &["255"], &["256", "-1"])?;
    are_numbers::<u16>(&rt, alloc, &["65535"], &["65536", "-1"])?;
    are_numbers::<u32>(&rt, alloc, &["4294967295"], &["4294967296", "-1"])?;
    are_numbers::<u64>(
        &rt,
        alloc,
        &["18446744073709551615"],
        &["18446744073709551616", "-1"],
    )?;
    are_numbers::<u128>(
        &rt,
        alloc,
        &["340282366920938463463374607431768211455"],
        &["340282366920938463463374607431768211456", "-1"],
    )
}

#[test]
fn numbers_with_a_sign_are_names(rt: HostRuntime) -> Result<(), Fail> {
    let alloc = rt.alloc();
    are_numbers::<i8>(&rt, alloc, &["-128", "-1", "127"], &["-129", "128"])?;
    are_numbers::<i16>(&rt, alloc, &["-32768", "32767"], &["-32769", "32768"])?;
    are_numbers::<i32>(
        &rt,
        alloc,
        &["-2147483648", "2147483647"],
        &["-2147483649", "2147483648"],
    )?;
    are_numbers::<i64>(
        &rt,
        alloc,
        &["-9223372036854775808", "9223372036854775807"],
        &["-9223372036854775809", "9223372036854775808"],
    )?;
    are_numbers::<i128>(
        &rt,
        alloc,
        &[
            "-170141183460469231731687303715884105728",
            "170141183460469231731687303715884105727",
        ],
        &[
            "-170141183460469231731687303715884105729",
            "170141183460469231731687303715884105728",
        ],
    )
}
