// Values that are written as a list, with its count and without, by the calls for it.
use std::alloc::Global;
use std::process::Abort;
use std::test::Fail;
use zv_ule::{Index8, Index16, Index32, StrULE, VarZeroVecFormat};
use zv_var::{
    compute_serializable_len, compute_serializable_len_without_length,
    get_serializable_bytes_non_empty, write_serializable_bytes,
    write_serializable_bytes_without_length,
};

// The texts are written as a list of these bytes.
fn is_written<F: VarZeroVecFormat>(
    rt: &impl Abort,
    alloc: Global,
    texts: &[&str],
    bytes: &[u8],
) -> Result<(), Fail> {
    let Some(len) = compute_serializable_len::<StrULE, &str, F>(texts) else {
        panic!(rt; "the texts have a list");
    };
    let mut written = Vec::new(alloc);
    written.resize(len as usize, 9)?;
    write_serializable_bytes::<StrULE, &str, F>(texts, &mut written);
    assert!(rt; written.as_slice() == bytes);
    Ok(())
}

// And as one without its count.
fn is_written_without_count<F: VarZeroVecFormat>(
    rt: &impl Abort,
    alloc: Global,
    texts: &[&str],
    bytes: &[u8],
) -> Result<(), Fail> {
    let Some(len) = compute_serializable_len_without_length::<StrULE, &str, F>(texts) else {
        panic!(rt; "the texts have a list");
    };
    let mut written = Vec::new(alloc);
    written.resize(len as usize, 9)?;
    write_serializable_bytes_without_length::<StrULE, &str, F>(texts, &mut written);
    assert!(rt; written.as_slice() == bytes);
    Ok(())
}

// Both, and as many bytes of its own, whose first `F::W` are the count.
fn are_written<F: VarZeroVecFormat>(
    rt: &impl Abort,
    alloc: Global,
    texts: &[&str],
    bytes: &[u8],
) -> Result<(), Fail> {
    is_written::<F>(rt, alloc, texts, bytes)?;
    assert!(rt; F::W <= bytes.len());
    is_written_without_count::<F>(rt, alloc, texts, &bytes[F::W..])?;
    assert!(rt; !texts.is_empty());
    let owned = get_serializable_bytes_non_empty::<StrULE, &str, F>(alloc, texts)?;
    assert!(rt; owned.as_deref() == Some(bytes));
    Ok(())
}

#[test]
fn texts_are_written(rt: HostRuntime) -> Result<(), Fail> {
    let alloc = rt.alloc();
    are_written::<Index8>(&rt, alloc, &["a", "bc"], b"\x02\x01abc")?;
    are_written::<Index16>(&rt, alloc, &["a", "bc"], b"\x02\0\x01\0abc")?;
    are_written::<Index32>(&rt, alloc, &["a", "bc"], b"\x02\0\0\0\x01\0\0\0abc")?;
    are_written::<Index16>(&rt, alloc, &["ω"], b"\x01\0\xcf\x89")
}

#[test]
fn no_texts_are_a_count(rt: HostRuntime) -> Result<(), Fail> {
    let alloc = rt.alloc();
    is_written::<Index8>(&rt, alloc, &[], b"\0")?;
    is_written::<Index16>(&rt, alloc, &[], b"\0\0")?;
    is_written::<Index32>(&rt, alloc, &[], b"\0\0\0\0")?;
    is_written_without_count::<Index16>(&rt, alloc, &[], b"")
}

// How many bytes a text of so many letters has as a list in fields of one byte, with its count and
// without.
fn lengths(alloc: Global, letters: usize) -> Result<(Option<u32>, Option<u32>), Fail> {
    let text = ["a".repeat(alloc, letters)?];
    let with_count = compute_serializable_len::<StrULE, String, Index8>(&text);
    let without = compute_serializable_len_without_length::<StrULE, String, Index8>(&text);
    Ok((with_count, without))
}

#[test]
fn a_list_is_below_what_a_field_holds(rt: HostRuntime) -> Result<(), Fail> {
    let alloc = rt.alloc();
    assert!(rt; lengths(alloc, 253)? == (Some(254), Some(253)));
    assert!(rt; lengths(alloc, 254)? == (Some(255), Some(254)));
    assert!(rt; lengths(alloc, 255)? == (None, None));
    Ok(())
}
