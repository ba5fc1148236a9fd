// Texts for readers, by the calls of their own crate.
use std::process::Abort;
use std::test::Fail;
use zv_callers::readers::text_for;
use zv_map2d::{ImageMap, parse_image};

// The image of "d" in three locales: "en" with "a", "en-GB" with "b", "und" with "c".
const THREE_LOCALES: &[u8] = b"\
    \x03\0\0\0\0\0\0\0\x01\0d\
    \x04\0\0\0\0\0\0\0\x03\0\0\0\
    \x10\0\0\0\0\0\0\0\x03\0\x02\0\x07\0enen-GBund\
    \x09\0\0\0\0\0\0\0\x03\0\x01\0\x02\0abc";

// A reader who prefers these locales reads this text of "d", which has this name.
fn reads(rt: &impl Abort, texts: &ImageMap<'_>, locales: &str, name: &str, text: &[u8]) {
    match text_for(texts, "d", locales) {
        Some(found) => assert!(rt; found.name == name && *found.value.as_bytes() == *text),
        None => panic!(rt; "there is a text for each reader"),
    }
}

#[test]
fn texts_for_readers(rt: HostRuntime) -> Result<(), Fail> {
    let texts = parse_image(THREE_LOCALES)?;
    reads(&rt, &texts, "en-GB-1", "en-GB", b"b");
    reads(&rt, &texts, "fr,en-US", "en", b"a");
    reads(&rt, &texts, "fr", "und", b"c");
    reads(&rt, &texts, "", "und", b"c");
    reads(&rt, &texts, "en--GB", "und", b"c");
    assert!(rt; text_for(&texts, "e", "en").is_none());
    Ok(())
}
