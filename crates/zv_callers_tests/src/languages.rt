// A table of languages, by the calls of its own crate.
use std::process::Abort;
use std::test::Fail;
use zv_callers::languages::{Languages, regions, script, set_language};

// The language has this script, and the list of its regions has these bytes.
fn has(rt: &impl Abort, table: &Languages<'_>, language: &str, wanted: &str, list: &[u8]) {
    assert!(rt; script(table, language).map(|it| it.as_str()) == Some(wanted));
    match regions(table, language) {
        Some(found) => assert!(rt; *found.as_bytes() == *list),
        None => panic!(rt; "the language is there"),
    }
}

#[test]
fn a_table_of_languages(rt: HostRuntime) -> Result<(), Fail> {
    let mut table = Languages::new();
    let alloc = rt.alloc();
    set_language(&mut table, alloc, "sd", "Sindhi", "Deva", &["IN"])?;
    set_language(&mut table, alloc, "la", "Latin", "Latn", &[])?;
    set_language(&mut table, alloc, "sd", "Sindhi", "Arab", &["PK", "IN"])?;
    has(&rt, &table, "sd", "Arab", b"\x02\0\x02\0PKIN");
    has(&rt, &table, "la", "Latn", b"\0\0");
    assert!(rt; script(&table, "de").is_none() && regions(&table, "de").is_none());
    Ok(())
}
