// A table of regions, by the calls of its own crate, and how often its look-ups compare.
use std::alloc::Global;
use std::cell::Cell;
use std::process::Abort;
use std::test::Fail;
use zv_callers::regions::{Regions, clear_region, region, set_region};
use zv_counting::CountingKey;

// Gives a language in a script a region, which it had or not.
fn sets_region(
    rt: &impl Abort,
    table: &mut Regions<'_>,
    alloc: Global,
    script: &str,
    region: &str,
    is_new: bool,
) -> Result<(), Fail> {
    assert!(rt; set_region(table, alloc, "sd", script, region)? == is_new);
    Ok(())
}

// The table gives the language in the script this region.
fn has_region(rt: &impl Abort, table: &Regions<'_>, script: &str, wanted: Option<&str>) {
    let found = region(table, "sd", script).map(|it| it.as_str());
    assert!(rt; found == wanted);
}

#[test]
fn a_table_of_regions(rt: HostRuntime) -> Result<(), Fail> {
    let mut table = Regions::new();
    let alloc = rt.alloc();
    sets_region(&rt, &mut table, alloc, "Deva", "PK", true)?;
    sets_region(&rt, &mut table, alloc, "Deva", "IN", false)?;
    sets_region(&rt, &mut table, alloc, "Arab", "PK", true)?;
    has_region(&rt, &table, "Deva", Some("IN"));
    clear_region(&mut table, alloc, "sd", "Deva")?;
    has_region(&rt, &table, "Deva", None);
    has_region(&rt, &table, "Arab", Some("PK"));
    Ok(())
}

// How many comparisons of each key a look-up of a pair of keys makes.
fn look_up(table: &Regions<'_>, language: &str, script: &str) -> (usize, usize) {
    let (first, second) = (Cell::new(0), Cell::new(0));
    let language = CountingKey::new(language, &first);
    let script = CountingKey::new(script, &second);
    let _ = table.get_2d(&language, &script);
    (first.get(), second.get())
}

// A table of seven languages, each in one script.
fn seven_languages(alloc: Global) -> Result<Regions<'static>, Fail> {
    let mut table = Regions::new();
    for language in ["a", "b", "c", "d", "e", "f", "g"] {
        set_region(&mut table, alloc, language, "Latn", "ZZ")?;
    }
    Ok(table)
}

#[test]
fn a_look_up_halves_the_rows_and_one_row(rt: HostRuntime) -> Result<(), Fail> {
    let table = seven_languages(rt.alloc())?;
    for language in ["a", "b", "c", "d", "e", "f", "g"] {
        let (first, second) = look_up(&table, language, "Latn");
        assert!(rt; (1..=3).contains(&first));
        assert!(rt; second == 1);
    }
    Ok(())
}
