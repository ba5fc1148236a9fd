// A file of names, by the calls of its own crate.
use std::test::Fail;
use zv_callers::files::{load, save};
use zv_callers::names::{Names, name_of, set_name};

#[test]
fn a_file_of_names(rt: HostRuntime) -> Result<(), Fail> {
    let mut names = Names::new();
    let alloc = rt.alloc();
    set_name(&mut names, alloc, "sd", "Sindhi")?;
    set_name(&mut names, alloc, "la", "Latin")?;
    let file = save(&names, alloc)?;
    let kept = load(&file)?;
    assert!(&rt; name_of(&kept, "la").map(|it| it.as_str()) == Some("Latin"));
    assert!(&rt; name_of(&kept, "sd").map(|it| it.as_str()) == Some("Sindhi"));
    assert!(&rt; name_of(&kept, "de").is_none());
    Ok(())
}
