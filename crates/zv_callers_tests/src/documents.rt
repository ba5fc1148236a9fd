// A JSON document of names, by the calls of its own crate.
use std::test::Fail;
use zv_callers::documents::{read_names, write_names};
use zv_callers::names::{Names, name_of, set_name};
use zv_json::JsonError;

#[test]
fn a_document_of_names(rt: HostRuntime) -> Result<(), Fail> {
    let mut names = Names::new();
    let alloc = rt.alloc();
    set_name(&mut names, alloc, "sd", "Sindhi")?;
    set_name(&mut names, alloc, "la", "Latin")?;
    let document = write_names(&names, alloc)?;
    assert!(rt; document.as_str() == "{\"la\":\"Latin\",\"sd\":\"Sindhi\"}");
    let read = read_names(alloc, document.as_str())?;
    assert!(rt; name_of(&read, "la").map(|it| it.as_str()) == Some("Latin"));
    assert!(rt; name_of(&read, "sd").map(|it| it.as_str()) == Some("Sindhi"));
    assert!(rt; name_of(&read, "de").is_none());
    Ok(())
}

#[test]
fn a_text_that_is_no_document(rt: HostRuntime) -> Result<(), Fail> {
    let alloc = rt.alloc();
    assert!(rt; read_names(alloc, "{\"la\"").err() == Some(JsonError::Syntax));
    assert!(rt; read_names(alloc, "{\"la\":7}").err() == Some(JsonError::Shape));
    Ok(())
}
