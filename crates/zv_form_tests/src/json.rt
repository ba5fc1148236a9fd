// What texts are read as, and written as again.
ghost use Rattle.std.specs.Prelude.{IsTrue};

mod elements;
mod names;
mod numbers;
mod texts;

use serde_json::Value;
use std::alloc::Global;
use std::process::Abort;
use std::test::Fail;
use zv_fixed::ZeroVec;
use zv_forms::{JsonForm, ToJson};
use zv_json::{JsonError, JsonKind, JsonValue};
use zv_owned::VarZeroVec;
use zv_ule::{VarULE, VarZeroVecFormat};

/// What comes of texts, a line for each. A text that is read stands behind `Ok`, and where it is
/// written as another one, that stands behind `->`. A text that is refused stands behind the name
/// of its error. Empty lines and lines that begin with `//` are passed over.
pub(crate) type Cases<'a> = &'a str;

// The error of a name.
fn error_of(name: &str) -> Option<JsonError> {
    match name {
        "BadKey" => Some(JsonError::BadKey),
        "KeyOrder" => Some(JsonError::KeyOrder),
        "Range" => Some(JsonError::Range),
        "Shape" => Some(JsonError::Shape),
        "Syntax" => Some(JsonError::Syntax),
        "Wide" => Some(JsonError::Wide),
        _ => None,
    }
}

/// The text of a line of cases, and what it is written as or why it is refused.
/// A line that begins with any other word stops the test.
pub(crate) fn case_of<'c>(
    rt: &impl Abort,
    line: &'c str,
) -> Option<(&'c str, Result<&'c str, JsonError>)> {
    if line.is_empty() || line.starts_with("//") {
        return None;
    }
    let (name, text) = line.split_once(' ').unwrap_or((line, ""));
    if name == "Ok" {
        let (text, wanted) = text.split_once(" -> ").unwrap_or((text, text));
        return Some((text, Ok(wanted)));
    }
    let Some(error) = error_of(name) else {
        panic!(rt; "{line}");
    };
    Some((text, Err(error)))
}

// The text is read, and written as another one.
fn becomes<'a, F: JsonForm<'a> + Drop>(
    rt: &impl Abort,
    alloc: Global,
    text: &str,
    wanted: &str,
) -> Result<(), Fail>
    requires { IsTrue F.usable }
{
    let container = F::from_json_text(alloc, text)?;
    is_written(rt, alloc, &container, wanted)
}

// A value is printed as a text.
pub(crate) fn is_text(
    rt: &impl Abort,
    alloc: Global,
    value: &Value,
    wanted: &str,
) -> Result<(), Fail> {
    let printed = value.to_string(alloc)?;
    assert!(rt; printed.as_str() == wanted, "{wanted}");
    Ok(())
}

// A container is written as a text.
pub(crate) fn is_written<F: ToJson>(
    rt: &impl Abort,
    alloc: Global,
    container: &F,
    wanted: &str,
) -> Result<(), Fail> {
    is_text(rt, alloc, &container.to_json(alloc)?, wanted)
}

// A text is refused by an error.
pub(crate) fn refuses<'a, F: JsonForm<'a> + Drop>(
    rt: &impl Abort,
    alloc: Global,
    text: &str,
    error: JsonError,
)
    requires { IsTrue F.usable }
{
    let refusal = F::from_json_text(alloc, text).err();
    assert!(rt; refusal == Some(error), "{text}");
}

// What comes of each text is so.
pub(crate) fn reads<'a, F: JsonForm<'a> + Drop>(
    rt: &impl Abort,
    alloc: Global,
    cases: Cases<'_>,
) -> Result<(), Fail>
    requires { IsTrue F.usable }
{
    for line in cases.lines() {
        match case_of(rt, line) {
            Some((text, Ok(wanted))) => becomes::<'_, F>(rt, alloc, text, wanted)?,
            Some((text, Err(error))) => refuses::<'_, F>(rt, alloc, text, error),
            None => {}
        }
    }
    Ok(())
}

// What comes of each text is so, where it is read as a vector of such values.
fn reads_values<T: JsonValue>(rt: &impl Abort, alloc: Global, cases: Cases<'_>) -> Result<(), Fail>
    requires { IsTrue T.usable }
{
    reads::<'_, ZeroVec<'_, T>>(rt, alloc, cases)
}

// What comes of each text is so, where it is read as a list of such elements.
fn reads_elements<T: JsonKind + VarULE, F: VarZeroVecFormat>(
    rt: &impl Abort,
    alloc: Global,
    cases: Cases<'_>,
) -> Result<(), Fail>
    requires { IsTrue T.usable }
{
    reads::<'_, VarZeroVec<'_, T, F>>(rt, alloc, cases)
}

/// A text of so many letters, between two others.
pub(crate) fn long_text(
    alloc: Global,
    before: &str,
    count: usize,
    behind: &str,
) -> Result<String, Fail> {
    let mut text = String::new(alloc);
    text.push_str(before)?;
    for _i in 0..count {
        text.push('a')?;
    }
    text.push_str(behind)?;
    Ok(text)
}
