// Texts, characters, and texts that are no JSON.
ghost use Rattle.std.specs.Prelude.{◌≤◌};

use crate::json::{Cases, becomes, long_text, reads_elements, reads_values, refuses};
use std::alloc::Global;
use std::process::Abort;
use std::test::Fail;
use zv_fixed::ZeroVec;
use zv_json::JsonError;
use zv_json::JsonError::{Shape, Syntax, TooLarge};
use zv_owned::VarZeroVec;
use zv_ule::{Index8, Index16, Index32, StrULE};

const CHARS: Cases<'_> = r#"
Ok ["a","ω","文","𑄃"]
// no two escapes stand for a character past the highest
Syntax ["\udbff\ue000"]
Ok ["\ud83d\ude00"] -> ["😀"]
Syntax ["\ud800"]
Syntax ["\udc00\ud800"]
Range ["ab"]
Range [""]
Range ["e\u0301"]
Shape [97]
Shape [null]
"#;

const TEXTS: Cases<'_> = r#"
Ok ["","a","bc"]
Ok []
Shape ["a",7]
Syntax ["a"
Syntax
Syntax ["a"] x
"#;

const BYTES: Cases<'_> = r#"
Shape "abc"
Shape {}
Shape 7
Shape null
Syntax [1,]
Syntax [01]
"#;

#[test]
fn texts_are_strings(rt: HostRuntime) -> Result<(), Fail> {
    let alloc = rt.alloc();
    reads_values::<char>(&rt, alloc, CHARS)?;
    let highest = "[\"\\udbff\\udfff\"]";
    becomes::<'_, ZeroVec<'_, char>>(&rt, alloc, highest, "[\"\u{10ffff}\"]")?;
    reads_elements::<StrULE, Index8>(&rt, alloc, TEXTS)?;
    reads_elements::<StrULE, Index16>(&rt, alloc, TEXTS)?;
    reads_elements::<StrULE, Index32>(&rt, alloc, TEXTS)?;
    reads_values::<u8>(&rt, alloc, BYTES)
}

type Short<'a> = VarZeroVec<'a, StrULE, Index8>;

#[test]
fn lists_are_too_large_after_their_items(rt: HostRuntime) -> Result<(), Fail> {
    let alloc = rt.alloc();
    let most = long_text(alloc, "[\"", 254, "\"]")?;
    let above = long_text(alloc, "[\"", 255, "\"]")?;
    let other = long_text(alloc, "[\"", 255, "\",7]")?;
    becomes::<'_, Short<'_>>(&rt, alloc, most.as_str(), most.as_str())?;
    refuses::<'_, Short<'_>>(&rt, alloc, above.as_str(), TooLarge);
    refuses::<'_, Short<'_>>(&rt, alloc, other.as_str(), Shape);
    Ok(())
}

// As many arrays in one another are refused so.
fn nests(rt: &impl Abort, alloc: Global, depth: usize, error: JsonError) -> Result<(), Fail>
    requires { depth ≤ 1000 }
{
    let mut text = String::new(alloc);
    for _i in 0..depth {
        text.push('[')?;
    }
    for _i in 0..depth {
        text.push(']')?;
    }
    refuses::<'_, ZeroVec<'_, u8>>(rt, alloc, text.as_str(), error);
    Ok(())
}

#[test]
fn arrays_nest_to_127_levels(rt: HostRuntime) -> Result<(), Fail> {
    let alloc = rt.alloc();
    nests(&rt, alloc, 127, JsonError::Shape)?;
    nests(&rt, alloc, 128, JsonError::Syntax)?;
    nests(&rt, alloc, 200, JsonError::Syntax)
}

#[test]
fn open_arrays_are_no_json(rt: HostRuntime) -> Result<(), Fail> {
    let alloc = rt.alloc();
    let mut text = String::new(alloc);
    for _i in 0..200 {
        text.push('[')?;
    }
    refuses::<'_, ZeroVec<'_, u8>>(&rt, alloc, text.as_str(), Syntax);
    Ok(())
}
