// Worked asks for the data of locales, and what each answers.
use crate::cases::{Case, EMPTY, PAIR};
use crate::runs::{answer_of, join, memory_devices, words_of};
use std::alloc::Global;
use std::process::Abort;
use std::test::Fail;
use zv_tool::{Status, Words};

/// The asks.
pub fn locales() -> &'static [Case] {
    &LOCALES
}

// The image of the row "d": "en" has 01, "en-GB" has 02, and "und" has 03.
const BRITISH: &str = "\
    0300000000000000010064\
    040000000000000003000000\
    1000000000000000030002000700656e656e2d4742756e64\
    0900000000000000030001000200010203";

// The image of the row "d": "de" has 01, "en" has 02 and "eng" has 03.
const NO_ROOT: &str = "\
    0300000000000000010064\
    040000000000000003000000\
    0d000000000000000300020004006465656e656e67\
    0900000000000000030001000200010203";

const LOCALES: [Case; 12] = [
    Case {
        name: "a name whose front is there",
        words: &["locale"],
        input: &["x", BRITISH, "\nask x64 x656e2d47422d31\n"],
        output: &["some x656e2d4742 x02\n"],
        status: Status::Done,
    },
    Case {
        name: "a second locale, whose front is there",
        words: &["locale"],
        input: &["x", BRITISH, "\nask x64 x66722c656e2d5553\n"],
        output: &["some x656e x01\n"],
        status: Status::Done,
    },
    Case {
        name: "the root, and a first key that is not there",
        words: &["locale"],
        input: &["x", BRITISH, "\nask x64 x6672\nask x65 x6672\n"],
        output: &["some x756e64 x03\nnone\n"],
        status: Status::Done,
    },
    Case {
        name: "two hyphens together",
        words: &["locale"],
        input: &["x", BRITISH, "\nask x64 x656e2d2d5553\n"],
        output: &["error line 2\n"],
        status: Status::BadLine,
    },
    Case {
        name: "the fronts of a locale come before the next locale",
        words: &["locale"],
        input: &[
            "x",
            BRITISH,
            "\nask x64 x656e2d55532c656e2d4742\nask x64 x656e2d47422c656e\n",
        ],
        output: &["some x656e x01\nsome x656e2d4742 x02\n"],
        status: Status::Done,
    },
    Case {
        name: "the root by its name, before a locale and after one, and of a longer name",
        words: &["locale"],
        input: &[
            "x",
            BRITISH,
            "\nask x64 x756e64\nask x64 x66722c756e642c656e\nask x64 x656e2c756e64\n",
            "ask x64 x756e642d4742\n",
        ],
        output: &[
            "some x756e64 x03\nsome x756e64 x03\nsome x656e x01\n",
            "some x756e64 x03\n",
        ],
        status: Status::Done,
    },
    Case {
        name: "a row without the root",
        words: &["locale"],
        input: &[
            "x",
            NO_ROOT,
            "\nask x64 x6672\nask x64 x756e64\nask x64 x66722c64652d4154",
        ],
        output: &["none\nnone\nsome x6465 x01\n"],
        status: Status::Done,
    },
    Case {
        name: "a name that begins with another one",
        words: &["locale"],
        input: &[
            "x",
            NO_ROOT,
            "\nask x64 x656e67\nask x64 x656e2d67\nask x64 x656e676c\nask x64 x656e672d656e\n",
        ],
        output: &["some x656e67 x03\nsome x656e x02\nnone\nsome x656e67 x03\n"],
        status: Status::Done,
    },
    Case {
        name: "a name in another case",
        words: &["locale"],
        input: &["x", BRITISH, "\nask x64 x454e\nask x64 x656e2d6762\n"],
        output: &["some x756e64 x03\nsome x656e x01\n"],
        status: Status::Done,
    },
    Case {
        name: "no asks",
        words: &["locale"],
        input: &["x", PAIR],
        output: &[""],
        status: Status::Done,
    },
    Case {
        name: "a bad image",
        words: &["locale"],
        input: &["x00\nask x64 x656e\n"],
        output: &["error frame\n"],
        status: Status::BadImage,
    },
    Case {
        name: "a word after the form of locales",
        words: &["locale", "x64"],
        input: &["x", EMPTY, "\n"],
        output: &["usage: zv COMMAND\n"],
        status: Status::Usage,
    },
];

// Fields of wanted texts that have nothing but the root: a letter 15 times before another, a subtag
// of eight letters, one of digits, many subtags.
const WANTED: [&str; 4] = [
    "x612c612c612c612c612c612c612c612c612c612c612c612c612c612c612c62",
    "x6162636465666768",
    "x3132332d39",
    "x612d612d612d612d612d612d612d612d612d612d612d612d612d612d612d612d612d612d61",
];

// Lines that are bad after an image: a 17th locale; nine letters; a hyphen, alone, at either end;
// a comma, alone, at either end, twice; no locale; another byte, as of `_`, a space, `é`.
const BAD_LINES: [&str; 30] = [
    "ask x64 x612c612c612c612c612c612c612c612c612c612c612c612c612c612c612c612c62",
    "ask x64 x616263646566676869",
    "ask x64 x656e2d616263646566676869",
    "ask x64 x2d",
    "ask x64 x2d656e",
    "ask x64 x656e2d",
    "ask x64 x2c",
    "ask x64 x2c656e",
    "ask x64 x656e2c",
    "ask x64 x656e2c2c6672",
    "ask x64 x656e2d2c6672",
    "ask x64 x",
    "ask x64 x656e5f4742",
    "ask x64 x656e20",
    "ask x64 xc3a9",
    "ask x64 xff",
    "ask x64 x656",
    "ask x64 656e",
    "ask x64 x656e x656e",
    "ask x64 x656e ",
    "ask x64",
    "ask x64 ",
    "ask  x64 x656e",
    "ask xff x656e",
    "ask 64 x656e",
    "ask",
    "",
    "Ask x64 x656e",
    "get x64 x656e",
    "asks x64 x656e",
];

// What the image answers to two lines, of which the first asks for "en".
fn try_line(
    rt: &impl Abort,
    alloc: Global,
    words: &Words,
    line: &str,
    output: &str,
    status: Status,
) -> Result<(), Fail> {
    let input = join(alloc, &["x", BRITISH, "\nask x64 x656e\n", line, "\n"])?;
    let answer = answer_of(alloc, words, memory_devices(alloc, &input, 7, 2_000)?);
    assert!(rt; answer.status == status, "{line}");
    assert!(rt; answer.sink.taken() == output.as_bytes(), "{line}");
    Ok(())
}

#[test]
fn each_bad_ask_is_named(rt: HostRuntime) -> Result<(), Fail> {
    let alloc = rt.alloc();
    let words = words_of(alloc, &["locale"])?;
    for line in &BAD_LINES {
        try_line(&rt, alloc, &words, line, "error line 3\n", Status::BadLine)?;
    }
    Ok(())
}

#[test]
fn each_wanted_text_is_taken(rt: HostRuntime) -> Result<(), Fail> {
    let alloc = rt.alloc();
    let words = words_of(alloc, &["locale"])?;
    let output = "some x656e x01\nsome x756e64 x03\n";
    for wanted in &WANTED {
        let line = format!(in alloc; "ask x64 {wanted}")?;
        try_line(&rt, alloc, &words, &line, output, Status::Done)?;
    }
    Ok(())
}
