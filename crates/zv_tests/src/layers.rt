// Images laid one over another, and what each input is answered.
use crate::cases::{Case, EMPTY, PAIR};
use crate::long_inputs::{Part, text_of};
use crate::runs::{answer_of, memory_devices, words_of};
use std::alloc::Global;
use std::process::Abort;
use std::test::Fail;
use zv_tool::Status;

/// Images with those over them.
pub fn layers() -> &'static [Case] {
    &LAYERS
}

// The pair of `PAIR` with the value 0202.
const CHANGED: &str = "\
    03000000000000000100610400000000000000010000000300000000000000010062040000000000000001000202";

// The pair of `PAIR`, its second keys wide.
const WIDE_PAIR: &str = "\
    ffffffffffffffff102010\
    0300000000000000010061040000000000000001000000\
    050000000000000001000000620300000000000000010001";

// The pair of "c" and "d", with 03.
const LATER: &str = "\
    0300000000000000010063040000000000000001000000\
    03000000000000000100640300000000000000010003";

// Both pairs.
const TWO: &str = "\
    060000000000000002000100616308000000000000000100000002000000\
    06000000000000000200010062640600000000000000020001000103";

// Both pairs with 0a and 0b.
const TWO_CHANGED: &str = "\
    060000000000000002000100616308000000000000000100000002000000\
    06000000000000000200010062640600000000000000020001000a0b";

// The pairs of "b" and "x" with 09, and of "d" and "y" with 08.
const BETWEEN: &str = "\
    060000000000000002000100626408000000000000000100000002000000\
    06000000000000000200010078790600000000000000020001000908";

// All four pairs, of "a" to "d".
const FOUR: &str = "\
    0c00000000000000040001000200030061626364\
    100000000000000001000000020000000300000004000000\
    0c00000000000000040001000200030062786479\
    0c00000000000000040001000200030001090308";

// The row of "a" with "b" 01 and "d" 04.
const ROW: &str = "\
    0300000000000000010061040000000000000002000000\
    06000000000000000200010062640600000000000000020001000104";

// The row of "a" with "a" 05, "b" 06 and "e" 07.
const OTHER_ROW: &str = "\
    0300000000000000010061040000000000000003000000\
    09000000000000000300010002006162650900000000000000030001000200050607";

// The second row over the first.
const ROW_UNDER: &str = "\
    0300000000000000010061040000000000000004000000\
    0c00000000000000040001000200030061626465\
    0c00000000000000040001000200030005060407";

// The first row over the second.
const ROW_OVER: &str = "\
    0300000000000000010061040000000000000004000000\
    0c00000000000000040001000200030061626465\
    0c00000000000000040001000200030005010407";

// An image whose first key is no text.
const NO_TEXT: &str =
    "03000000000000000100ff04000000000000000100000003000000000000000100620300000000000000010001";

const LAYERS: [Case; 28] = [
    Case {
        name: "a pair with another value over it",
        words: &["layers"],
        input: &["x", PAIR, "\nx", CHANGED, "\n"],
        output: &["image x", CHANGED, "\n"],
        status: Status::Done,
    },
    Case {
        name: "the pair over its other value",
        words: &["layers"],
        input: &["x", CHANGED, "\nx", PAIR, "\n"],
        output: &["image x", PAIR, "\n"],
        status: Status::Done,
    },
    Case {
        name: "the empty image over a pair",
        words: &["layers"],
        input: &["x", PAIR, "\nx", EMPTY, "\n"],
        output: &["image x", PAIR, "\n"],
        status: Status::Done,
    },
    Case {
        name: "a pair over the empty image",
        words: &["layers"],
        input: &["x", EMPTY, "\nx", PAIR, "\n"],
        output: &["image x", PAIR, "\n"],
        status: Status::Done,
    },
    Case {
        name: "two empty images",
        words: &["layers"],
        input: &["x", EMPTY, "\nx", EMPTY],
        output: &["image x", EMPTY, "\n"],
        status: Status::Done,
    },
    Case {
        name: "one layer",
        words: &["layers"],
        input: &["x", PAIR, "\n"],
        output: &["image x", PAIR, "\n"],
        status: Status::Done,
    },
    Case {
        name: "an image over itself",
        words: &["layers"],
        input: &["x", FOUR, "\nx", FOUR, "\n"],
        output: &["image x", FOUR, "\n"],
        status: Status::Done,
    },
    Case {
        name: "three layers, of which the last counts",
        words: &["layers"],
        input: &["x", PAIR, "\nx", CHANGED, "\nx", PAIR, "\n"],
        output: &["image x", PAIR, "\n"],
        status: Status::Done,
    },
    Case {
        name: "a row after the others",
        words: &["layers"],
        input: &["x", PAIR, "\nx", LATER, "\n"],
        output: &["image x", TWO, "\n"],
        status: Status::Done,
    },
    Case {
        name: "a row before the others",
        words: &["layers"],
        input: &["x", LATER, "\nx", PAIR, "\n"],
        output: &["image x", TWO, "\n"],
        status: Status::Done,
    },
    Case {
        name: "rows between the others",
        words: &["layers"],
        input: &["x", TWO, "\nx", BETWEEN, "\n"],
        output: &["image x", FOUR, "\n"],
        status: Status::Done,
    },
    Case {
        name: "the others between those rows",
        words: &["layers"],
        input: &["x", BETWEEN, "\nx", TWO, "\n"],
        output: &["image x", FOUR, "\n"],
        status: Status::Done,
    },
    Case {
        name: "all keys again",
        words: &["layers"],
        input: &["x", TWO, "\nx", TWO_CHANGED, "\n"],
        output: &["image x", TWO_CHANGED, "\n"],
        status: Status::Done,
    },
    Case {
        name: "some of the keys again",
        words: &["layers"],
        input: &["x", FOUR, "\nx", PAIR, "\n"],
        output: &["image x", FOUR, "\n"],
        status: Status::Done,
    },
    Case {
        name: "a row over another of its first key",
        words: &["layers"],
        input: &["x", ROW, "\nx", OTHER_ROW, "\n"],
        output: &["image x", ROW_UNDER, "\n"],
        status: Status::Done,
    },
    Case {
        name: "the same the other way round",
        words: &["layers"],
        input: &["x", OTHER_ROW, "\nx", ROW, "\n"],
        output: &["image x", ROW_OVER, "\n"],
        status: Status::Done,
    },
    Case {
        name: "a row whose last pair is below those of the other",
        words: &["layers"],
        input: &["x", ROW, "\nx", PAIR, "\n"],
        output: &["image x", ROW, "\n"],
        status: Status::Done,
    },
    Case {
        name: "a wide image under a narrow one",
        words: &["layers"],
        input: &["x", WIDE_PAIR, "\nx", LATER, "\n"],
        output: &["image x", TWO, "\n"],
        status: Status::Done,
    },
    Case {
        name: "a narrow image under a wide one",
        words: &["layers"],
        input: &["x", CHANGED, "\nx", WIDE_PAIR, "\n"],
        output: &["image x", PAIR, "\n"],
        status: Status::Done,
    },
    Case {
        name: "a bad image over a good one",
        words: &["layers"],
        input: &["x", PAIR, "\nx00\n"],
        output: &["error layer 2 frame\n"],
        status: Status::BadImage,
    },
    Case {
        name: "a bad image under a good one",
        words: &["layers"],
        input: &["x00\nx", PAIR, "\n"],
        output: &["error layer 1 frame\n"],
        status: Status::BadImage,
    },
    Case {
        name: "a bad third image over a bad second",
        words: &["layers"],
        input: &["x", PAIR, "\nx", NO_TEXT, "\nx\n"],
        output: &["error layer 2 parse\n"],
        status: Status::BadImage,
    },
    Case {
        name: "a bad third image alone",
        words: &["layers"],
        input: &["x", PAIR, "\nx", EMPTY, "\nx00"],
        output: &["error layer 3 frame\n"],
        status: Status::BadImage,
    },
    Case {
        name: "the least bad line among many",
        words: &["layers"],
        input: &["x", PAIR, "\nx0\nget x61 x62\nx00\nX00\n"],
        output: &["error line 2\n"],
        status: Status::BadLine,
    },
    Case {
        name: "a bad line under a bad image",
        words: &["layers"],
        input: &["x00\nx", PAIR, "\n\n"],
        output: &["error line 3\n"],
        status: Status::BadLine,
    },
    Case {
        name: "no first line that is a field",
        words: &["layers"],
        input: &["y\nx0\n"],
        output: &["error line 1\n"],
        status: Status::BadLine,
    },
    Case {
        name: "no input",
        words: &["layers"],
        input: &[""],
        output: &["error line 1\n"],
        status: Status::BadLine,
    },
    Case {
        name: "a word too many",
        words: &["layers", "x"],
        input: &["x", PAIR, "\n"],
        output: &["usage: zv COMMAND\n"],
        status: Status::Usage,
    },
];

// What so many lines of the empty image, the last of which is the pair's, are answered.
fn try_count(
    rt: &impl Abort,
    alloc: Global,
    count: usize,
    output: &[Part<'_>],
    status: Status,
) -> Result<(), Fail> {
    let line = [Part::Once("x"), Part::Once(EMPTY), Part::Once("\n")];
    let mut input = Vec::new(alloc);
    for _ in 1..count {
        input.extend_from_slice(&text_of(alloc, &line)?)?;
    }
    input.extend_from_slice(&text_of(alloc, &[Part::Once("x"), Part::Once(PAIR)])?)?;
    let devices = memory_devices(alloc, &input, 4096, 2_000)?;
    let answer = answer_of(alloc, &words_of(alloc, &["layers"])?, devices);
    assert!(rt; answer.status == status);
    assert!(rt; answer.sink.taken() == text_of(alloc, output)?.as_slice());
    Ok(())
}

#[test]
fn at_most_64_layers(rt: HostRuntime) -> Result<(), Fail> {
    let alloc = rt.alloc();
    let image = [Part::Once("image x"), Part::Once(PAIR), Part::Once("\n")];
    try_count(&rt, alloc, 64, &image, Status::Done)?;
    try_count(
        &rt,
        alloc,
        65,
        &[Part::Once("error line 65\n")],
        Status::BadLine,
    )
}
