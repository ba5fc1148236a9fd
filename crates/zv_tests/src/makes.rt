// Tables that are made by puts, and what is told of them.
use crate::cases::Case;
use crate::runs::{answer_of, failing_devices, memory_devices, words_of};
use std::test::Fail;
use zv_tool::Status;

/// The tables.
pub fn makes() -> &'static [Case] {
    &MAKES
}

const MAKES: [Case; 11] = [
    Case {
        name: "no puts",
        words: &["make", "0"],
        input: &[""],
        output: &["rows 0 pairs 0 bytes 32 sum 0\n"],
        status: Status::Done,
    },
    Case {
        name: "one put, and an input that isn't read",
        words: &["make", "1"],
        input: &["x0\n"],
        output: &["rows 1 pairs 1 bytes 48 sum 358\n"],
        status: Status::Done,
    },
    Case {
        name: "two puts of one row",
        words: &["make", "2"],
        input: &[""],
        output: &["rows 2 pairs 2 bytes 66 sum 862\n"],
        status: Status::Done,
    },
    Case {
        name: "a put more than there are rows",
        words: &["make", "65"],
        input: &[""],
        output: &["rows 64 pairs 65 bytes 1288 sum 60430\n"],
        status: Status::Done,
    },
    Case {
        name: "a put too many",
        words: &["make", "4001"],
        input: &[""],
        output: &["usage: zv COMMAND\n"],
        status: Status::Usage,
    },
    Case {
        name: "a leading zero",
        words: &["make", "01"],
        input: &[""],
        output: &["usage: zv COMMAND\n"],
        status: Status::Usage,
    },
    Case {
        name: "a sign",
        words: &["make", "+1"],
        input: &[""],
        output: &["usage: zv COMMAND\n"],
        status: Status::Usage,
    },
    Case {
        name: "no number",
        words: &["make", "x31"],
        input: &[""],
        output: &["usage: zv COMMAND\n"],
        status: Status::Usage,
    },
    Case {
        name: "an empty word",
        words: &["make", ""],
        input: &[""],
        output: &["usage: zv COMMAND\n"],
        status: Status::Usage,
    },
    Case {
        name: "one word",
        words: &["make"],
        input: &[""],
        output: &["usage: zv COMMAND\n"],
        status: Status::Usage,
    },
    Case {
        name: "three words",
        words: &["make", "1", "2"],
        input: &[""],
        output: &["usage: zv COMMAND\n"],
        status: Status::Usage,
    },
];

#[test]
fn the_most_puts(rt: HostRuntime) -> Result<(), Fail> {
    let alloc = rt.alloc();
    let devices = memory_devices(alloc, &[], 1, 100)?;
    let answer = answer_of(alloc, &words_of(alloc, &["make", "4000"])?, devices);
    assert!(&rt; answer.status == Status::Done);
    let line = b"rows 64 pairs 4000 bytes 43515 sum 2991197\n";
    assert!(&rt; answer.sink.taken() == line.as_slice());
    Ok(())
}

#[test]
fn no_read_is_made_and_a_write_can_fail(rt: HostRuntime) -> Result<(), Fail> {
    let alloc = rt.alloc();
    let words = words_of(alloc, &["make", "1"])?;
    let answer = answer_of(alloc, &words, failing_devices(alloc, &[], &[0], &[])?);
    assert!(&rt; answer.status == Status::Done);
    let answer = answer_of(alloc, &words, failing_devices(alloc, &[], &[], &[0])?);
    assert!(&rt; answer.status == Status::WriteFault);
    assert!(&rt; answer.sink.taken() == b"row".as_slice());
    Ok(())
}
