// Worked tables of code point ranges, and what their lines are answered.
use crate::cases::Case;
use crate::runs::{answer_of, join, memory_devices, words_of};
use std::test::Fail;
use zv_tool::Status;

/// Tables with their lines.
pub fn props() -> &'static [Case] {
    &PROPS
}

const PROPS: [Case; 11] = [
    Case {
        name: "ranges that are set and asked",
        words: &["props"],
        input: &["x\nset 65 90 1\nset 97 122 1\nat 66\nat 91\nset 91 96 1\n"],
        output: &[
            "ok\nok\nvalue 1\nvalue 0\nok\n",
            "table x410000007a0000000100\n",
        ],
        status: Status::Done,
    },
    Case {
        name: "a range that splits a row",
        words: &["props"],
        input: &["x410000007a0000000100\nset 70 80 2\n"],
        output: &[
            "ok\n",
            "table x410000004500000001004600000050000000020051000000",
            "7a0000000100\n",
        ],
        status: Status::Done,
    },
    Case {
        name: "a table without lines, in upper case",
        words: &["props"],
        input: &["x410000007A0000000100"],
        output: &["table x410000007a0000000100\n"],
        status: Status::Done,
    },
    Case {
        name: "a row that joins the one before it",
        words: &["props"],
        input: &["x4100000045000000010046000000500000000100"],
        output: &["error join 1\n"],
        status: Status::BadImage,
    },
    Case {
        name: "a row out of order",
        words: &["props"],
        input: &["x4100000045000000010045000000500000000200\nat 5\n"],
        output: &["error order 1\n"],
        status: Status::BadImage,
    },
    Case {
        name: "a row without a value",
        words: &["props"],
        input: &["x41000000450000000000\n"],
        output: &["error row 0\n"],
        status: Status::BadImage,
    },
    Case {
        name: "bytes that are no rows",
        words: &["props"],
        input: &["x00\n"],
        output: &["error length\n"],
        status: Status::BadImage,
    },
    Case {
        name: "an answer before and after a set, and the ends of the code points",
        words: &["props"],
        input: &["x\nat 0\nset 0 1114111 65535\nat 0\nat 1114111\nset 0 1114111 0\nat 7\n"],
        output: &[
            "value 0\nok\nvalue 65535\nvalue 65535\nok\nvalue 0\n",
            "table x\n",
        ],
        status: Status::Done,
    },
    Case {
        name: "no input for a table",
        words: &["props"],
        input: &[""],
        output: &["error line 1\n"],
        status: Status::BadLine,
    },
    Case {
        name: "a bad line before a bad table",
        words: &["props"],
        input: &["x00\nat 5\nat\n"],
        output: &["error line 3\n"],
        status: Status::BadLine,
    },
    Case {
        name: "a word after the form of tables",
        words: &["props", "x"],
        input: &["x\n"],
        output: &["usage: zv COMMAND\n"],
        status: Status::Usage,
    },
];

// Lines that are bad after a table.
const BAD_LINES: [&str; 24] = [
    "",
    "at",
    "at ",
    "at 5 ",
    "at 5 6",
    "at  5",
    "At 5",
    "at x5",
    "at +5",
    "at -5",
    "at 05",
    "at 00",
    "at 1114112",
    "at 99999999999999999999",
    "set 5 4 1",
    "set 4 5 65536",
    "set 4 1114112 1",
    "set 04 5 1",
    "set 4 05 1",
    "set 4 5 01",
    "set 4 5",
    "set 4 5 1 1",
    "set 4 5 ",
    "get x61 x62",
];

#[test]
fn each_bad_line_of_a_table_is_named(rt: HostRuntime) -> Result<(), Fail> {
    let alloc = rt.alloc();
    let words = words_of(alloc, &["props"])?;
    for line in &BAD_LINES {
        let input = join(alloc, &["x\nat 5\n", *line, "\nat 6\n"])?;
        let answer = answer_of(alloc, &words, memory_devices(alloc, &input, 7, 2_000)?);
        assert!(&rt; answer.status == Status::BadLine, "{line}");
        assert!(&rt;
            answer.sink.taken() == b"error line 3\n".as_slice(),
            "{line}"
        );
    }
    Ok(())
}
