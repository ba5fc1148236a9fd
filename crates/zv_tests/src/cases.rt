// Worked inputs of the program and what it answers, over devices in memory.
pub use zv_runs::{EMPTY, LOCALES, PAIR};
use zv_tool::Status;

/// A run: its words, its input and output in pieces, and how it ends.
#[derive(Drop)]
pub struct Case {
    pub name: &'static str,
    pub words: &'static [&'static str],
    pub input: &'static [&'static str],
    pub output: &'static [&'static str],
    pub status: Status,
}

/// The cases that change nothing.
pub fn cases() -> &'static [Case] {
    &CASES
}

/// The cases of images with a head.
pub fn head_cases() -> &'static [Case] {
    &HEAD_CASES
}

const CASES: [Case; 35] = [
    Case {
        name: "the empty image",
        words: &["edit"],
        input: &["x", EMPTY, "\n"],
        output: &["image x", EMPTY, "\n"],
        status: Status::Done,
    },
    Case {
        name: "an empty list that is spelt as a count of 0",
        words: &["edit"],
        input: &["x040000000000000000000000000000000000000000000000000000000000000000000000\n"],
        output: &["image x", EMPTY, "\n"],
        status: Status::Done,
    },
    Case {
        name: "look-ups of a pair, a second key that is missing, and a first key that is missing",
        words: &["edit"],
        input: &["x", PAIR, "\nget x61 x62\nget x61 x63\nget x62 x62\n"],
        output: &["some x01\nnone\nnone\nimage x", PAIR, "\n"],
        status: Status::Done,
    },
    Case {
        name: "a look-up among 28 locales",
        words: &["edit"],
        input: &["x", LOCALES, "\nget x7364 x4b686f6a\n"],
        output: &["some x494e\nimage x", LOCALES, "\n"],
        status: Status::Done,
    },
    Case {
        name: "digits in upper case",
        words: &["edit"],
        input: &["x", LOCALES, "\nget x7364 x4B686F6A\n"],
        output: &["some x494e\nimage x", LOCALES, "\n"],
        status: Status::Done,
    },
    Case {
        name: "no LF after the last line",
        words: &["edit"],
        input: &["x", PAIR, "\nget x61 x62"],
        output: &["some x01\nimage x", PAIR, "\n"],
        status: Status::Done,
    },
    Case {
        name: "no LF after the only line",
        words: &["edit"],
        input: &["x", EMPTY],
        output: &["image x", EMPTY, "\n"],
        status: Status::Done,
    },
    Case {
        name: "31 bytes",
        words: &["edit"],
        input: &["x00000000000000000000000000000000000000000000000000000000000000\n"],
        output: &["error frame\n"],
        status: Status::BadImage,
    },
    Case {
        name: "33 bytes",
        words: &["edit"],
        input: &["x000000000000000000000000000000000000000000000000000000000000000000\n"],
        output: &["error frame\n"],
        status: Status::BadImage,
    },
    Case {
        name: "a joiner of three bytes, under keys that are no list",
        words: &["edit"],
        input: &["x010000000000000005030000000000000001000000000000000000000000000000000000\n"],
        output: &["error length\n"],
        status: Status::BadImage,
    },
    Case {
        name: "first keys that are no list",
        words: &["edit"],
        input: &["x010000000000000005000000000000000000000000000000000000000000000000\n"],
        output: &["error parse\n"],
        status: Status::BadImage,
    },
    Case {
        name: "a first key that is no UTF-8",
        words: &["edit"],
        input: &[
            "x03000000000000000100ff040000000000000001000000030000000000000001006203000000000",
            "00000010001\n",
        ],
        output: &["error parse\n"],
        status: Status::BadImage,
    },
    Case {
        name: "a joiner without first keys",
        words: &["edit"],
        input: &[
            "x0000000000000000040000000000000001000000030000000000000001006203000000000000000",
            "10001\n",
        ],
        output: &["error keys0joiner\n"],
        status: Status::BadImage,
    },
    Case {
        name: "second keys without values",
        words: &["edit"],
        input: &[
            "x0300000000000000010061040000000000000001000000030000000000000001006200000000000",
            "00000\n",
        ],
        output: &["error keys1values\n"],
        status: Status::BadImage,
    },
    Case {
        name: "a joiner that begins with 0",
        words: &["edit"],
        input: &[
            "x0600000000000000020001006162080000000000000000000000010000000300000000000000010",
            "0620300000000000000010001\n",
        ],
        output: &["error joinerorder\n"],
        status: Status::BadImage,
    },
    Case {
        name: "second keys that no row has",
        words: &["edit"],
        input: &["x0000000000000000000000000000000003000000000000000100620300000000000000010001\n"],
        output: &["error joinerend\n"],
        status: Status::BadImage,
    },
    Case {
        name: "second keys of one row that descend",
        words: &["edit"],
        input: &[
            "x03000000000000000100610400000000000000020000000600000000000000020001007a6106000",
            "00000000000020001000102\n",
        ],
        output: &["error keyorder\n"],
        status: Status::BadImage,
    },
    Case {
        name: "a line with one key",
        words: &["edit"],
        input: &["x", EMPTY, "\nget x61\n"],
        output: &["error line 2\n"],
        status: Status::BadLine,
    },
    Case {
        name: "a line with three keys",
        words: &["edit"],
        input: &["x", EMPTY, "\nget x61 x62 x63\n"],
        output: &["error line 2\n"],
        status: Status::BadLine,
    },
    Case {
        name: "another word",
        words: &["edit"],
        input: &["x", EMPTY, "\nget x61 x62\nfind x61 x62\n"],
        output: &["error line 3\n"],
        status: Status::BadLine,
    },
    Case {
        name: "no input",
        words: &["edit"],
        input: &[""],
        output: &["error line 1\n"],
        status: Status::BadLine,
    },
    Case {
        name: "an empty line",
        words: &["edit"],
        input: &["x", PAIR, "\n\nget x61 x62\n"],
        output: &["error line 2\n"],
        status: Status::BadLine,
    },
    Case {
        name: "an empty first line",
        words: &["edit"],
        input: &["\nx", PAIR, "\n"],
        output: &["error line 1\n"],
        status: Status::BadLine,
    },
    Case {
        name: "two spaces",
        words: &["edit"],
        input: &["x", PAIR, "\nget x61  x62\n"],
        output: &["error line 2\n"],
        status: Status::BadLine,
    },
    Case {
        name: "a space at the end",
        words: &["edit"],
        input: &["x", PAIR, "\nget x61 x62 \n"],
        output: &["error line 2\n"],
        status: Status::BadLine,
    },
    Case {
        name: "CR before LF",
        words: &["edit"],
        input: &["x", PAIR, "\nget x61 x62\r\n"],
        output: &["error line 2\n"],
        status: Status::BadLine,
    },
    Case {
        name: "CR after the image",
        words: &["edit"],
        input: &["x", PAIR, "\r\n"],
        output: &["error line 1\n"],
        status: Status::BadLine,
    },
    Case {
        name: "an odd number of digits",
        words: &["edit"],
        input: &["x", PAIR, "\nget x61 x6\n"],
        output: &["error line 2\n"],
        status: Status::BadLine,
    },
    Case {
        name: "a wrong digit",
        words: &["edit"],
        input: &["x", PAIR, "\nget x61 x6g\n"],
        output: &["error line 2\n"],
        status: Status::BadLine,
    },
    Case {
        name: "no mark before the digits",
        words: &["edit"],
        input: &["x", PAIR, "\nget 61 x62\n"],
        output: &["error line 2\n"],
        status: Status::BadLine,
    },
    Case {
        name: "a key that is no UTF-8",
        words: &["edit"],
        input: &["x", PAIR, "\nget x61 x62\nget xff x62\n"],
        output: &["error line 3\n"],
        status: Status::BadLine,
    },
    Case {
        name: "a bad line after a bad image",
        words: &["edit"],
        input: &["x00\nget x61\n"],
        output: &["error line 2\n"],
        status: Status::BadLine,
    },
    Case {
        name: "no words",
        words: &[],
        input: &["x", EMPTY, "\n"],
        output: &["usage: zv COMMAND\n"],
        status: Status::Usage,
    },
    Case {
        name: "a word too many",
        words: &["edit", "more"],
        input: &["x", EMPTY, "\n"],
        output: &["usage: zv COMMAND\n"],
        status: Status::Usage,
    },
    Case {
        name: "another command",
        words: &["edits"],
        input: &["x", EMPTY, "\n"],
        output: &["usage: zv COMMAND\n"],
        status: Status::Usage,
    },
];

const HEAD_CASES: [Case; 5] = [
    Case {
        name: "a head that names no wide list",
        words: &["edit"],
        input: &["xffffffffffffffff101010", EMPTY, "\n"],
        output: &["image x", EMPTY, "\n"],
        status: Status::Done,
    },
    Case {
        name: "a head that names wide second keys",
        words: &["edit"],
        input: &[
            "xffffffffffffffff1020100300000000000000010061040000000000000001000000",
            "050000000000000001000000620300000000000000010001\n",
        ],
        output: &["image x", PAIR, "\n"],
        status: Status::Done,
    },
    Case {
        name: "a head that is cut",
        words: &["edit"],
        input: &["xffffffffffffffff1010\n"],
        output: &["error frame\n"],
        status: Status::BadImage,
    },
    Case {
        name: "a head that names no format",
        words: &["edit"],
        input: &["xffffffffffffffff100810", EMPTY, "\n"],
        output: &["error frame\n"],
        status: Status::BadImage,
    },
    Case {
        name: "two bytes that a head names a wide list",
        words: &["edit"],
        input: &[
            "xffffffffffffffff20101002000000000000000000",
            "000000000000000000000000000000000000000000000000\n",
        ],
        output: &["error parse\n"],
        status: Status::BadImage,
    },
];
