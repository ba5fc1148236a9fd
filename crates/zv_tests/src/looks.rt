// Worked look-ups of one pair of keys, and what each answers.
use crate::cases::{Case, EMPTY, LOCALES, PAIR};
use zv_tool::Status;

/// The look-ups.
pub fn looks() -> &'static [Case] {
    &LOOKS
}

const LOOKS: [Case; 12] = [
    Case {
        name: "a look-up of a pair",
        words: &["look", "x61", "x62"],
        input: &["x", PAIR, "\n"],
        output: &["some x01\n"],
        status: Status::Done,
    },
    Case {
        name: "a look-up of a second key that is missing",
        words: &["look", "x61", "x63"],
        input: &["x", PAIR],
        output: &["none\n"],
        status: Status::Done,
    },
    Case {
        name: "a look-up among 28 locales, with digits in upper case",
        words: &["look", "x7364", "x4B686F6A"],
        input: &["x", LOCALES, "\n"],
        output: &["some x494e\n"],
        status: Status::Done,
    },
    Case {
        name: "a look-up in the empty image",
        words: &["look", "x", "x"],
        input: &["x", EMPTY, "\n"],
        output: &["none\n"],
        status: Status::Done,
    },
    Case {
        name: "a look-up of a key that is no UTF-8",
        words: &["look", "xff", "x62"],
        input: &["x", PAIR, "\n"],
        output: &["usage: zv COMMAND\n"],
        status: Status::Usage,
    },
    Case {
        name: "a look-up of one key",
        words: &["look", "x61"],
        input: &["x", PAIR, "\n"],
        output: &["usage: zv COMMAND\n"],
        status: Status::Usage,
    },
    Case {
        name: "a look-up of three keys",
        words: &["look", "x61", "x62", "x62"],
        input: &["x", PAIR, "\n"],
        output: &["usage: zv COMMAND\n"],
        status: Status::Usage,
    },
    Case {
        name: "a look-up with a second line",
        words: &["look", "x61", "x62"],
        input: &["x", PAIR, "\nget x61 x62\n"],
        output: &["error line 2\n"],
        status: Status::BadLine,
    },
    Case {
        name: "a look-up with an empty second line",
        words: &["look", "x61", "x62"],
        input: &["x", PAIR, "\n\n"],
        output: &["error line 2\n"],
        status: Status::BadLine,
    },
    Case {
        name: "a look-up of no input",
        words: &["look", "x61", "x62"],
        input: &[""],
        output: &["error line 1\n"],
        status: Status::BadLine,
    },
    Case {
        name: "a look-up in an image with an odd digit, before a second line",
        words: &["look", "x61", "x62"],
        input: &["x0\nrow x61\n"],
        output: &["error line 1\n"],
        status: Status::BadLine,
    },
    Case {
        name: "a look-up in a bad image",
        words: &["look", "x61", "x62"],
        input: &["x00\n"],
        output: &["error frame\n"],
        status: Status::BadImage,
    },
];
