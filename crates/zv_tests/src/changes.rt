// Worked inputs that change a map.
use crate::cases::{Case, EMPTY, LOCALES, PAIR};
use zv_runs::CHANGED_LOCALES;
use zv_tool::Status;

// The image of "a" with "z" and "b" with "a", whose values are 01 and 02.
const TWO_ROWS: &str =
    "0600000000000000020001006162080000000000000001000000020000000600000000000000020001007a61\
    0600000000000000020001000102";

/// The cases that change a map or ask for a row.
pub fn changes() -> &'static [Case] {
    &CHANGES
}

const CHANGES: [Case; 16] = [
    Case {
        name: "a put into the empty map",
        words: &["edit"],
        input: &["x", EMPTY, "\nput x61 x62 x01\n"],
        output: &["new\nimage x", PAIR, "\n"],
        status: Status::Done,
    },
    Case {
        name: "a put in the place of a value",
        words: &["edit"],
        input: &["x", PAIR, "\nput x61 x62 x0202\n"],
        output: &[
            "old x01\nimage x0300000000000000010061040000000000000001000000030000000000000001",
            "0062040000000000000001000202\n",
        ],
        status: Status::Done,
    },
    Case {
        name: "a pair that is deleted twice",
        words: &["edit"],
        input: &["x", PAIR, "\ndel x61 x62\ndel x61 x62\n"],
        output: &["old x01\nnone\nimage x", EMPTY, "\n"],
        status: Status::Done,
    },
    Case {
        name: "a row of two rows",
        words: &["edit"],
        input: &["x", TWO_ROWS, "\nrow x62\n"],
        output: &["row x61 x02\nimage x", TWO_ROWS, "\n"],
        status: Status::Done,
    },
    Case {
        name: "a row that is missing",
        words: &["edit"],
        input: &["x", PAIR, "\nrow x62\n"],
        output: &["none\nimage x", PAIR, "\n"],
        status: Status::Done,
    },
    Case {
        name: "a row and a key that is no UTF-8",
        words: &["edit"],
        input: &["x", PAIR, "\nrow x61\nget xff x62\n"],
        output: &["error line 3\n"],
        status: Status::BadLine,
    },
    Case {
        name: "empty keys and an empty value",
        words: &["edit"],
        input: &["x", EMPTY, "\nput x x x\n"],
        output: &[
            "new\nimage x02000000000000000100040000000000000001000000020000000000000001000200",
            "0000000000000100\n",
        ],
        status: Status::Done,
    },
    Case {
        name: "rows and pairs before, between and after others",
        words: &["edit"],
        input: &[
            "x0300000000000000010062040000000000000001000000030000000000000001006203000000000",
            "00000010001\n",
            "put x61 x78 x02\nput x63 x79 x03\nput x62 x61 x04\nput x62 x63 x05\nrow x62\n",
            "del x62 x62\ndel x61 x78\nrow x61\nrow x62\nget x63 x79\n",
        ],
        output: &[
            "new\nnew\nnew\nnew\nrow x61 x04 x62 x01 x63 x05\nold x01\nold x02\nnone\nrow x61",
            " x04 x63 x05\nsome x03\n",
            "image x0600000000000000020001006263080000000000000002000000030000000900000000000",
            "0000300010002006163790900000000000000030001000200040503\n",
        ],
        status: Status::Done,
    },
    Case {
        name: "changes among 28 locales",
        words: &["edit"],
        input: &[
            "x",
            LOCALES,
            "\nget x7364 x4b686f6a\nrow x6b75\ndel x7a68 x426f706f\nput x656e x4c61746e x5553\n",
        ],
        output: &[
            "some x494e\nrow x41726162 x4951 x59657a69 x4745\nold x5457\nnew\nimage x",
            CHANGED_LOCALES,
            "\n",
        ],
        status: Status::Done,
    },
    Case {
        name: "a value in upper case",
        words: &["edit"],
        input: &["x", EMPTY, "\nput x61 x62 xAbCd\nget x61 x62\n"],
        output: &[
            "new\nsome xabcd\nimage x03000000000000000100610400000000000000010000000300000000",
            "000000010062040000000000000001",
            "00abcd\n",
        ],
        status: Status::Done,
    },
    Case {
        name: "an empty list that is spelt as a count of 0, and a put",
        words: &["edit"],
        input: &[
            "x040000000000000000000000000000000000000000000000000000000000000000000000\nput x",
            "61 x62 x01\n",
        ],
        output: &["new\nimage x", PAIR, "\n"],
        status: Status::Done,
    },
    Case {
        name: "a put with two fields",
        words: &["edit"],
        input: &["x", EMPTY, "\nput x61 x62\n"],
        output: &["error line 2\n"],
        status: Status::BadLine,
    },
    Case {
        name: "a put with four fields",
        words: &["edit"],
        input: &["x", EMPTY, "\nput x61 x62 x63 x64\n"],
        output: &["error line 2\n"],
        status: Status::BadLine,
    },
    Case {
        name: "a deletion with one key",
        words: &["edit"],
        input: &["x", EMPTY, "\ndel x61\n"],
        output: &["error line 2\n"],
        status: Status::BadLine,
    },
    Case {
        name: "a row with two keys",
        words: &["edit"],
        input: &["x", EMPTY, "\nrow x61 x62\n"],
        output: &["error line 2\n"],
        status: Status::BadLine,
    },
    Case {
        name: "a value that is no hex",
        words: &["edit"],
        input: &["x", EMPTY, "\nput x61 x62 x6\n"],
        output: &["error line 2\n"],
        status: Status::BadLine,
    },
];
