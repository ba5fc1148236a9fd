// Images that are frozen, asked and thawed, and what each input is answered.
use crate::cases::{Case, EMPTY, PAIR};
use crate::long_inputs::{Part, text_of};
use crate::runs::{answer_of, memory_devices, words_of};
use std::process::Abort;
use std::test::Fail;
use zv_tool::Status;

/// Images that are frozen, and frozen images that are asked and thawed.
pub fn frozen() -> &'static [Case] {
    &FROZEN
}

// `PAIR`, frozen.
const FROZEN_PAIR: &str = "\
    08000000000000000000000001000000\
    080000000000000001000100000061620300000000000000010001";

// Its keys and its values.
const PAIR_LISTS: &str = "080000000000000001000100000061620300000000000000010001";

// `EMPTY`, frozen.
const FROZEN_EMPTY: &str = "000000000000000000000000000000000000000000000000";

// The pairs of "" and "ab" with 01, of "a" and "b" with 02, and of "ab" and "" with 03.
const SPLITS: &str = "\
    0900000000000000030000000100616162\
    0c00000000000000010000000200000003000000\
    0900000000000000030002000300616262\
    0900000000000000030001000200010203";

// The same, frozen: the third pair, the second and the first.
const FROZEN_SPLITS: &str = "\
    1800000000000000000000000200000000000000020000000000000001000000\
    1800000000000000030006000c00020000006162010000006162000000006162\
    0900000000000000030001000200030201";

// The pairs of "a" and "b", of "a" and "c", and of "b" and "": the keys of two share a bucket.
const STUCK: &str = "\
    0600000000000000020001006162\
    08000000000000000200000003000000\
    08000000000000000300010002006263\
    0900000000000000030001000200010203";

const FROZEN: [Case; 39] = [
    Case {
        name: "a pair is frozen",
        words: &["freeze"],
        input: &["x", PAIR, "\n"],
        output: &["frozen x", FROZEN_PAIR, "\n"],
        status: Status::Done,
    },
    Case {
        name: "the empty map is frozen",
        words: &["freeze"],
        input: &["x", EMPTY, "\n"],
        output: &["frozen x", FROZEN_EMPTY, "\n"],
        status: Status::Done,
    },
    Case {
        name: "three pairs whose texts are one text, parted elsewhere, are frozen",
        words: &["freeze"],
        input: &["x", SPLITS, "\n"],
        output: &["frozen x", FROZEN_SPLITS, "\n"],
        status: Status::Done,
    },
    Case {
        name: "a bucket without a displacement",
        words: &["freeze"],
        input: &["x", STUCK, "\n"],
        output: &["error noplace 1\n"],
        status: Status::BadImage,
    },
    Case {
        name: "a bad image is not frozen",
        words: &["freeze"],
        input: &["x00\n"],
        output: &["error frame\n"],
        status: Status::BadImage,
    },
    Case {
        name: "a line after the image that is to be frozen",
        words: &["freeze"],
        input: &["x", PAIR, "\nget x61 x62\n"],
        output: &["error line 2\n"],
        status: Status::BadLine,
    },
    Case {
        name: "no field that is to be frozen",
        words: &["freeze"],
        input: &["X\n"],
        output: &["error line 1\n"],
        status: Status::BadLine,
    },
    Case {
        name: "a word too many to freeze",
        words: &["freeze", "x"],
        input: &["x", PAIR, "\n"],
        output: &["usage: zv COMMAND\n"],
        status: Status::Usage,
    },
    Case {
        name: "a pair is asked",
        words: &["ask", "x61", "x62"],
        input: &["x", FROZEN_PAIR, "\n"],
        output: &["some x01\n"],
        status: Status::Done,
    },
    Case {
        name: "another second text is asked",
        words: &["ask", "x61", "x63"],
        input: &["x", FROZEN_PAIR, "\n"],
        output: &["none\n"],
        status: Status::Done,
    },
    Case {
        name: "texts that are parted elsewhere are asked",
        words: &["ask", "x6162", "x"],
        input: &["x", FROZEN_PAIR, "\n"],
        output: &["none\n"],
        status: Status::Done,
    },
    Case {
        name: "nothing is asked of the empty map",
        words: &["ask", "x", "x"],
        input: &["x", FROZEN_EMPTY, "\n"],
        output: &["none\n"],
        status: Status::Done,
    },
    Case {
        name: "the first of three pairs is asked",
        words: &["ask", "x", "x6162"],
        input: &["x", FROZEN_SPLITS, "\n"],
        output: &["some x01\n"],
        status: Status::Done,
    },
    Case {
        name: "the second of three pairs is asked",
        words: &["ask", "x61", "x62"],
        input: &["x", FROZEN_SPLITS, "\n"],
        output: &["some x02\n"],
        status: Status::Done,
    },
    Case {
        name: "the third of three pairs is asked",
        words: &["ask", "x6162", "x"],
        input: &["x", FROZEN_SPLITS, "\n"],
        output: &["some x03\n"],
        status: Status::Done,
    },
    Case {
        name: "one key alone",
        words: &["ask", "x61"],
        input: &["x", FROZEN_PAIR, "\n"],
        output: &["usage: zv COMMAND\n"],
        status: Status::Usage,
    },
    Case {
        name: "a key that is no text",
        words: &["ask", "x61", "xff"],
        input: &["x", FROZEN_PAIR, "\n"],
        output: &["usage: zv COMMAND\n"],
        status: Status::Usage,
    },
    Case {
        name: "a line after the frozen image that is asked",
        words: &["ask", "x61", "x62"],
        input: &["x", FROZEN_PAIR, "\nx\n"],
        output: &["error line 2\n"],
        status: Status::BadLine,
    },
    Case {
        name: "a pair is thawed",
        words: &["thaw"],
        input: &["x", FROZEN_PAIR, "\n"],
        output: &["image x", PAIR, "\n"],
        status: Status::Done,
    },
    Case {
        name: "the empty map is thawed",
        words: &["thaw"],
        input: &["x", FROZEN_EMPTY, "\n"],
        output: &["image x", EMPTY, "\n"],
        status: Status::Done,
    },
    Case {
        name: "three pairs are thawed",
        words: &["thaw"],
        input: &["x", FROZEN_SPLITS, "\n"],
        output: &["image x", SPLITS, "\n"],
        status: Status::Done,
    },
    Case {
        name: "a line after the frozen image that is thawed",
        words: &["thaw"],
        input: &["x", FROZEN_PAIR, "\nx\n"],
        output: &["error line 2\n"],
        status: Status::BadLine,
    },
    Case {
        name: "a displacement that sends nothing",
        words: &["ask", "x61", "x62"],
        input: &["x", "08000000000000000000000000000000", PAIR_LISTS, "\n"],
        output: &["error lies\n"],
        status: Status::BadImage,
    },
    Case {
        name: "a first text that is longer than the key",
        words: &["ask", "x61", "x62"],
        input: &[
            "x",
            "080000000000000000000000010000000800000000000000",
            "01000500000061620300000000000000010001",
            "\n",
        ],
        output: &["error key 0\n"],
        status: Status::BadImage,
    },
    Case {
        name: "a key of three bytes",
        words: &["thaw"],
        input: &[
            "x",
            "0800000000000000000000000100000005000000000000000100000000",
            "0300000000000000010001",
            "\n",
        ],
        output: &["error key 0\n"],
        status: Status::BadImage,
    },
    Case {
        name: "a first text that is no text",
        words: &["thaw"],
        input: &[
            "x",
            "0800000000000000000000000100000008000000000000000100010000",
            "00ff62",
            "0300000000000000010001",
            "\n",
        ],
        output: &["error key 0\n"],
        status: Status::BadImage,
    },
    Case {
        name: "a second text that is no text",
        words: &["thaw"],
        input: &[
            "x",
            "08000000000000000000000001000000",
            "080000000000000001000100000061ff0300000000000000010001",
            "\n",
        ],
        output: &["error key 0\n"],
        status: Status::BadImage,
    },
    Case {
        name: "a character that is parted",
        words: &["thaw"],
        input: &[
            "x",
            "0800000000000000000000000100000008000000000000000100010000",
            "00c3a9",
            "0300000000000000010001",
            "\n",
        ],
        output: &["error key 0\n"],
        status: Status::BadImage,
    },
    Case {
        name: "a third key that is no key",
        words: &["ask", "x", "x6162"],
        input: &[
            "x",
            "1800000000000000000000000200000000000000020000000000000001000000",
            "1800000000000000030006000c00020000006162010000006162050000006162",
            "0900000000000000030001000200030201",
            "\n",
        ],
        output: &["error key 2\n"],
        status: Status::BadImage,
    },
    Case {
        name: "a pair that is stored twice",
        words: &["thaw"],
        input: &[
            "x",
            "100000000000000000000000010000000000000001000000",
            "100000000000000002000600010000006162010000006162",
            "0600000000000000020001000102",
            "\n",
        ],
        output: &["error lies\n"],
        status: Status::BadImage,
    },
    Case {
        name: "a key that is no key, and a displacement that sends nothing",
        words: &["ask", "x61", "x62"],
        input: &[
            "x",
            "080000000000000000000000000000000800000000000000",
            "01000500000061620300000000000000010001",
            "\n",
        ],
        output: &["error key 0\n"],
        status: Status::BadImage,
    },
    Case {
        name: "no frame",
        words: &["ask", "x61", "x62"],
        input: &["x00\n"],
        output: &["error frame\n"],
        status: Status::BadImage,
    },
    Case {
        name: "an image is asked as a frozen one",
        words: &["ask", "x61", "x62"],
        input: &["x", PAIR, "\n"],
        output: &["error frame\n"],
        status: Status::BadImage,
    },
    Case {
        name: "displacements that are cut",
        words: &["thaw"],
        input: &[
            "x",
            "0700000000000000000000000100000800000000000000010001000000616203",
            "00000000000000010001",
            "\n",
        ],
        output: &["error part\n"],
        status: Status::BadImage,
    },
    Case {
        name: "a list of keys whose count is cut",
        words: &["thaw"],
        input: &[
            "x",
            "0800000000000000000000000100000001000000000000000103000000000000",
            "00010001",
            "\n",
        ],
        output: &["error part\n"],
        status: Status::BadImage,
    },
    Case {
        name: "a list of values whose count is cut, and fewer keys than displacements",
        words: &["thaw"],
        input: &[
            "x",
            "08000000000000000000000001000000",
            "0000000000000000010000000000000001",
            "\n",
        ],
        output: &["error part\n"],
        status: Status::BadImage,
    },
    Case {
        name: "fewer keys than displacements",
        words: &["thaw"],
        input: &[
            "x",
            "0800000000000000000000000100000000000000000000000000000000000000",
            "\n",
        ],
        output: &["error count\n"],
        status: Status::BadImage,
    },
    Case {
        name: "fewer values than keys",
        words: &["thaw"],
        input: &[
            "x",
            "08000000000000000000000001000000080000000000000001000100000061620000000000000000",
            "\n",
        ],
        output: &["error count\n"],
        status: Status::BadImage,
    },
    Case {
        name: "fewer values than keys, and a key that is no key",
        words: &["ask", "x61", "x62"],
        input: &[
            "x",
            "08000000000000000000000001000000",
            "080000000000000001000500000061620000000000000000",
            "\n",
        ],
        output: &["error count\n"],
        status: Status::BadImage,
    },
];

// A value of 70,000 bytes.
#[test]
fn a_long_value_is_not_frozen(rt: HostRuntime) -> Result<(), Fail> {
    let alloc = rt.alloc();
    let image = [
        Part::Once("xffffffffffffffff1010200300000000000000010061"),
        Part::Once("0400000000000000010000000300000000000000010062"),
        Part::Once("741101000000000001000000"),
        Part::Times("00", 70_000),
    ];
    let devices = memory_devices(alloc, &text_of(alloc, &image)?, 4096, 2_000)?;
    let answer = answer_of(alloc, &words_of(alloc, &["freeze"])?, devices);
    assert!(rt; answer.status == Status::BadImage);
    assert!(rt; answer.sink.taken() == b"error toolarge\n".as_slice());
    Ok(())
}
