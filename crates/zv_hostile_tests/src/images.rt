// Malformed images: the first cause is named, in each form that reads an image.
use crate::forms::words_in;
use crate::refused::{Reading, Refusals, are_refused, try_input};
use std::test::Fail;
use zv_runs::{NO_WIDE_LIST, PAIR, join};

// Images by the first cause that holds: those for which it alone does, and then those for which
// later ones do too.
const MALFORMED: [Refusals; 8] = [
    (
        "frame",
        "\
        no bytes: \n\
        a length that is cut: 00000000000000\n\
        three parts: A AT_1 B\n\
        a fourth part that is cut: A AT_1 B 03000000000000000100\n\
        a fourth part of which there is nothing: A AT_1 B 0300000000000000\n\
        a byte behind the fourth part: A AT_1 B B 00\n\
        a part that is longer than all bytes: ffffffffffffff7f NONE NONE NONE",
    ),
    (
        "length",
        "\
        ends of three bytes: A THREE_BYTES B B\n\
        ends of five bytes: A 05000000000000000100000000 B B\n\
        ends of three bytes and first keys that are no text: NO_TEXT THREE_BYTES B B\n\
        ends of three bytes, no list, counts that disagree: 010000000000000005 THREE_BYTES \
            NONE B",
    ),
    (
        "parse",
        "\
        first keys of one byte: 010000000000000001 AT_1 B B\n\
        first keys whose starts are cut: 03000000000000000200ff AT_1_2 A_B A_B\n\
        a first key that is no text: NO_TEXT AT_1 B B\n\
        a second key that is no text: A AT_1 NO_TEXT B\n\
        second keys whose starts descend: A 040000000000000003000000 \
            0900000000000000030002000100616263 A_B_C\n\
        values whose start is behind their end: A AT_2 A_B 0600000000000000020003006162\n\
        a first key that is no text, and no ends: NO_TEXT NONE B B\n\
        a value list that is cut, and no first keys: NONE AT_1 B 010000000000000001",
    ),
    (
        "keys0joiner",
        "\
        first keys without ends, and no pairs: A NONE NONE NONE\n\
        ends without first keys: NONE AT_1 B B\n\
        two first keys and one end: A_B AT_1 B B\n\
        no first keys and no values: NONE AT_1 B NONE\n\
        first keys that descend, a first end of 0, counts that disagree: B_A AT_0 B NONE",
    ),
    (
        "keys1values",
        "\
        second keys without values: A AT_1 B NONE\n\
        values without second keys, in no row: NONE NONE NONE B\n\
        two second keys and one value: A AT_2 A_B B\n\
        an end of 0 and no values: A AT_0 B NONE",
    ),
    (
        "joinerorder",
        "\
        a first end of 0: A_B AT_0_1 B B\n\
        two equal ends: A_B AT_1_1 B B\n\
        ends that descend: A_B AT_2_1 B B\n\
        an end of 0 that is not the last second key's: A AT_0 B B\n\
        equal ends that are not the last second key's: A_B AT_2_2 A_B_C A_B_C",
    ),
    (
        "joinerend",
        "\
        second keys in no row: NONE NONE B B\n\
        an end before the last second key: A AT_1 A_B A_B\n\
        an end behind the last second key: A AT_2 B B\n\
        ends before the last second key, and first keys that descend: B_A AT_1_2 A_B_C A_B_C",
    ),
    (
        "keyorder",
        "\
        first keys that descend: B_A AT_1_2 A_A A_B\n\
        two equal first keys: A_A AT_1_2 A_B A_B\n\
        second keys of one row that descend: A AT_2 B_A A_B\n\
        two equal second keys of one row: A AT_2 A_A A_B\n\
        second keys of the second row that descend: A_B 08000000000000000100000003000000 \
            0900000000000000030001000200616362 A_B_C",
    ),
];

// An image as it stands, and behind a head of narrow lists.
const HEADS: &[&str] = &["", NO_WIDE_LIST];

// The same as the second line, behind the image of the empty map.
const OVER_NO_PAIRS: &[&str] = &[
    "0000000000000000000000000000000000000000000000000000000000000000\nx",
    "0000000000000000000000000000000000000000000000000000000000000000\nxffffffffffffffff101010",
];

const READINGS: [Reading; 5] = [
    Reading {
        words: "edit",
        heads: HEADS,
        lines: "\nget x61 x62\nput x61 x62 x01\n",
        told: "error ",
    },
    Reading {
        words: "look x61 x62",
        heads: HEADS,
        lines: "\n",
        told: "error ",
    },
    Reading {
        words: "locale",
        heads: HEADS,
        lines: "\nask x61 x656e\n",
        told: "error ",
    },
    Reading {
        words: "freeze",
        heads: HEADS,
        lines: "\n",
        told: "error ",
    },
    Reading {
        words: "layers",
        heads: OVER_NO_PAIRS,
        lines: "\nx00\n",
        told: "error layer 2 ",
    },
];

#[test]
fn the_first_cause_is_named(rt: HostRuntime) -> Result<(), Fail> {
    for reading in &READINGS {
        are_refused(&rt, rt.alloc(), reading, &MALFORMED)?;
    }
    Ok(())
}

#[test]
fn each_front_of_an_image_is_refused(rt: HostRuntime) -> Result<(), Fail> {
    let words = words_in(rt.alloc(), "edit")?;
    for head in HEADS {
        let whole = join(rt.alloc(), &["x", head, PAIR])?;
        for len in (1..whole.len()).step_by(2) {
            let front = whole.get(..len).unwrap_or(&[]);
            try_input(&rt, rt.alloc(), &words, front, "a front", b"error frame\n")?;
        }
    }
    Ok(())
}
