// Malformed tables of code point ranges: the first cause is named.
use crate::refused::{Reading, Refusals, are_refused};
use std::test::Fail;

// Tables by the first cause that holds, each of its rows.
const MALFORMED: [Refusals; 5] = [
    (
        "length",
        "\
        one byte: 00\n\
        a row that is cut: A_TO_E_1 460000005000000002\n\
        a byte behind the last row: A_TO_E_1 00\n\
        rows that are cut, the first of which goes backwards: BACKWARDS 00",
    ),
    (
        "row 0",
        "\
        a range that goes backwards: BACKWARDS",
    ),
    (
        "row 1",
        "\
        a range that goes backwards, in the second row: A_TO_E_1 BACKWARDS\n\
        a range above the last code point: A_TO_E_1 ABOVE_ALL\n\
        no value: A_TO_E_1 NO_VALUE\n\
        a row without a value that is not above the one before it: A_TO_E_1 43000000500000000000",
    ),
    (
        "order 1",
        "\
        two equal rows: A_TO_E_1 A_TO_E_1\n\
        a row before the first: F_TO_P_1 A_TO_E_2\n\
        rows out of order, before one without a value: F_TO_P_2 A_TO_E_1 NO_VALUE\n\
        rows out of order, before one that joins: F_TO_P_1 A_TO_E_1 F_TO_P_1",
    ),
    (
        "join 1",
        "\
        a row that joins the one before it: A_TO_E_1 F_TO_P_1\n\
        rows that join, before one without a value: A_TO_E_2 F_TO_P_2 NO_VALUE\n\
        rows that join, before one out of order: A_TO_E_1 F_TO_P_1 A_TO_E_2",
    ),
];

const READING: Reading = Reading {
    words: "props",
    heads: &[""],
    lines: "\nat 65\nset 65 66 1\n",
    told: "error ",
};

#[test]
fn the_first_cause_of_a_table_is_named(rt: HostRuntime) -> Result<(), Fail> {
    are_refused(&rt, rt.alloc(), &READING, &MALFORMED)
}
