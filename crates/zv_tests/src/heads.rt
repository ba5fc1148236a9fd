// Heads of images, which name the format of each list.
use crate::cases::{Case, EMPTY, PAIR, cases};
use crate::changes::changes;
use crate::long_inputs::{Part, text_of, try_long_input};
use crate::looks::looks;
use crate::runs::{answer_of, join, memory_devices, words_of};
use std::alloc::Global;
use std::process::Abort;
use std::test::Fail;
use zv_tool::Status;

// What a head begins with.
const MARK: &str = "ffffffffffffffff";

// A list as an image has it: the byte that names its format, and its part.
struct Spelling {
    name: &'static str,
    part: &'static str,
}

// The list of "a", narrow and wide.
const KEYS0: [Spelling; 2] = [
    Spelling {
        name: "10",
        part: "0300000000000000010061",
    },
    Spelling {
        name: "20",
        part: "05000000000000000100000061",
    },
];

const JOINER: &str = "040000000000000001000000";

// The list of "b".
const KEYS1: [Spelling; 2] = [
    Spelling {
        name: "10",
        part: "0300000000000000010062",
    },
    Spelling {
        name: "20",
        part: "05000000000000000100000062",
    },
];

// The list of 01.
const VALUES: [Spelling; 2] = [
    Spelling {
        name: "10",
        part: "0300000000000000010001",
    },
    Spelling {
        name: "20",
        part: "05000000000000000100000001",
    },
];

// The image of the three lists behind a head, as a field.
fn headed(
    alloc: Global,
    keys0: &Spelling,
    keys1: &Spelling,
    values: &Spelling,
) -> Result<Vec<u8>, Fail> {
    let mut field = join(alloc, &["x", MARK])?;
    field.extend_from_slice(keys0.name.as_bytes())?;
    field.extend_from_slice(keys1.name.as_bytes())?;
    field.extend_from_slice(values.name.as_bytes())?;
    field.extend_from_slice(keys0.part.as_bytes())?;
    field.extend_from_slice(JOINER.as_bytes())?;
    field.extend_from_slice(keys1.part.as_bytes())?;
    field.extend_from_slice(values.part.as_bytes())?;
    Ok(field)
}

// What the program answers to the words and the input of a case.
fn try_case(
    rt: &impl Abort,
    alloc: Global,
    case: &Case,
    input: &[u8],
    output: &[u8],
) -> Result<(), Fail> {
    let name = case.name;
    let words = words_of(alloc, case.words)?;
    let devices = memory_devices(alloc, input, 4096, 2_000)?;
    let answer = answer_of(alloc, &words, devices);
    assert!(rt; answer.status == case.status);
    assert!(rt; answer.sink.taken() == output);
    Ok(())
}

// How an input is answered.
fn try_input(
    rt: &impl Abort,
    alloc: Global,
    input: &[u8],
    status: Status,
    output: &[&str],
) -> Result<(), Fail> {
    let case = Case {
        name: "a head",
        words: &["edit"],
        input: &[],
        output: &[],
        status,
    };
    try_case(rt, alloc, &case, input, &join(alloc, output)?)
}

// An image with a head is read, and written without one since no list is long.
fn try_spellings(
    rt: &impl Abort,
    alloc: Global,
    keys0: &Spelling,
    keys1: &Spelling,
    values: &Spelling,
) -> Result<(), Fail> {
    let mut input = headed(alloc, keys0, keys1, values)?;
    try_input(rt, alloc, &input, Status::Done, &["image x", PAIR, "\n"])?;
    input.extend_from_slice(b"\nget x61 x62\nput x61 x62 x01\nrow x61\ndel x61 x62\n")?;
    let output = [
        "some x01\nold x01\nrow x62 x01\nold x01\nimage x",
        EMPTY,
        "\n",
    ];
    try_input(rt, alloc, &input, Status::Done, &output)
}

#[test]
fn each_list_is_read_in_the_format_that_is_named(rt: HostRuntime) -> Result<(), Fail> {
    let alloc = rt.alloc();
    for keys0 in &KEYS0 {
        for keys1 in &KEYS1 {
            for values in &VALUES {
                try_spellings(&rt, alloc, keys0, keys1, values)?;
            }
        }
    }
    Ok(())
}

#[test]
fn a_list_is_read_in_no_other_format(rt: HostRuntime) -> Result<(), Fail> {
    let alloc = rt.alloc();
    for names in ["201010", "102010", "101020", "202020"] {
        let input = join(alloc, &["x", MARK, names, PAIR])?;
        try_input(&rt, alloc, &input, Status::BadImage, &["error parse\n"])?;
    }

    // Narrow, a field of four bytes is the count and two bytes of the text.
    let image = [
        "05000000000000000100000061",
        JOINER,
        "05000000000000000100000062",
        "05000000000000000100000001",
    ];
    let image = join(alloc, &image)?;
    let input = around(alloc, "x", &image, "\nget x000061 x000062\nget x61 x62\n")?;
    let line = around(alloc, "some x000001\nnone\nimage x", &image, "\n")?;
    try_long_input(&rt, alloc, &input, &line)
}

// The image of one pair, all of whose lists are wide: 1 and 128 digits.
fn wide_pair(alloc: Global) -> Result<Vec<u8>, Fail> {
    let [_, keys0] = &KEYS0;
    let [_, keys1] = &KEYS1;
    let [_, values] = &VALUES;
    headed(alloc, keys0, keys1, values)
}

#[test]
fn a_cut_image_is_refused(rt: HostRuntime) -> Result<(), Fail> {
    let alloc = rt.alloc();
    let whole = wide_pair(alloc)?;
    assert!(rt; whole.len() == 125);
    for count in 0..62 {
        let mut input = whole.clone()?;
        input.truncate(1 + 2 * count);
        try_input(&rt, alloc, &input, Status::BadImage, &["error frame\n"])?;
    }
    Ok(())
}

// An image whose byte at an index has given way to others is refused.
fn try_other_byte(
    rt: &impl Abort,
    alloc: Global,
    whole: &[u8],
    index: u8,
    other: &[u8],
) -> Result<(), Fail> {
    let start = 1 + 2 * usize::from(index);
    let mut input = Vec::from_slice(alloc, whole)?;
    input.truncate(start);
    input.extend_from_slice(other)?;
    input.extend_from_slice(whole.get(start + 2..).unwrap_or(&[]))?;
    try_input(rt, alloc, &input, Status::BadImage, &["error frame\n"])
}

#[test]
fn a_head_without_one_of_its_bytes_is_refused(rt: HostRuntime) -> Result<(), Fail> {
    let alloc = rt.alloc();
    let whole = wide_pair(alloc)?;
    for index in 0..11 {
        try_other_byte(&rt, alloc, &whole, index, b"")?;
    }
    Ok(())
}

// A mark with another byte is the length of a part, and there are fewer bytes.
#[test]
fn a_mark_with_another_byte_is_none(rt: HostRuntime) -> Result<(), Fail> {
    let alloc = rt.alloc();
    let whole = wide_pair(alloc)?;
    for index in 0..8 {
        try_other_byte(&rt, alloc, &whole, index, b"00")?;
        try_other_byte(&rt, alloc, &whole, index, b"7f")?;
        try_other_byte(&rt, alloc, &whole, index, b"fe")?;
    }
    Ok(())
}

const DIGITS: [&str; 16] = [
    "0", "1", "2", "3", "4", "5", "6", "7", "8", "9", "a", "b", "c", "d", "e", "f",
];

// How a head is answered that has this byte for one of the lists, before four empty parts.
fn try_name(rt: &impl Abort, alloc: Global, high: &str, low: &str) -> Result<(), Fail> {
    let heads = [
        [high, low, "10", "20"],
        ["20", high, low, "10"],
        ["10", "20", high, low],
    ];
    for [a, b, c, d] in &heads {
        let input = join(alloc, &["x", MARK, a, b, c, d, EMPTY])?;
        if low == "0" && (high == "1" || high == "2") {
            try_input(rt, alloc, &input, Status::Done, &["image x", EMPTY, "\n"])?;
        } else {
            try_input(rt, alloc, &input, Status::BadImage, &["error frame\n"])?;
        }
    }
    Ok(())
}

#[test]
fn two_bytes_name_formats(rt: HostRuntime) -> Result<(), Fail> {
    for high in &DIGITS {
        for low in &DIGITS {
            try_name(&rt, rt.alloc(), high, low)?;
        }
    }
    Ok(())
}

// The image that a case begins with is answered alike behind a head that names no wide list.
fn try_behind_head(rt: &impl Abort, alloc: Global, case: &Case) -> Result<(), Fail> {
    let input = join(alloc, case.input)?;
    let Some(image) = input.strip_prefix(b"x".as_slice()) else {
        return Ok(());
    };
    let mut headed = join(alloc, &["x", MARK, "101010"])?;
    headed.extend_from_slice(image)?;
    try_case(rt, alloc, case, &headed, &join(alloc, case.output)?)
}

#[test]
fn a_head_of_narrow_lists_changes_no_answer(rt: HostRuntime) -> Result<(), Fail> {
    for cases in [cases(), changes(), looks()] {
        for case in cases {
            try_behind_head(&rt, rt.alloc(), case)?;
        }
    }
    Ok(())
}

// A list of one text of so many letters: the fields before them, in each format, and whether it is
// wide by need. A narrow list has at most 65,535 bytes.
struct LongList {
    len: usize,
    narrow: &'static str,
    wide: &'static str,
    is_wide: bool,
}

const LONG_LISTS: [LongList; 2] = [
    LongList {
        len: 65_533,
        narrow: "ffff0000000000000100",
        wide: "010001000000000001000000",
        is_wide: false,
    },
    LongList {
        len: 65_534,
        narrow: "00000100000000000100",
        wide: "020001000000000001000000",
        is_wide: true,
    },
];

// The three lists of a map of one pair.
#[derive(Drop)]
struct LongLists {
    keys0: &'static LongList,
    keys1: &'static LongList,
    values: &'static LongList,
}

// The name of the format of a list, and its fields.
fn spelling_of(list: &LongList, is_wide: bool) -> (&'static str, &'static str) {
    if is_wide {
        ("20", list.wide)
    } else {
        ("10", list.narrow)
    }
}

// The image of three lists which are wide or narrow as these say, with a head where one is wanted.
fn long_image(
    alloc: Global,
    lists: &LongLists,
    wide: [bool; 3],
    has_head: bool,
) -> Result<Vec<u8>, Fail> {
    let [wide0, wide1, wide2] = wide;
    let (name0, fields0) = spelling_of(lists.keys0, wide0);
    let (name1, fields1) = spelling_of(lists.keys1, wide1);
    let (name2, fields2) = spelling_of(lists.values, wide2);
    let head = if has_head {
        [MARK, name0, name1, name2]
    } else {
        [""; 4]
    };
    let mut image = join(alloc, &head)?;
    image.extend_from_slice(&text_of(
        alloc,
        &[
            Part::Once(fields0),
            Part::Times("61", lists.keys0.len),
            Part::Once(JOINER),
            Part::Once(fields1),
            Part::Times("62", lists.keys1.len),
            Part::Once(fields2),
            Part::Times("63", lists.values.len),
        ],
    )?)?;
    Ok(image)
}

// A text, an image and a text.
fn around(alloc: Global, front: &str, image: &[u8], back: &str) -> Result<Vec<u8>, Fail> {
    let mut text = join(alloc, &[front])?;
    text.extend_from_slice(image)?;
    text.extend_from_slice(back.as_bytes())?;
    Ok(text)
}

// The lists come into the empty map by a put, or stand in an image, narrow or wide: they are
// written in the formats that they need.
fn try_lengths(rt: &impl Abort, alloc: Global, lists: &LongLists) -> Result<(), Fail> {
    let needed = [
        lists.keys0.is_wide,
        lists.keys1.is_wide,
        lists.values.is_wide,
    ];
    let canonical = long_image(alloc, lists, needed, needed != [false; 3])?;
    let line = around(alloc, "image x", &canonical, "\n")?;
    let put = text_of(
        alloc,
        &[
            Part::Once("x"),
            Part::Once(EMPTY),
            Part::Once("\nput x"),
            Part::Times("61", lists.keys0.len),
            Part::Once(" x"),
            Part::Times("62", lists.keys1.len),
            Part::Once(" x"),
            Part::Times("63", lists.values.len),
        ],
    )?;
    try_long_input(rt, alloc, &put, &around(alloc, "new\n", &line, "")?)?;
    let narrow = long_image(alloc, lists, [false; 3], false)?;
    try_long_input(rt, alloc, &around(alloc, "x", &narrow, "\n")?, &line)?;
    let wide = long_image(alloc, lists, [true; 3], true)?;
    try_long_input(rt, alloc, &around(alloc, "x", &wide, "\n")?, &line)?;
    try_long_input(rt, alloc, &around(alloc, "x", &canonical, "\n")?, &line)
}

#[test]
fn each_list_is_written_in_the_format_that_it_needs(rt: HostRuntime) -> Result<(), Fail> {
    for keys0 in &LONG_LISTS {
        for keys1 in &LONG_LISTS {
            for values in &LONG_LISTS {
                let lists = LongLists {
                    keys0,
                    keys1,
                    values,
                };
                try_lengths(&rt, rt.alloc(), &lists)?;
            }
        }
    }
    Ok(())
}
