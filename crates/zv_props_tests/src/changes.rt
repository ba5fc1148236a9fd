// Ranges that are set, and look-ups.
use crate::rows::{Row, bytes_of};
use std::alloc::Global;
use std::process::Abort;
use std::test::Fail;
use zv_props::laws::{one_table, worked_tables};
use zv_props::{BuildError, MAX_CODE_POINT, Props};

// The rows of a table, sets one after another, and the rows that they leave.
struct Case {
    before: &'static [Row],
    sets: &'static [Row],
    after: &'static [Row],
}

const CASES: [Case; 19] = [
    // two ranges, and the gap between them
    Case {
        before: &[],
        sets: &[(65, 90, 1), (97, 122, 1)],
        after: &[(65, 90, 1), (97, 122, 1)],
    },
    Case {
        before: &[(65, 90, 1), (97, 122, 1)],
        sets: &[(91, 96, 1)],
        after: &[(65, 122, 1)],
    },
    // one neighbour is joined, and one of another value is not
    Case {
        before: &[(65, 69, 1)],
        sets: &[(70, 80, 1)],
        after: &[(65, 80, 1)],
    },
    Case {
        before: &[(70, 80, 1)],
        sets: &[(65, 69, 1)],
        after: &[(65, 80, 1)],
    },
    Case {
        before: &[(10, 20, 1), (30, 40, 2)],
        sets: &[(21, 29, 3)],
        after: &[(10, 20, 1), (21, 29, 3), (30, 40, 2)],
    },
    Case {
        before: &[(10, 20, 1), (30, 40, 2)],
        sets: &[(21, 29, 2)],
        after: &[(10, 20, 1), (21, 40, 2)],
    },
    // a neighbour at a distance of one code point stays apart
    Case {
        before: &[(10, 20, 1), (30, 40, 1)],
        sets: &[(22, 28, 1)],
        after: &[(10, 20, 1), (22, 28, 1), (30, 40, 1)],
    },
    // a row is split
    Case {
        before: &[(65, 122, 1)],
        sets: &[(70, 80, 2)],
        after: &[(65, 69, 1), (70, 80, 2), (81, 122, 1)],
    },
    Case {
        before: &[(65, 122, 1)],
        sets: &[(70, 80, 0)],
        after: &[(65, 69, 1), (81, 122, 1)],
    },
    // the ends of a row are cut
    Case {
        before: &[(10, 20, 1)],
        sets: &[(5, 10, 0), (20, 25, 2)],
        after: &[(11, 19, 1), (20, 25, 2)],
    },
    // several rows give way
    Case {
        before: &[(10, 20, 1), (30, 40, 2), (45, 46, 4), (50, 60, 3)],
        sets: &[(15, 55, 9)],
        after: &[(10, 14, 1), (15, 55, 9), (56, 60, 3)],
    },
    Case {
        before: &[(10, 20, 1), (30, 40, 2), (50, 60, 1), (70, 80, 5)],
        sets: &[(20, 50, 1)],
        after: &[(10, 60, 1), (70, 80, 5)],
    },
    // all of them
    Case {
        before: &[(65, 90, 1), (97, 122, 2)],
        sets: &[(0, MAX_CODE_POINT, 3)],
        after: &[(0, MAX_CODE_POINT, 3)],
    },
    Case {
        before: &[(65, 90, 1), (97, 122, 2)],
        sets: &[(0, MAX_CODE_POINT, 0)],
        after: &[],
    },
    // a value that is there already, and no value where there is none
    Case {
        before: &[(65, 122, 1), (130, 140, 2)],
        sets: &[(70, 80, 1), (65, 122, 1), (123, 129, 0)],
        after: &[(65, 122, 1), (130, 140, 2)],
    },
    Case {
        before: &[],
        sets: &[(0, 9, 0)],
        after: &[],
    },
    // the least and the largest code point
    Case {
        before: &[],
        sets: &[(0, 0, 1), (MAX_CODE_POINT, MAX_CODE_POINT, 2), (1, 1, 1)],
        after: &[(0, 1, 1), (MAX_CODE_POINT, MAX_CODE_POINT, 2)],
    },
    Case {
        before: &[(0, 5, 1), (1_114_000, MAX_CODE_POINT, 2)],
        sets: &[(0, 2, 0), (MAX_CODE_POINT, MAX_CODE_POINT, 7)],
        after: &[
            (3, 5, 1),
            (1_114_000, 1_114_110, 2),
            (MAX_CODE_POINT, MAX_CODE_POINT, 7),
        ],
    },
    // the largest value
    Case {
        before: &[(1, 3, 65_535)],
        sets: &[(2, 2, 65_534)],
        after: &[(1, 1, 65_535), (2, 2, 65_534), (3, 3, 65_535)],
    },
];

// Sets one range, which is known to be one.
fn set(
    rt: &(impl Abort + Alloc<A = Global>),
    table: &mut Props<'_>,
    range: Row,
) -> Result<(), Fail> {
    let (first, last, value) = range;
    assert!(rt; first <= last && last <= MAX_CODE_POINT);
    table.set(rt.alloc(), first, last, value)?;
    Ok(())
}

// Each case leaves the bytes of its rows, and a second time as well.
#[test]
fn sets_leave_their_tables(rt: HostRuntime) -> Result<(), Fail> {
    for (number, case) in CASES.iter().enumerate() {
        let before = bytes_of(rt.alloc(), case.before)?;
        let after = bytes_of(rt.alloc(), case.after)?;
        let Ok(mut table) = Props::parse(&before) else {
            panic!(&rt; "case {number} does not begin with a table");
        };
        for _ in 0..2 {
            for range in case.sets {
                set(&rt, &mut table, *range)?;
            }
            assert!(&rt; table.as_bytes() == after.as_slice(), "case {number}");
        }
        assert!(&rt; Props::parse(&after).is_ok(), "case {number}");
        assert_eq!(&rt; table.len(), case.after.len(), "case {number}");
    }
    Ok(())
}

// Ranges become their table, and the first bad one is told.
#[test]
fn ranges_are_built(rt: HostRuntime) -> Result<(), Fail> {
    let wanted = bytes_of(rt.alloc(), &[(65, 122, 1)])?;
    let built = Props::build(rt.alloc(), &[(65, 90, 1), (91, 122, 1)])?;
    assert!(&rt; built.as_bytes() == wanted.as_slice());
    let last = Props::build(
        rt.alloc(),
        &[(65, 122, 2), (70, 80, 3), (60, 130, 0), (65, 122, 1)],
    )?;
    assert!(&rt; last.as_bytes() == wanted.as_slice());
    let bad = [(65, 90, 1), (91, 122, 1), (5, 4, 1), (6, 5, 1)];
    assert!(&rt; Props::build(rt.alloc(), &bad).err() == Some(BuildError::BadSet { index: 2 }));
    let high = [(65, 90, 1), (5, MAX_CODE_POINT + 1, 0)];
    assert!(&rt; Props::build(rt.alloc(), &high).err() == Some(BuildError::BadSet { index: 1 }));
    assert!(&rt; Props::build(rt.alloc(), &[])?.as_bytes().is_empty());
    Ok(())
}

#[test]
fn laws_are_there(rt: HostRuntime) {
    let (first, second) = (Props::new(), Props::new());
    one_table(&first, &second);
    worked_tables();
    assert!(&rt; first.as_bytes() == second.as_bytes());
}
