// Framed forms of lists.

use crate::framed::errors::{NO_TEXTS, ODD_BYTE};
use crate::framed::{Fault, is_read, is_written};
use std::test::Fail;
use zv_fixed::ZeroVec;
use zv_framed::FormError;
use zv_owned::{VarZeroVec, VarZeroVecOwned};
use zv_ule::{Index8, Index16, Index32, StrULE};

// The form of a list of no elements.
const NONE: &[u8] = &[0; 8];

// The numbers 1 and 258.
const NUMBERS: &[u8] = b"\x04\0\0\0\0\0\0\0\x01\0\x02\x01";

// Bytes that are no list of numbers of two bytes.
const NO_NUMBERS: &[Fault<'_>] = &[
    (b"", FormError::Frame),
    // a length that is cut, one that is too long, a byte behind
    (b"\0\0\0\0\0\0\0", FormError::Frame),
    (b"\x03\0\0\0\0\0\0\0\x01\0", FormError::Frame),
    (b"\x02\0\0\0\0\0\0\0\x01\0\0", FormError::Frame),
    (b"\xff\xff\xff\xff\xff\xff\xff\xff\x01\0", FormError::Frame),
    // no number; that, and a byte behind
    (b"\x01\0\0\0\0\0\0\0\x01", ODD_BYTE),
    (b"\x01\0\0\0\0\0\0\0\x01\0", FormError::Frame),
];

#[test]
fn of_numbers(rt: HostRuntime) -> Result<(), Fail> {
    let alloc = rt.alloc();
    is_read::<ZeroVec<'_, u16>>(&rt, alloc, &[(NUMBERS, NUMBERS), (NONE, NONE)], NO_NUMBERS)?;
    let numbers = ZeroVec::<u16>::alloc_from_slice(alloc, &[1, 258])?;
    is_written(&rt, alloc, &numbers, NUMBERS)
}

// The texts a and bc in the format of two bytes.
const TEXTS: &[u8] = b"\x07\0\0\0\0\0\0\0\x02\0\x01\0abc";

// Bytes that are no list of texts in that format.
const OTHERS: &[Fault<'_>] = &[
    (b"\x01\0\0\0\0\0\0\0\0", NO_TEXTS),
    (b"\x03\0\0\0\0\0\0\0\x01\0\xff", NO_TEXTS),
    (b"\x03\0\0\0\0\0\0\0\x01\0a\0", FormError::Frame),
    // a text that is none, and a byte behind; that, and a length past the bytes
    (b"\x03\0\0\0\0\0\0\0\x01\0\xffa", FormError::Frame),
    (b"\x04\0\0\0\0\0\0\0\x01\0\xff", FormError::Frame),
];

// The same texts in the other two formats.
const TEXTS8: &[u8] = b"\x05\0\0\0\0\0\0\0\x02\x01abc";

const TEXTS32: &[u8] = b"\x0b\0\0\0\0\0\0\0\x02\0\0\0\x01\0\0\0abc";

// An empty list may have a count and bytes behind it; it is written with none.
#[test]
fn of_texts(rt: HostRuntime) -> Result<(), Fail> {
    let alloc = rt.alloc();
    is_read::<VarZeroVec<'_, StrULE, Index8>>(
        &rt,
        alloc,
        &[
            (TEXTS8, TEXTS8),
            (NONE, NONE),
            (b"\x01\0\0\0\0\0\0\0\0", NONE),
        ],
        &[],
    )?;
    is_read::<VarZeroVec<'_, StrULE, Index16>>(
        &rt,
        alloc,
        &[
            (TEXTS, TEXTS),
            (NONE, NONE),
            (b"\x02\0\0\0\0\0\0\0\0\0", NONE),
        ],
        OTHERS,
    )?;
    is_read::<VarZeroVec<'_, StrULE, Index32>>(
        &rt,
        alloc,
        &[
            (TEXTS32, TEXTS32),
            (NONE, NONE),
            (b"\x05\0\0\0\0\0\0\0\0\0\0\0\x07", NONE),
        ],
        &[],
    )
}

#[test]
fn texts_are_written(rt: HostRuntime) -> Result<(), Fail> {
    let alloc = rt.alloc();
    let texts = VarZeroVecOwned::<StrULE, Index16>::try_from_elements(alloc, &["a", "bc"])?;
    is_written(&rt, alloc, &VarZeroVec::new_owned(texts), TEXTS)
}
