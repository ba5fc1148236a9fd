// Hashes in their slots: worked by hand, and by the numbers 0 to 9 as keys.
use std::alloc::Global;
use std::process::Abort;
use std::test::Fail;
use zv_hash::{HashError, compute_displacements, compute_index, split_hash64};

// What the keys 0 to 9 are hashed to, each as four bytes.
const KEY_HASHES: [u64; 10] = [
    0xAADB_3282_1F31_7443,
    0x481C_170B_46DE_1B40,
    0x5647_C190_C224_3A41,
    0xF31A_3D3D_037B_5046,
    0x164A_7AA1_915F_EAEE,
    0x441F_AE45_3391_4688,
    0x00F7_E8C3_553A_D005,
    0x1808_C48C_E8C8_F80A,
    0x689D_6C9C_BA8A_054B,
    0xDDCC_FD96_5B82_E623,
];

// The hash with these three parts.
fn hash(bucket: u16, f0: u16, f1: u16) -> u64 {
    (u64::from(bucket) << 48) | (u64::from(f0) << 24) | u64::from(f1)
}

// Asserts where hashes are placed.
fn is_placed<R: Abort>(
    rt: &R,
    alloc: Global,
    hashes: &[u64],
    displacements: &[(u32, u32)],
    places: &[usize],
) -> Result<(), Fail> {
    let placement = compute_displacements(alloc, hashes)?;
    assert!(rt; placement.displacements.as_slice() == displacements);
    assert!(rt; placement.reverse_mapping.as_slice() == places);
    Ok(())
}

#[test]
fn a_hash_has_three_parts(rt: HostRuntime) {
    assert!(rt; split_hash64(0x0123_4567_89AB_CDEF, 10) == (1, 4_548_489, 11_259_375));
    assert!(rt; split_hash64(u64::MAX, 1) == (0, 0xFF_FFFF, 0xFF_FFFF));
}

#[test]
fn an_index_wraps_at_32_bits(rt: HostRuntime) {
    assert!(rt; compute_index((5, 3), (2, 1), 7) == Some(5));
    assert!(rt; compute_index((0xFF_FFFF, 0xFF_FFFF), (256, 0), 7) == Some(3));
    assert!(rt; compute_index((5, 3), (0, 0), 7) == None);
    assert!(rt; compute_index((5, 3), (2, 1), 0) == None);
}

#[test]
fn few_hashes_are_placed(rt: HostRuntime) -> Result<(), Fail> {
    is_placed(&rt, rt.alloc(), &[], &[], &[])?;
    is_placed(&rt, rt.alloc(), &[7], &[(0, 1)], &[0])?;
    let keys = &KEY_HASHES[..3];
    is_placed(&rt, rt.alloc(), keys, &[(0, 0), (0, 1), (0, 1)], &[1, 2, 0])
}

#[test]
fn buckets_take_turns_by_size_and_number(rt: HostRuntime) -> Result<(), Fail> {
    let alloc = rt.alloc();
    let one_bucket = [hash(0, 0, 0), hash(0, 0, 1)];
    is_placed(&rt, alloc, &one_bucket, &[(1, 0), (0, 0)], &[0, 1])?;
    let of_one_size = [hash(0, 0, 0), hash(1, 0, 0)];
    is_placed(&rt, rt.alloc(), &of_one_size, &[(1, 0), (0, 1)], &[0, 1])
}

#[test]
fn the_larger_bucket_is_first(rt: HostRuntime) -> Result<(), Fail> {
    let hashes = [hash(2, 0, 0), hash(0, 0, 0), hash(0, 1, 0)];
    is_placed(
        &rt,
        rt.alloc(),
        &hashes,
        &[(0, 1), (0, 0), (1, 0)],
        &[0, 1, 2],
    )
}

#[test]
fn ten_keys_are_placed(rt: HostRuntime) -> Result<(), Fail> {
    let displacements = [
        (0, 2),
        (0, 5),
        (0, 5),
        (0, 0),
        (0, 4),
        (0, 0),
        (0, 1),
        (0, 1),
        (0, 0),
        (0, 1),
    ];
    let places = [5, 9, 0, 7, 4, 8, 1, 2, 6, 3];
    is_placed(&rt, rt.alloc(), &KEY_HASHES, &displacements, &places)
}

// The refusal of hashes.
fn refusal(alloc: Global, hashes: &[u64]) -> Option<HashError> {
    compute_displacements(alloc, hashes).err()
}

#[test]
fn hashes_that_never_part_are_refused(rt: HostRuntime) {
    let bucket = HashError::NoPlace { bucket: 0 };
    assert!(rt; refusal(rt.alloc(), &[5, 5]) == Some(bucket));
    let same_slot = [hash(1, 0, 0), hash(1, 3, 0), hash(2, 0, 0)];
    let bucket = HashError::NoPlace { bucket: 1 };
    assert!(rt; refusal(rt.alloc(), &same_slot) == Some(bucket));
}
