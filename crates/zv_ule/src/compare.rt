// The order of texts.
ghost use Rattle.std.specs.Prelude.{◌≡◌, ◌<◌, ◌≤◌, length, min};
ghost use Rattle.std.specs.Int.{from_be_bytes, w32};
ghost use Rattle.std.specs.Cmp.Lexicographic.{slice_cmp};
ghost use Rattle.std.specs.Ordering.{nat_cmp};
ghost use Rattle.zv_ule.specs.Fronts.{OrdersFront};

use std::cmp::Ordering;

// The order byte by byte.
#[inline(always)]
fn compare_each(a: &[u8], b: &[u8]) -> Ordering
    ensures order { result ≡ slice_cmp nat_cmp a.now b.now }
{
    for i in 0..a.len().min(b.len()) {
        if a[i] != b[i] {
            return if a[i] < b[i] {
                Ordering::Less
            } else {
                Ordering::Greater
            };
        }
    }
    a.len().cmp(&b.len())
}

// The order of two numbers that are mostly equal.
#[inline(always)]
fn order_of(x: u64, y: u64) -> Ordering
    ensures { result ≡ nat_cmp x y }
{
    if x == y {
        Ordering::Equal
    } else if x < y {
        Ordering::Less
    } else {
        Ordering::Greater
    }
}

// The number of the first four bytes, the first of them the highest.
#[inline(always)]
fn first_four(bytes: &[u8]) -> u32
    requires { 4 ≤ length bytes.now }
    ensures { result ≡ from_be_bytes w32 bytes.now }
{
    u32::from_be_bytes([bytes[0], bytes[1], bytes[2], bytes[3]])
}

#[inline(always)]
fn order_of_four(a: &[u8], b: &[u8]) -> Ordering
    requires a { 4 ≤ length a.now }
    requires b { 4 ≤ length b.now }
    ensures { OrdersFront a.now b.now 4 result }
{
    order_of(first_four(a) as u64, first_four(b) as u64)
}

// Of four to eight bytes, the first four and the last four.
#[inline(always)]
fn order_by_four(a: &[u8], b: &[u8], both: usize) -> Ordering
    requires a { both ≤ length a.now }
    requires b { both ≤ length b.now }
    requires few { (4 ≤ both) × (both ≤ 8) }
    ensures { OrdersFront a.now b.now both result }
{
    match order_of_four(a, b) {
        Ordering::Equal => order_of_four(&a[both - 4..], &b[both - 4..]),
        order => order,
    }
}

// The order of byte strings of which one has fewer than eight bytes: byte by byte, or the first
// four and the last four bytes of both.
#[inline(always)]
fn compare_short(a: &[u8], b: &[u8]) -> Ordering
    requires short { min (length a.now) (length b.now) < 8 }
    ensures order { result ≡ slice_cmp nat_cmp a.now b.now }
{
    let both = a.len().min(b.len());
    if both < 4 {
        return compare_each(a, b);
    }
    match order_by_four(a, b, both) {
        Ordering::Equal => a.len().cmp(&b.len()),
        order => order,
    }
}

/// The order of texts, byte by byte; where one is the start of the other, the longer is greater.
/// It is that of `str`, which is a call: a search has the comparison with a short text inlined.
#[inline(always)]
pub(crate) fn compare_texts(a: &str, b: &str) -> Ordering
    ensures order { result ≡ slice_cmp nat_cmp a.now b.now }
{
    if a.len().min(b.len()) < 8 {
        return compare_short(a.as_bytes(), b.as_bytes());
    }
    a.cmp(b)
}
