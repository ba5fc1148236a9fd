//! Moves within bytes, a block at a time.
#![tactic(auto)]

ghost use Rattle.std.specs.Prelude.{◌≡◌, ◌+◌, ◌-◌, ◌≤◌, length};
ghost use Rattle.std.specs.List.{copy_within};

/// How many bytes go at once. A copy of a length that the compiler knows is one call of the C
/// library's `memmove`, which takes the widest registers that the processor has.
const BLOCK: usize = 1024;

/// Copies `bytes[from..end]` to the place `to`, as `bytes.copy_within(from..end, to)` does. The two
/// ranges may overlap.
///
/// It takes time in proportion to `end - from`, and no memory but 1024 bytes of the stack. Bytes
/// that move by 1 to 8 go by one call of the C library's `memmove`: by the width of a field, or as
/// what stands behind a text whose length changes a little. Of others whole blocks of 1024 bytes go
/// so, and what is left by `copy_within`, which is a loop over bytes and slower for many.
#[inline]
pub fn copy_bytes(bytes: &mut [u8], from: usize, end: usize, to: usize)
    requires order { from ≤ end }
    requires inside { end ≤ length bytes.old }
    requires target { to + (end - from) ≤ length bytes.old }
    ensures { bytes.new ≡ copy_within bytes.old from end to }
{
    if to <= from {
        move_down(bytes, from, end, to);
    } else {
        move_up(bytes, from, end, to);
    }
}

/// Copies to a lower place.
#[inline]
fn move_down(bytes: &mut [u8], from: usize, end: usize, to: usize)
    requires order { from ≤ end }
    requires inside { end ≤ length bytes.old }
    requires lower { to ≤ from }
    ensures { bytes.new ≡ copy_within bytes.old from end to }
{
    match from - to {
        1 => lower_by::<1>(bytes, end, to),
        2 => lower_by::<2>(bytes, end, to),
        3 => lower_by::<3>(bytes, end, to),
        4 => lower_by::<4>(bytes, end, to),
        5 => lower_by::<5>(bytes, end, to),
        6 => lower_by::<6>(bytes, end, to),
        7 => lower_by::<7>(bytes, end, to),
        8 => lower_by::<8>(bytes, end, to),
        _ => copy_down(bytes, from, end, to),
    }
}

/// Copies to a higher place.
#[inline]
fn move_up(bytes: &mut [u8], from: usize, end: usize, to: usize)
    requires order { from ≤ end }
    requires higher { from ≤ to }
    requires target { to + (end - from) ≤ length bytes.old }
    ensures { bytes.new ≡ copy_within bytes.old from end to }
{
    match to - from {
        1 => raise_by::<1>(bytes, from, end),
        2 => raise_by::<2>(bytes, from, end),
        3 => raise_by::<3>(bytes, from, end),
        4 => raise_by::<4>(bytes, from, end),
        5 => raise_by::<5>(bytes, from, end),
        6 => raise_by::<6>(bytes, from, end),
        7 => raise_by::<7>(bytes, from, end),
        8 => raise_by::<8>(bytes, from, end),
        _ => copy_up(bytes, from, end, to),
    }
}

/// Copies to a place that is lower by `N`.
#[inline]
#[tactic(auto, using(crate::proofs::Copies::lower_rest))]
fn lower_by<const N: usize>(bytes: &mut [u8], end: usize, to: usize)
    requires order { to + N ≤ end }
    requires inside { end ≤ length bytes.old }
    ensures { bytes.new ≡ copy_within bytes.old (to + N) end to }
{
    let (_, rest) = bytes.split_at_mut(to);
    to_front::<N>(rest, end - to);
}

/// Copies to a place that is higher by `N`.
#[inline]
#[tactic(auto, using(crate::proofs::Copies::raise_rest))]
fn raise_by<const N: usize>(bytes: &mut [u8], from: usize, end: usize)
    requires order { from ≤ end }
    requires inside { end + N ≤ length bytes.old }
    ensures { bytes.new ≡ copy_within bytes.old from end (from + N) }
{
    let (_, rest) = bytes.split_at_mut(from);
    from_front::<N>(rest, end - from);
}

/// Copies the bytes from the place `N` up to `end` to the front. It is a function of its own so
/// that the compiler sees one call in it: it knows both places.
fn to_front<const N: usize>(bytes: &mut [u8], end: usize)
    requires order { N ≤ end }
    requires inside { end ≤ length bytes.old }
    ensures { bytes.new ≡ copy_within bytes.old N end 0 }
{
    bytes.copy_within(N..end, 0);
}

/// Copies the first `n` bytes to the place `N`, as [`to_front`].
fn from_front<const N: usize>(bytes: &mut [u8], n: usize)
    requires { n + N ≤ length bytes.old }
    ensures { bytes.new ≡ copy_within bytes.old 0 n N }
{
    bytes.copy_within(0..n, N);
}

/// Copies to a lower place, the first block first.
#[inline]
#[tactic(auto, using(crate::proofs::Copies::copy_down))]
fn copy_down(bytes: &mut [u8], from: usize, end: usize, to: usize)
    requires order { from ≤ end }
    requires inside { end ≤ length bytes.old }
    requires lower { to ≤ from }
    ensures { bytes.new ≡ copy_within bytes.old from end to }
{
    let mut at = from;
    let mut place = to;
    while BLOCK <= end - at {
        copy_block(bytes, at, place);
        at += BLOCK;
        place += BLOCK;
    }
    bytes.copy_within(at..end, place);
}

/// Copies to a higher place, the last block first.
#[inline]
#[tactic(auto, using(crate::proofs::Copies::copy_up))]
fn copy_up(bytes: &mut [u8], from: usize, end: usize, to: usize)
    requires order { from ≤ end }
    requires higher { from ≤ to }
    requires target { to + (end - from) ≤ length bytes.old }
    ensures { bytes.new ≡ copy_within bytes.old from end to }
{
    let mut at = end;
    while BLOCK <= at - from {
        at -= BLOCK;
        copy_block(bytes, at, to + (at - from));
    }
    bytes.copy_within(from..at, to);
}

/// Copies a block to another place. The two may overlap.
#[inline]
fn copy_block(bytes: &mut [u8], from: usize, to: usize)
    requires inside { from + BLOCK ≤ length bytes.old }
    requires target { to + BLOCK ≤ length bytes.old }
    ensures { bytes.new ≡ copy_within bytes.old from (from + BLOCK) to }
{
    let mut block = [0u8; BLOCK];
    block.copy_from_slice(&bytes[from..from + BLOCK]);
    bytes[to..to + BLOCK].copy_from_slice(&block);
}
