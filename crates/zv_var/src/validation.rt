// The test of a list: all elements at one look, or one after another.
//
// Throughout, `indices` begins with as many starts as `starts` says, and `body` are the bytes of
// the elements.
ghost use Rattle.std.specs.Prelude.{◌≡◌, ℕ, ◌+◌, ◌*◌, ◌^◌, ◌<◌, ◌≤◌, List, [], ◌∷◌, ◌++◌, length};
ghost use Rattle.std.specs.Prelude.{IsTrue, None, true};
ghost use Rattle.std.specs.Result.{result_err};
ghost use Rattle.std.specs.List.{AllByRecursion};
ghost use Rattle.zv_var.specs.Format.{elements_fault, fields};
ghost use Rattle.zv_var.specs.Order.{in_order};

use crate::error::VarZeroVecFormatError;
use zv_ule::{VarZeroVecFormat, ZvKind, read_start};

/// Whether the list is known to have no fault, by a look at all elements' bytes at once and at the
/// starts. `false` means not known: then `check_elements` decides.
pub(crate) fn are_sound<T: ZvKind, F: VarZeroVecFormat>(
    starts: usize,
    indices: &[u8],
    body: &[u8],
) -> bool
    requires usable { IsTrue T.usable }
    requires room { F.W * starts ≤ length indices.now }
    ensures { IsTrue result → elements_fault T.fault body.now 0
        (fields F.W starts indices.now ++ length body.now ∷ []) ≡ None }
{
    if !are_in_order::<F>(starts, indices, body.len()) {
        return false;
    }
    if T::is_sound_everywhere(body) {
        return true;
    }
    if !T::is_sound_between_boundaries(body)
        || !T::is_boundary(body, 0)
        || !T::is_boundary(body, body.len())
    {
        return false;
    }
    are_boundaries::<T, F>(starts, indices, body)
}

/// Whether the starts rise from 0 to at most the end.
fn are_in_order<F: VarZeroVecFormat>(starts: usize, indices: &[u8], end: usize) -> bool
    requires { F.W * starts ≤ length indices.now }
    ensures { result ≡ in_order 0 (fields F.W starts indices.now) end }
{
    // With a flag in place of an early return, and `u32`, the compiler compares several at once.
    let mut good = true;
    let mut start = 0u32;
    let mut rest = indices;
    for _i in 0..starts {
        let (at, after) = split_start::<F>(rest);
        let next = at as u32;
        good &= start <= next;
        start = next;
        rest = after;
    }
    good & (start as usize <= end)
}

/// Whether each start is known to be a boundary of the elements' bytes. `false` means not known.
fn are_boundaries<T: ZvKind, F: VarZeroVecFormat>(
    starts: usize,
    indices: &[u8],
    body: &[u8],
) -> bool
    requires usable { IsTrue T.usable }
    requires room { F.W * starts ≤ length indices.now }
    ensures { IsTrue result → AllByRecursion (λ at. T.boundary body.now at ≡ true)
        (fields F.W starts indices.now) }
{
    let mut good = true;
    let mut rest = indices;
    for _i in 0..starts {
        let (at, after) = split_start::<F>(rest);
        good &= T::is_boundary(body, at);
        rest = after;
    }
    good
}

/// Checks each element in turn, that it lies within the bytes and is valid, and names the first
/// fault.
pub(crate) fn check_elements<T: ZvKind, F: VarZeroVecFormat>(
    starts: usize,
    indices: &[u8],
    body: &[u8],
) -> Result<(), VarZeroVecFormatError>
    requires usable { IsTrue T.usable }
    requires room { F.W * starts ≤ length indices.now }
    ensures { result_err result ≡ elements_fault T.fault body.now 0
        (fields F.W starts indices.now ++ length body.now ∷ []) }
{
    let mut start = 0;
    let mut rest = indices;
    for _i in 0..starts {
        let (end, after) = split_start::<F>(rest);
        check_element::<T>(body, start, end)?;
        start = end;
        rest = after;
    }
    check_element::<T>(body, start, body.len())
}

/// Checks one element, that it lies within the bytes and is valid.
#[inline(always)]
fn check_element<T: ZvKind>(
    body: &[u8],
    start: usize,
    end: usize,
) -> Result<(), VarZeroVecFormatError>
    requires { IsTrue T.usable }
    ensures { result_err result ≡ elements_fault T.fault body.now start (end ∷ []) }
{
    if end < start || body.len() < end {
        return Err(VarZeroVecFormatError::Metadata);
    }
    if let Err(e) = T::check(&body[start..end]) {
        return Err(VarZeroVecFormatError::Values(e));
    }
    Ok(())
}

/// The first start, and the bytes after it.
#[inline(always)]
fn split_start<F: VarZeroVecFormat>(indices: &[u8]) -> (usize, &[u8])
    requires { F.W ≤ length indices.now }
    ensures fields { (k n : ℕ) → k ≡ n + 1 →
        fields F.W k indices.now ≡ result.0 ∷ fields F.W n result.1.now }
    ensures rest { F.W + length result.1.now ≡ length indices.now }
    ensures small { result.0 < 2 ^ 32 }
{
    let (field, rest) = indices.split_at(F::W);
    (read_start::<F>(field), rest)
}
