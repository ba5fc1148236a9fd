// The size rule: which changes a list takes. A list in one format may be asked by the rule of
// another.
ghost use Rattle.std.specs.Prelude.{◌≡◌, ◌+◌, ◌^◌, ◌<◌, [], length, slice_index_or, is_some};
ghost use Rattle.std.specs.Prelude.{IfSome};
ghost use Rattle.zv_var.specs.Views.{list_of};
ghost use Rattle.zv_owned.specs.Changes.{HasPlace, IsBelow, growth, takes_change};
ghost use Rattle.zv_owned.specs.Size.{max_of, size, takes_insert, takes_pushes, takes_replace};

use crate::change::Change;
use zv_ule::{VarZeroVecFormat, ZvArg, ZvKind};
use zv_var::slice::VarZeroSlice;

/// The most that a field holds.
#[inline]
fn most<F: VarZeroVecFormat>() -> usize
    ensures is { result ≡ max_of F.W }
    ensures small { result < 2 ^ 32 }
{
    F::MAX
}

/// How many bytes a list in one format, of `count` elements, is written as in another.
#[inline]
pub(crate) fn size_of<T: ZvKind, F: VarZeroVecFormat, G: VarZeroVecFormat>(
    list: VarZeroSlice<'_, T, F>,
    count: usize,
) -> usize
    requires count { count ≡ length (list_of list) }
    requires some { 0 < count }
    ensures is { result ≡ size G.W (list_of list.entry) }
    ensures small { result < 2 ^ 63 + 2 ^ 34 }
{
    let own = F::W * count;
    let other = G::W * count;
    list.as_bytes().len() - own + other
}

/// How many bytes the element at a place has.
#[inline]
#[tactic(auto, using(crate::proofs::SizeRule::length_seen, crate::proofs::Offsets::offset_rises))]
fn len_at<T: ZvKind, F: VarZeroVecFormat>(list: VarZeroSlice<'_, T, F>, index: usize) -> usize
    requires { index < length (list_of list) }
    ensures { result ≡ length (slice_index_or (list_of list.entry) index []) }
{
    // `len` is called for its clause that the elements are fewer than 2^64, so the next place fits.
    let _count = list.len();
    list.offset(index + 1) - list.offset(index)
}

/// Whether the list takes an element of `len` bytes beside its own, by the rule of the format `G`.
#[inline]
pub(crate) fn takes_insert<T: ZvKind, F: VarZeroVecFormat, G: VarZeroVecFormat>(
    list: VarZeroSlice<'_, T, F>,
    len: usize,
) -> bool
    ensures { result ≡ takes_insert G.W (list_of list.entry) len }
{
    let most = most::<G>();
    let count = list.len();
    len < most && (count == 0 || size_of::<T, F, G>(list, count) + len + G::W <= most)
}

/// Whether the list takes an element of `len` bytes in place of one of its own, by the rule of the
/// format `G`.
#[inline]
pub(crate) fn takes_replace<T: ZvKind, F: VarZeroVecFormat, G: VarZeroVecFormat>(
    list: VarZeroSlice<'_, T, F>,
    index: usize,
    len: usize,
) -> bool
    requires { index < length (list_of list) }
    ensures { result ≡ takes_replace G.W (list_of list.entry)
        (length (slice_index_or (list_of list.entry) index [])) len }
{
    let most = most::<G>();
    let old = len_at(list, index);
    len < most && (len <= old || size_of::<T, F, G>(list, list.len()) + len <= most + old)
}

/// Whether an empty list takes the list's elements one after another, by the rule of the format
/// `G`.
#[inline]
pub(crate) fn takes_elements<T: ZvKind, F: VarZeroVecFormat, G: VarZeroVecFormat>(
    list: VarZeroSlice<'_, T, F>,
) -> bool
    ensures { result ≡ takes_pushes (takes_insert G.W) [] (list_of list.entry) }
{
    let most = most::<G>();
    match list.len() {
        0 => true,
        1 => len_at(list, 0) < most,
        count => size_of::<T, F, G>(list, count) <= most,
    }
}

/// How many bytes longer a change at a place makes the list at most, or `None` where the list does
/// not take it.
pub(crate) fn growth_of<T: ZvKind, F: VarZeroVecFormat, Q: ZvArg<T>>(
    list: VarZeroSlice<'_, T, F>,
    index: usize,
    change: &Change<'_, Q>,
) -> Option<usize>
    requires place { HasPlace Q.bytes change.now (length (list_of list)) index }
    requires below { IsBelow Q.bytes change.now }
    ensures fits { is_some result ≡
        takes_change Q.bytes F.W change.now (list_of list.entry) index }
    ensures growth { IfSome result (λ n. n ≡ growth Q.bytes F.W change.now) }
{
    match change {
        Change::Insert(value) => {
            let len = value.arg_len();
            if takes_insert::<T, F, F>(list, len) {
                Some(len + F::W)
            } else {
                None
            }
        }
        Change::Replace(value) => {
            let len = value.arg_len();
            if takes_replace::<T, F, F>(list, index, len) {
                Some(len)
            } else {
                None
            }
        }
        Change::Remove => Some(0),
    }
}
