//! Searching by a predicate.
ghost use Rattle.std.specs.Prelude.{◌≡◌, ℕ, ◌-◌, ◌≤◌, ◌↔◌, List, length, map, Option, IfSome};
ghost use Rattle.std.specs.Prelude.{IsNone, Result, slice_range};
ghost use Rattle.std.specs.Fn.{ComputesKey};
ghost use Rattle.std.specs.List.Sorted.{IsSearchInRange};
ghost use Rattle.std.specs.declared.cmp.Ordering.{Ordering};
ghost use Rattle.zv_ule.specs.Search.{AnsweredEqual, Found, FoundIn, IsOutside};

use crate::kind::ZvKind;
use crate::search::{IndexedList, Window};
use std::cmp::Ordering;
use std::ops::Range;

/// Searches a range that lies in the list. Each turn asks once, and leaves half of the places.
#[inline]
fn halve_by<T: ZvKind, C: IndexedList<T>, P: FnMut(&[u8]) -> Ordering>(
    list: &C,
    mut predicate: P,
    range: Range<usize>,
) -> Result<usize, usize>
    requires callable { P.IsAlwaysCallable predicate }
    requires order { range.start ≤ range.end }
    requires inside { range.end ≤ length (C.list list.now) }
    ensures bound { IsSearchInRange result (range.end - range.start) }
    ensures equal { AnsweredEqual P.FnMut predicate
        (slice_range (C.list list.now) range.start range.end) result }
    ensures found { (answer : List ℕ → Ordering) → ComputesKey P.FnMut answer predicate →
        FoundIn (map answer (C.list list.now)) range result }
{
    let mut window = Window::whole(range.end - range.start);
    while window.size > 0 {
        let middle = window.middle();
        let element = list.element_at(range.start + middle);
        let answer = predicate(element.as_bytes());
        if answer.is_eq() {
            return Ok(middle);
        }
        window = window.left_by(answer);
    }
    Err(window.low)
}

/// Searches a range of places by a predicate, which says how an element lies to what is sought:
/// `Less` is before it, `Equal` is it, `Greater` is after it.
///
/// `Ok` is a place where the predicate answered `Equal`. Where the predicate is a function of the
/// element and its answers rise along the range, `Err` is the place that parts the answers `Less`
/// from the answers `Greater`. Places are counted from the range's start, and `None` comes exactly
/// where the range ends past the list or before it starts.
#[inline]
pub fn search_in_range_by<T: ZvKind, C: IndexedList<T>, P: FnMut(&[u8]) -> Ordering>(
    list: &C,
    predicate: P,
    range: Range<usize>,
) -> Option<Result<usize, usize>>
    requires { P.IsAlwaysCallable predicate }
    ensures none { IsNone result ↔ IsOutside range (length (C.list list.now)) }
    ensures bound { IfSome result (λ r. IsSearchInRange r (range.end - range.start)) }
    ensures equal { IfSome result (AnsweredEqual P.FnMut predicate
        (slice_range (C.list list.now) range.start range.end)) }
    ensures found { (answer : List ℕ → Ordering) → ComputesKey P.FnMut answer predicate →
        IfSome result (FoundIn (map answer (C.list list.now)) range) }
{
    if list.element_count() < range.end || range.end < range.start {
        return None;
    }
    Some(halve_by(list, predicate, range))
}

/// Searches the whole list by a predicate, as [`search_in_range_by`].
#[inline]
pub fn search_by<T: ZvKind, C: IndexedList<T>, P: FnMut(&[u8]) -> Ordering>(
    list: &C,
    predicate: P,
) -> Result<usize, usize>
    requires { P.IsAlwaysCallable predicate }
    ensures bound { IsSearchInRange result (length (C.list list.now)) }
    ensures equal { AnsweredEqual P.FnMut predicate (C.list list.now) result }
    ensures found { (answer : List ℕ → Ordering) → ComputesKey P.FnMut answer predicate →
        Found (map answer (C.list list.now)) result }
{
    halve_by(list, predicate, 0..list.element_count())
}
