//! Whether the elements of a list ascend.
ghost use Rattle.std.specs.Prelude.{◌≡◌, ◌<◌, ◌≤◌, length, slice_range};
ghost use Rattle.zv_ule.specs.Search.{ascends};

use crate::kind::ZvOrd;
use crate::search::IndexedList;

/// Whether the elements of a range that has some ascend.
fn range_ascends<T: ZvOrd, C: IndexedList<T>>(list: &C, start: usize, end: usize) -> bool
    requires order { start < end }
    requires within { end ≤ length (C.list list.now) }
    ensures { result ≡ ascends T.cmp (slice_range (C.list list.now) start end) }
{
    let mut last = list.element_at(start);
    for index in start + 1..end {
        let element = list.element_at(index);
        if !last.order(element).is_lt() {
            return false;
        }
        last = element;
    }
    true
}

/// Whether the elements from `start` up to `end` ascend, each below its next: so do none and one.
pub fn is_ascending_between<T: ZvOrd, C: IndexedList<T>>(list: &C, start: usize, end: usize) -> bool
    requires order { start ≤ end }
    requires within { end ≤ length (C.list list.now) }
    ensures { result ≡ ascends T.cmp (slice_range (C.list list.now) start end) }
{
    start == end || range_ascends(list, start, end)
}
