// Searches in a container by a predicate.
ghost use Rattle.std.specs.Prelude.{◌≡◌, ℕ, ◌-◌, ◌↔◌, List, length, map, Option, IfSome, IsNone};
ghost use Rattle.std.specs.Prelude.{Result, slice_range};
ghost use Rattle.std.specs.Fn.{ComputesKey};
ghost use Rattle.std.specs.List.Sorted.{IsSearchInRange};
ghost use Rattle.std.specs.declared.cmp.Ordering.{Ordering};
ghost use Rattle.zv_ule.specs.Search.{AnsweredEqual, Found, FoundIn, IsOutside};

use crate::search::Indexed;
use crate::vecs::ZeroVecLike;
use std::cmp::Ordering;
use std::ops::Range;
use zv_ule::ZvKind;
use zv_ule::search::{search_by, search_in_range_by};

/// The searches of a container by a predicate over an element's bytes. Each container has them.
///
/// The predicate says how an element lies to what is sought: `Less` is before it, `Equal` is it,
/// `Greater` is after it. A search halves its range and asks once a turn. `Ok` is a place where the
/// predicate answered `Equal`. Where the predicate is a function of the element and its answers
/// rise along the list, `Err` is the place that parts the answers `Less` from the answers
/// `Greater`. Where they don't, `Err` says nothing.
pub trait ZeroVecSearchBy<T: ZvKind>: ZeroVecLike<T> {
    /// Searches the whole list.
    fn zvl_binary_search_by<P: FnMut(&[u8]) -> Ordering>(
        &self,
        predicate: P,
    ) -> Result<usize, usize>
        requires { P.IsAlwaysCallable predicate }
        ensures bound { IsSearchInRange result (length (Self.list self.now)) }
        ensures equal { AnsweredEqual P.FnMut predicate (Self.list self.now) result }
        ensures found { (answer : List ℕ → Ordering) → ComputesKey P.FnMut answer predicate →
            Found (map answer (Self.list self.now)) result }
    {
        search_by(&Indexed::new(self), predicate)
    }

    /// Searches a range. Places are counted from the range's start, and `None` comes
    /// exactly where the range ends past the list or before it starts.
    fn zvl_binary_search_in_range_by<P: FnMut(&[u8]) -> Ordering>(
        &self,
        predicate: P,
        range: Range<usize>,
    ) -> Option<Result<usize, usize>>
        requires { P.IsAlwaysCallable predicate }
        ensures none { IsNone result ↔ IsOutside range (length (Self.list self.now)) }
        ensures bound { IfSome result (λ r. IsSearchInRange r (range.end - range.start)) }
        ensures equal { IfSome result (AnsweredEqual P.FnMut predicate
            (slice_range (Self.list self.now) range.start range.end)) }
        ensures found { (answer : List ℕ → Ordering) → ComputesKey P.FnMut answer predicate →
            IfSome result (FoundIn (map answer (Self.list self.now)) range) }
    {
        search_in_range_by(&Indexed::new(self), predicate, range)
    }
}

impl<T: ZvKind, C: ZeroVecLike<T>> ZeroVecSearchBy<T> for C {}
