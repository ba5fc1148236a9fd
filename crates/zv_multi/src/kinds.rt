// The kinds of a record's fields: one field, and the fields behind it.
ghost use Rattle.std.specs.Prelude.{◌≡◌, ℕ, ◌+◌, ◌<◌, ◌≤◌, Bool, true, ◌&&◌, List, [], ◌∷◌, length};
ghost use Rattle.std.specs.Prelude.{Option, None, IsTrue};
ghost use Rattle.std.specs.Cmp.{IsTotalOrder, nat_cmp_total, on_total, then_total};
ghost use Rattle.std.specs.Result.{result_err};
ghost use Rattle.std.specs.declared.cmp.Ordering.{Ordering};
ghost use Rattle.zv_multi.specs.Records.{field_at, fields_fault, fields_order};
ghost use Rattle.zv_ule.specs.declared.error.UleError.{UleError};
ghost use Rattle.zv_var.specs.Views.{lengthless_list};

use crate::any::AnyBytes;
use crate::fields::{check_field, field_view};
use std::cmp::Ordering;
use std::marker::PhantomData;
use zv_ule::{UleError, VarZeroVecFormat, ZvKind, ZvOrd};
use zv_var::VarZeroLengthlessSlice;

/// The kinds of fields, one after another.
pub trait FieldKinds {
    /// Whether the kinds are usable.
    ghost usable: { Bool };

    /// The tests of the kinds.
    ghost faults: { List (List ℕ → Option UleError) };

    /// Checks the fields from a place on, each by its kind, and names the first fault.
    fn check_from<F: VarZeroVecFormat>(
        fields: VarZeroLengthlessSlice<'_, AnyBytes, F>,
        from: usize,
    ) -> Result<(), UleError>
        requires usable { IsTrue usable }
        requires places { from + length faults ≤ length (lengthless_list fields) }
        ensures { result_err result ≡ fields_fault faults from (lengthless_list fields.entry) };
}

/// The kinds of fields that have an order each.
pub trait FieldOrders: FieldKinds {
    /// The orders of the kinds.
    ghost orders: { List (List ℕ → List ℕ → Ordering) };

    /// How two records compare by their fields from a place on, the earlier field first.
    fn compare_from<F: VarZeroVecFormat>(
        left: VarZeroLengthlessSlice<'_, AnyBytes, F>,
        right: VarZeroLengthlessSlice<'_, AnyBytes, F>,
        from: usize,
    ) -> Ordering
        requires usable { IsTrue Self.usable }
        requires left_places { from + length Self.faults ≤ length (lengthless_list left) }
        requires right_places { from + length Self.faults ≤ length (lengthless_list right) }
        requires left_spells { fields_fault Self.faults from (lengthless_list left) ≡ None }
        requires right_spells { fields_fault Self.faults from (lengthless_list right) ≡ None }
        ensures { result ≡ fields_order orders from (lengthless_list left.entry)
            (lengthless_list right.entry) };

    /// The order is total.
    ghost total: { (i : ℕ) → IsTotalOrder (fields_order orders i) };
}

/// A field of kind `A`, and the fields behind it.
pub struct Field<A: ZvKind, R: FieldKinds> {
    of: PhantomData<(A, R)>,
}

/// The end of a record: no field.
pub struct End;

impl FieldKinds for End {
    ghost usable = { true };

    ghost faults = { [] };

    #[inline]
    fn check_from<F: VarZeroVecFormat>(
        _fields: VarZeroLengthlessSlice<'_, AnyBytes, F>,
        _from: usize,
    ) -> Result<(), UleError> {
        Ok(())
    }
}

impl<A: ZvKind, R: FieldKinds> FieldKinds for Field<A, R> {
    ghost usable = { A.usable && R.usable };

    ghost faults = { A.fault ∷ R.faults };

    #[tactic(auto, using(zv_var::proofs::Lists::counts))]
    #[inline]
    fn check_from<F: VarZeroVecFormat>(
        fields: VarZeroLengthlessSlice<'_, AnyBytes, F>,
        from: usize,
    ) -> Result<(), UleError> {
        check_field::<A, F>(fields, from)?;
        R::check_from(fields, from + 1)
    }
}

impl FieldOrders for End {
    ghost orders = { [] };

    #[inline]
    fn compare_from<F: VarZeroVecFormat>(
        _left: VarZeroLengthlessSlice<'_, AnyBytes, F>,
        _right: VarZeroLengthlessSlice<'_, AnyBytes, F>,
        _from: usize,
    ) -> Ordering {
        Ordering::Equal
    }

    ghost total = { λ _. on_total (λ _. 0) nat_cmp_total };
}

impl<A: ZvOrd, R: FieldOrders> FieldOrders for Field<A, R> {
    ghost orders = { A.cmp ∷ R.orders };

    #[tactic(auto, using(zv_var::proofs::Lists::counts))]
    #[inline]
    fn compare_from<F: VarZeroVecFormat>(
        left: VarZeroLengthlessSlice<'_, AnyBytes, F>,
        right: VarZeroLengthlessSlice<'_, AnyBytes, F>,
        from: usize,
    ) -> Ordering {
        match field_view::<A, F>(left, from).order(field_view(right, from)) {
            Ordering::Equal => R::compare_from(left, right, from + 1),
            order => order,
        }
    }

    ghost total = { λ i. then_total (on_total (λ xs. field_at xs i) A.total) (R.total (i + 1)) };
}
