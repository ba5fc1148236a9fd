// Records whose fields have kinds.
ghost use Rattle.std.specs.Prelude.{◌≡◌, ℕ, ◌==◌, Bool, ◌&&◌, List, length, None, IsTrue};
ghost use Rattle.std.specs.Result.{result_err};
ghost use Rattle.std.specs.Cmp.{on_total};
ghost use Rattle.std.specs.Ordering.{on};
ghost use Rattle.zv_var.specs.Views.{lengthless_list};
ghost use Rattle.zv_multi.specs.Records.{field_at, fields_order, record_fault, record_name};
ghost use Rattle.zv_ule.specs.Fixed.{is_width};
ghost use Rattle.zv_ule.specs.Views.{element_of};
ghost use Rattle.zv_var.specs.Format.{elements_after};

use crate::any::AnyBytes;
use crate::fields::{MultiFieldsULE, field_view};
use crate::kinds::{End, Field, FieldKinds, FieldOrders};
use std::cmp::Ordering;
use std::marker::PhantomData;
use std::sync::ledger::Ledger;
use zv_ule::{Steps, TyName, UleError, VarRef, VarULE, VarZeroVecFormat, ZvKind, ZvOrd};
use zv_var::VarZeroLengthlessSlice;

/// The kind of records of `LEN` fields, which have the kinds `K` in turn: where each field but the
/// first starts, and then the fields, with nothing between them. They compare field by field.
///
/// # Errors
/// `ParseError { ty: Lengthless }` where the starts are cut or a field lies wrong, and else the
/// error of the first field that is not valid.
pub struct RecordULE<const LEN: usize, K: FieldKinds, F: VarZeroVecFormat> {
    of: PhantomData<(K, F)>,
}

/// The name of the kinds of records of so many fields.
const fn name_of(count: usize) -> TyName
    ensures { result ≡ record_name count }
{
    match count {
        2 => TyName::Tuple2Var,
        3 => TyName::Tuple3Var,
        4 => TyName::Tuple4Var,
        5 => TyName::Tuple5Var,
        6 => TyName::Tuple6Var,
        _ => TyName::MultiFields,
    }
}

/// The kind of records of two fields.
pub type Tuple2VarULE<A, B, F> = RecordULE<2, Field<A, Field<B, End>>, F>;

/// The kind of records of three fields.
pub type Tuple3VarULE<A, B, C, F> = RecordULE<3, Field<A, Field<B, Field<C, End>>>, F>;

/// The kind of records of four fields.
pub type Tuple4VarULE<A, B, C, D, F> = RecordULE<4, Field<A, Field<B, Field<C, Field<D, End>>>>, F>;

/// The kind of records of five fields.
pub type Tuple5VarULE<A, B, C, D, E, F> = RecordULE<
    5,
    Field<A, Field<B, Field<C, Field<D, Field<E, End>>>>>,
    F,
>;

/// The kind of records of six fields.
pub type Tuple6VarULE<A, B, C, D, E, G, F> = RecordULE<
    6,
    Field<A, Field<B, Field<C, Field<D, Field<E, Field<G, End>>>>>>,
    F,
>;

impl<const LEN: usize, K: FieldKinds, F: VarZeroVecFormat> ZvKind for RecordULE<LEN, K, F> {
    const TY: TyName = name_of(LEN);

    ghost TY = { record_name LEN };

    ghost usable = { K.usable && (is_width LEN && (length K.faults == LEN)) };

    ghost fault = { record_fault F.W LEN K.faults };

    #[tactic(auto, using(zv_var::proofs::Lists::counts))]
    fn check(bytes: &[u8]) -> Result<(), UleError> {
        let record = VarRef::<'_, MultiFieldsULE<LEN, F>>::new(bytes)?;
        K::check_from(MultiFieldsULE::fields(record), 0)
    }
}

impl<const LEN: usize, K: FieldKinds, F: VarZeroVecFormat> VarULE for RecordULE<LEN, K, F> {}

impl<const LEN: usize, K: FieldOrders, F: VarZeroVecFormat> ZvOrd for RecordULE<LEN, K, F> {
    ghost cmp = { on (elements_after F.W LEN) (fields_order K.orders 0) };

    #[tactic(auto, using(zv_var::proofs::Lists::counts))]
    #[inline]
    fn compare<L: Ledger>(a: &[u8], b: &[u8], steps: &mut Steps<L>) -> Ordering {
        steps.tick();
        let left = VarRef::<'_, MultiFieldsULE<LEN, F>>::of_valid(a);
        let right = VarRef::<'_, MultiFieldsULE<LEN, F>>::of_valid(b);
        K::compare_from(
            MultiFieldsULE::fields(left),
            MultiFieldsULE::fields(right),
            0,
        )
    }

    ghost total = { on_total (elements_after F.W LEN) (K.total 0) };
}

impl<const LEN: usize, K: FieldKinds, F: VarZeroVecFormat> RecordULE<LEN, K, F> {
    /// The record without the kinds of its fields. It reads no byte.
    #[inline]
    pub fn as_fields<'b>(view: VarRef<'b, Self>) -> VarRef<'b, MultiFieldsULE<LEN, F>>
        ensures { element_of result ≡ element_of view.entry }
    {
        VarRef::of_valid(view.as_bytes())
    }
}

impl<const LEN: usize, A: ZvKind, R: FieldKinds, F: VarZeroVecFormat> RecordULE<
    LEN,
    Field<A, R>,
    F,
> {
    /// The first field.
    #[tactic(auto, using(zv_var::proofs::Lists::counts))]
    #[inline]
    pub fn a<'b>(view: VarRef<'b, Self>) -> VarRef<'b, A>
        ensures { element_of result ≡
            field_at (elements_after F.W LEN (element_of view.entry)) 0 }
    {
        field_view(MultiFieldsULE::fields(RecordULE::as_fields(view)), 0)
    }
}

impl<const LEN: usize, A: ZvKind, B: ZvKind, R: FieldKinds, F: VarZeroVecFormat> RecordULE<
    LEN,
    Field<A, Field<B, R>>,
    F,
> {
    /// The second field.
    #[tactic(auto, using(zv_var::proofs::Lists::counts))]
    #[inline]
    pub fn b<'b>(view: VarRef<'b, Self>) -> VarRef<'b, B>
        ensures { element_of result ≡
            field_at (elements_after F.W LEN (element_of view.entry)) 1 }
    {
        field_view(MultiFieldsULE::fields(RecordULE::as_fields(view)), 1)
    }
}

impl<
    const LEN: usize,
    A: ZvKind,
    B: ZvKind,
    C: ZvKind,
    R: FieldKinds,
    F: VarZeroVecFormat,
> RecordULE<LEN, Field<A, Field<B, Field<C, R>>>, F> {
    /// The third field.
    #[tactic(auto, using(zv_var::proofs::Lists::counts))]
    #[inline]
    pub fn c<'b>(view: VarRef<'b, Self>) -> VarRef<'b, C>
        ensures { element_of result ≡
            field_at (elements_after F.W LEN (element_of view.entry)) 2 }
    {
        field_view(MultiFieldsULE::fields(RecordULE::as_fields(view)), 2)
    }
}

impl<
    const LEN: usize,
    A: ZvKind,
    B: ZvKind,
    C: ZvKind,
    D: ZvKind,
    R: FieldKinds,
    F: VarZeroVecFormat,
> RecordULE<LEN, Field<A, Field<B, Field<C, Field<D, R>>>>, F> {
    /// The fourth field.
    #[tactic(auto, using(zv_var::proofs::Lists::counts))]
    #[inline]
    pub fn d<'b>(view: VarRef<'b, Self>) -> VarRef<'b, D>
        ensures { element_of result ≡
            field_at (elements_after F.W LEN (element_of view.entry)) 3 }
    {
        field_view(MultiFieldsULE::fields(RecordULE::as_fields(view)), 3)
    }
}

impl<
    const LEN: usize,
    A: ZvKind,
    B: ZvKind,
    C: ZvKind,
    D: ZvKind,
    E: ZvKind,
    R: FieldKinds,
    F: VarZeroVecFormat,
> RecordULE<LEN, Field<A, Field<B, Field<C, Field<D, Field<E, R>>>>>, F> {
    /// The fifth field.
    #[tactic(auto, using(zv_var::proofs::Lists::counts))]
    #[inline]
    pub fn e<'b>(view: VarRef<'b, Self>) -> VarRef<'b, E>
        ensures { element_of result ≡
            field_at (elements_after F.W LEN (element_of view.entry)) 4 }
    {
        field_view(MultiFieldsULE::fields(RecordULE::as_fields(view)), 4)
    }
}

impl<
    const LEN: usize,
    A: ZvKind,
    B: ZvKind,
    C: ZvKind,
    D: ZvKind,
    E: ZvKind,
    G: ZvKind,
    R: FieldKinds,
    F: VarZeroVecFormat,
> RecordULE<LEN, Field<A, Field<B, Field<C, Field<D, Field<E, Field<G, R>>>>>>, F> {
    /// The sixth field.
    #[tactic(auto, using(zv_var::proofs::Lists::counts))]
    #[inline]
    pub fn f<'b>(view: VarRef<'b, Self>) -> VarRef<'b, G>
        ensures { element_of result ≡
            field_at (elements_after F.W LEN (element_of view.entry)) 5 }
    {
        field_view(MultiFieldsULE::fields(RecordULE::as_fields(view)), 5)
    }
}
