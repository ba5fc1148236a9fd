// Records of byte strings: where their fields lie.
ghost use Rattle.std.specs.Prelude.{◌≡◌, ℕ, ◌+◌, ◌-◌, ◌*◌, ◌^◌, ◌<◌, ◌≤◌, List, ◌++◌, length, map};
ghost use Rattle.std.specs.Prelude.{None, Some, drop, flat_map, slice_set, sum, take, IsTrue};
ghost use Rattle.std.specs.List.{concat};
ghost use Rattle.std.specs.Result.{result_err};
ghost use Rattle.zv_multi.specs.Records.{encoded_len, field_at, offsets, offsets_from};
ghost use Rattle.zv_multi.specs.Records.{shape_fault};
ghost use Rattle.zv_ule.specs.Bytes.{le};
ghost use Rattle.zv_ule.specs.Fixed.{is_width};
ghost use Rattle.zv_ule.specs.Views.{element_of};
ghost use Rattle.zv_ule.specs.declared.error.TyName.TheVariants.{MultiFields};
ghost use Rattle.zv_var.specs.Format.{elements_after};
ghost use Rattle.zv_var.specs.Laws.{HasStarts};
ghost use Rattle.zv_var.specs.Serialize.{lengthless};
ghost use Rattle.zv_var.specs.Views.{lengthless_list};

use crate::any::AnyBytes;
use std::marker::PhantomData;
use zv_ule::{
    EncodeAsVarULE, TyName, UleError, VarRef, VarULE, VarZeroVecFormat, ZvKind, write_start,
};
use zv_var::VarZeroLengthlessSlice;

/// The kind of records of `LEN` fields of any bytes, of which there is one at least. Bytes that are
/// none are `ParseError { ty: Lengthless }`.
pub struct MultiFieldsULE<const LEN: usize, F: VarZeroVecFormat> {
    of: PhantomData<F>,
}

impl<const LEN: usize, F: VarZeroVecFormat> ZvKind for MultiFieldsULE<LEN, F> {
    const TY: TyName = TyName::MultiFields;

    ghost TY = { MultiFields };

    ghost usable = { is_width LEN };

    ghost fault = { shape_fault F.W LEN };

    fn check(bytes: &[u8]) -> Result<(), UleError> {
        VarZeroLengthlessSlice::<'_, AnyBytes, F>::parse_bytes(LEN as u32, bytes)?;
        Ok(())
    }
}

impl<const LEN: usize, F: VarZeroVecFormat> VarULE for MultiFieldsULE<LEN, F> {}

impl<const LEN: usize, F: VarZeroVecFormat> MultiFieldsULE<LEN, F> {
    /// The fields, as a list of byte strings. It reads no byte.
    #[inline]
    pub fn fields<'b>(view: VarRef<'b, Self>) -> VarZeroLengthlessSlice<'b, AnyBytes, F>
        ensures { lengthless_list result ≡ elements_after F.W LEN (element_of view.entry) }
    {
        VarZeroLengthlessSlice::of_valid(LEN as u32, view.as_bytes())
    }

    /// The bytes of a record, as they were given.
    #[inline]
    pub fn as_bytes<'b>(view: VarRef<'b, Self>) -> &'b [u8]
        ensures { result.now ≡ element_of view.entry }
    {
        view.as_bytes()
    }

    /// Checks a field by a kind.
    #[tactic(auto, using(zv_var::proofs::Lists::counts))]
    #[inline]
    pub fn validate_field<T: VarULE>(view: VarRef<'_, Self>, index: usize) -> Result<(), UleError>
        requires usable { IsTrue T.usable }
        requires place { index < LEN }
        ensures { result_err result ≡
            T.fault (field_at (elements_after F.W LEN (element_of view.entry)) index) }
    {
        check_field::<T, F>(MultiFieldsULE::fields(view), index)
    }

    /// A field of which a kind is known to take the bytes. It reads two starts, and checks nothing.
    #[tactic(auto, using(zv_var::proofs::Lists::counts))]
    #[inline]
    pub fn get_field<'b, T: VarULE>(view: VarRef<'b, Self>, index: usize) -> VarRef<'b, T>
        requires usable { IsTrue T.usable }
        requires place { index < LEN }
        requires spells { T.fault (field_at (elements_after F.W LEN (element_of view)) index)
            ≡ None }
        ensures { element_of result ≡
            field_at (elements_after F.W LEN (element_of view.entry)) index }
    {
        field_view::<T, F>(MultiFieldsULE::fields(view), index)
    }

    /// How many bytes fields of these lengths take with their starts, or `None` exactly where that
    /// reaches `F::MAX`.
    pub fn compute_encoded_len_for(lengths: [usize; LEN]) -> Option<usize>
        ensures { result ≡ encoded_len F.W lengths.entry }
    {
        let mut len = F::W.saturating_mul(LEN.saturating_sub(1));
        for length in &lengths {
            len = len.saturating_add(*length);
        }
        if len < F::MAX { Some(len) } else { None }
    }

    /// Writes where fields of these lengths start. Their own bytes stay as they are, to be written
    /// by [`set_field_at`](Self::set_field_at).
    pub fn new_from_lengths_partially_initialized(lengths: [usize; LEN], output: &mut [u8])
        requires { encoded_len F.W lengths ≡ Some (length output.old) }
        ensures starts { output.new ≡ flat_map (le F.W) (offsets lengths.entry)
            ++ drop (F.W * (LEN - 1)) output.old }
        ensures lengths { map length (elements_after F.W LEN output.new) ≡ lengths.entry }
        ensures shape { shape_fault F.W LEN output.new ≡ None }
    {
        write_starts::<F>(&lengths, output);
    }

    /// Writes a value over a field of as many bytes.
    pub fn set_field_at<T: VarULE, A: EncodeAsVarULE<T>>(idx: usize, value: &A, output: &mut [u8])
        requires usable { IsTrue T.usable }
        requires count { IsTrue (is_width LEN) }
        requires place { idx < LEN }
        requires shape { shape_fault F.W LEN output.old ≡ None }
        requires fits { IsTrue (A.fits value.now) }
        requires whole { length (A.spelling value.now)
            ≡ length (field_at (elements_after F.W LEN output.old) idx) }
        ensures fields { elements_after F.W LEN output.new
            ≡ slice_set (elements_after F.W LEN output.old) idx (A.spelling value.now) }
        ensures starts { take (F.W * (LEN - 1)) output.new ≡ take (F.W * (LEN - 1)) output.old }
        ensures shape { shape_fault F.W LEN output.new ≡ None }
        ensures spells { T.fault (A.spelling value.now) ≡ None }
    {
        let (start, end) = span::<LEN, F>(idx, output);
        value.encode_var_ule_write(&mut output[start..end]);
    }
}

/// Where a field starts and ends in a record.
#[tactic(auto, using(zv_var::proofs::Lists::counts))]
#[inline]
fn span<const LEN: usize, F: VarZeroVecFormat>(idx: usize, bytes: &[u8]) -> (usize, usize)
    requires count { IsTrue (is_width LEN) }
    requires place { idx < LEN }
    requires shape { shape_fault F.W LEN bytes.now ≡ None }
    ensures start { result.0 ≡ F.W * (LEN - 1)
        + length (concat (take idx (elements_after F.W LEN bytes.now))) }
    ensures end { result.1 ≡ result.0 + length (field_at (elements_after F.W LEN bytes.now) idx) }
    ensures within { result.1 ≤ length bytes.now }
    ensures written { bytes.now ≡ lengthless F.W (elements_after F.W LEN bytes.now) }
    ensures numbered { HasStarts F.W (elements_after F.W LEN bytes.now) }
{
    let fields = VarZeroLengthlessSlice::<'_, AnyBytes, F>::of_valid(LEN as u32, bytes);
    let start = F::W * (LEN - 1) + fields.offset(idx);
    (start, start + field_bytes(fields, idx).len())
}

/// Writes where fields of these lengths start before what else stands in a record.
fn write_starts<F: VarZeroVecFormat>(lengths: &[usize], output: &mut [u8])
    requires { encoded_len F.W lengths.now ≡ Some (length output.old) }
    ensures { output.new ≡ flat_map (le F.W) (offsets lengths.now)
        ++ drop (F.W * (length lengths.now - 1)) output.old }
{
    if let [first, others @ ..] = lengths {
        let (starts, _) = output.split_at_mut(F::W * others.len());
        write_starts_from::<F>(*first, others, starts);
    }
}

/// Writes where fields of these lengths start, the first of them at a place, over the whole of
/// `out`.
fn write_starts_from<F: VarZeroVecFormat>(start: usize, lengths: &[usize], out: &mut [u8])
    requires small { start + sum lengths.now < 256 ^ F.W }
    requires whole { length out.old ≡ F.W * length lengths.now }
    ensures { out.new ≡ flat_map (le F.W) (offsets_from start lengths.now) }
{
    if let [first, others @ ..] = lengths {
        let (field, rest) = out.split_at_mut(F::W);
        write_start::<F>(start, field);
        write_starts_from::<F>(start + *first, others, rest);
    }
}

/// The bytes of a field.
#[inline]
pub(crate) fn field_bytes<'b, F: VarZeroVecFormat>(
    fields: VarZeroLengthlessSlice<'b, AnyBytes, F>,
    index: usize,
) -> &'b [u8]
    requires { index < length (lengthless_list fields) }
    ensures { result.now ≡ field_at (lengthless_list fields.entry) index }
{
    match fields.get(index) {
        Some(field) => field.as_bytes(),
        None => unreachable!(),
    }
}

/// Checks a field by its kind.
#[inline]
pub(crate) fn check_field<T: ZvKind, F: VarZeroVecFormat>(
    fields: VarZeroLengthlessSlice<'_, AnyBytes, F>,
    index: usize,
) -> Result<(), UleError>
    requires usable { IsTrue T.usable }
    requires place { index < length (lengthless_list fields) }
    ensures { result_err result ≡ T.fault (field_at (lengthless_list fields.entry) index) }
{
    T::check(field_bytes(fields, index))
}

/// A field of which its kind is known to take the bytes.
#[inline]
pub(crate) fn field_view<'b, T: ZvKind, F: VarZeroVecFormat>(
    fields: VarZeroLengthlessSlice<'b, AnyBytes, F>,
    index: usize,
) -> VarRef<'b, T>
    requires usable { IsTrue T.usable }
    requires place { index < length (lengthless_list fields) }
    requires spells { T.fault (field_at (lengthless_list fields) index) ≡ None }
    ensures { element_of result ≡ field_at (lengthless_list fields.entry) index }
{
    VarRef::of_valid(field_bytes(fields, index))
}
