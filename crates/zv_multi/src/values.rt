// Values that are written as the fields of a record: one value, and the values behind it.
ghost use Rattle.std.specs.Prelude.{◌≡◌, ℕ, ◌^◌, ◌<◌, Bool, true, List, [], ◌∷◌, ◌++◌};
ghost use Rattle.std.specs.Prelude.{length, map, None, is_some, IsTrue, IfSome};
ghost use Rattle.std.specs.List.{concat, list_all};
ghost use Rattle.zv_multi.specs.Records.{fields_fault, record_len};
ghost use Rattle.zv_var.specs.Serialize.{lengthless};

use crate::fields::MultiFieldsULE;
use crate::kinds::{End, Field, FieldKinds};
use crate::record::RecordULE;
use zv_ule::{EncodeAsVarULE, VarZeroVecFormat, ZvKind};

/// Values that spell the fields of a record, one after another.
pub(crate) trait FieldValues<K: FieldKinds> {
    /// Whether each has a spelling.
    ghost fits: { Self → List Bool };

    /// The spellings.
    ghost spellings: { Self → List (List ℕ) };

    /// Whether each value has a spelling.
    fn all_fit(&self) -> bool
        requires { IsTrue K.usable }
        ensures { result ≡ list_all (λ b. b) (fits self.now) };

    /// Writes how long the spellings are over the whole of `lengths`.
    fn measure(&self, lengths: &mut [usize])
        requires usable { IsTrue K.usable }
        requires fit { IsTrue (list_all (λ b. b) (fits self.now)) }
        requires whole { length lengths.old ≡ length K.faults }
        ensures measured { lengths.new ≡ map length (spellings self.now) }
        ensures spells { fields_fault K.faults 0 (spellings self.now) ≡ None };

    /// Writes the spellings, one after another, over the whole of `out`.
    fn write(&self, out: &mut [u8])
        requires usable { IsTrue K.usable }
        requires fit { IsTrue (list_all (λ b. b) (fits self.now)) }
        requires whole { length out.old ≡ length (concat (spellings self.now)) }
        ensures written { out.new ≡ concat (spellings self.now) };
}

impl FieldValues<End> for () {
    ghost fits = { λ _. [] };

    ghost spellings = { λ _. [] };

    #[inline]
    fn all_fit(&self) -> bool {
        true
    }

    #[inline]
    fn measure(&self, _lengths: &mut [usize]) {}

    #[inline]
    fn write(&self, _out: &mut [u8]) {}
}

impl<A: ZvKind, R: FieldKinds, X: EncodeAsVarULE<A>, V: FieldValues<R>> FieldValues<Field<A, R>>
    for (X, V) {
    ghost fits = { λ v. X.fits v.0 ∷ V.fits v.1 };

    ghost spellings = { λ v. X.spelling v.0 ∷ V.spellings v.1 };

    #[inline]
    fn all_fit(&self) -> bool {
        self.0.encode_var_ule_fits() && self.1.all_fit()
    }

    #[tactic(auto, using(crate::proofs::Faults::behind_first))]
    #[inline]
    fn measure(&self, lengths: &mut [usize]) {
        let (first, others) = lengths.split_at_mut(1);
        first[0] = self.0.encode_var_ule_len();
        self.1.measure(others);
    }

    #[inline]
    fn write(&self, out: &mut [u8]) {
        let (first, others) = out.split_at_mut(self.0.encode_var_ule_len());
        self.0.encode_var_ule_write(first);
        self.1.write(others);
    }
}

/// How long the spellings of values are.
fn lengths_of<const LEN: usize, K: FieldKinds, V: FieldValues<K>, F: VarZeroVecFormat>(
    values: &V,
) -> [usize; LEN]
    requires usable { IsTrue ⟦<RecordULE<LEN, K, F> as ZvKind>⟧.usable }
    requires fit { IsTrue (list_all (λ b. b) (V.fits values.now)) }
    ensures lengths { result ≡ map length (V.spellings values.now) }
    ensures spells { IsTrue (is_some (record_len F.W (V.fits values.now) (V.spellings values.now)))
        → ⟦<RecordULE<LEN, K, F> as ZvKind>⟧.fault
        (lengthless F.W (V.spellings values.now)) ≡ None }
{
    let mut lengths = [0; LEN];
    values.measure(&mut lengths);
    lengths
}

/// How many bytes values take as a record, or `None` where one has no spelling or the record is too
/// long.
pub(crate) fn record_len<const LEN: usize, K: FieldKinds, V: FieldValues<K>, F: VarZeroVecFormat>(
    values: &V,
) -> Option<usize>
    requires usable { IsTrue ⟦<RecordULE<LEN, K, F> as ZvKind>⟧.usable }
    ensures len { result ≡ record_len F.W (V.fits values.now) (V.spellings values.now) }
    ensures spells { IfSome result (λ _. ⟦<RecordULE<LEN, K, F> as ZvKind>⟧.fault
        (lengthless F.W (V.spellings values.now)) ≡ None) }
{
    if !values.all_fit() {
        return None;
    }
    let lengths = lengths_of::<LEN, K, V, F>(values);
    MultiFieldsULE::<LEN, F>::compute_encoded_len_for(lengths)
}

/// How many bytes values that fit take as a record.
#[tactic(auto, using(crate::proofs::Written::fitting))]
pub(crate) fn fitting_len<const LEN: usize, K: FieldKinds, V: FieldValues<K>, F: VarZeroVecFormat>(
    values: &V,
) -> usize
    requires usable { IsTrue ⟦<RecordULE<LEN, K, F> as ZvKind>⟧.usable }
    requires fit { IsTrue (is_some (record_len F.W (V.fits values.now) (V.spellings values.now))) }
    ensures len { result ≡ length (lengthless F.W (V.spellings values.now)) }
    ensures spells { ⟦<RecordULE<LEN, K, F> as ZvKind>⟧.fault
        (lengthless F.W (V.spellings values.now)) ≡ None }
{
    match record_len::<LEN, K, V, F>(values) {
        Some(len) => len,
        None => unreachable!(),
    }
}

/// Writes values that fit as a record, over the whole of `out`.
#[tactic(auto, using(crate::proofs::Written::fitting))]
pub(crate) fn write_record<const LEN: usize, K: FieldKinds, V: FieldValues<K>, F: VarZeroVecFormat>(
    values: &V,
    out: &mut [u8],
)
    requires usable { IsTrue ⟦<RecordULE<LEN, K, F> as ZvKind>⟧.usable }
    requires fit { IsTrue (is_some (record_len F.W (V.fits values.now) (V.spellings values.now))) }
    requires whole { length out.old ≡ length (lengthless F.W (V.spellings values.now)) }
    ensures written { out.new ≡ lengthless F.W (V.spellings values.now) }
    ensures spells { ⟦<RecordULE<LEN, K, F> as ZvKind>⟧.fault
        (lengthless F.W (V.spellings values.now)) ≡ None }
{
    let lengths = lengths_of::<LEN, K, V, F>(values);
    MultiFieldsULE::<LEN, F>::new_from_lengths_partially_initialized(lengths, out);
    let (_, spellings) = out.split_at_mut(F::W * (LEN - 1));
    values.write(spellings);
}
