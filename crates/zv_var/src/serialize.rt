// Values that are written as a list in a format.
ghost use Rattle.std.specs.Prelude.{◌≡◌, ◌≢◌, ℕ, ◌+◌, ◌-◌, ◌*◌, ◌^◌, ◌<◌, ◌≤◌, List, [], length};
ghost use Rattle.std.specs.Prelude.{map, min, None, Some, true, IsTrue, IfOk, IfSome, IfNone};
ghost use Rattle.std.specs.Prelude.{OnErr};
ghost use Rattle.std.specs.Prelude.{is_some, OnOk};
ghost use Rattle.std.specs.List.{concat, flat_map, list_all};
ghost use Rattle.std.specs.Option.{option_map};
ghost use Rattle.zv_ule.specs.Bytes.{le};
ghost use Rattle.zv_var.specs.Format.{codable, elements_after, enc, fault_after, list_fault};
ghost use Rattle.zv_var.specs.Format.{starts};
ghost use Rattle.zv_var.specs.Laws.{AreValid};
ghost use Rattle.zv_var.specs.Serialize.{lengthless, lengthless_len, serialized, serialized_len};

use std::alloc::Global;
use zv_ule::{EncodeAsVarULE, NoMemory, VarZeroVecFormat, ZvKind, write_count, write_start};

#[tactic(auto, using(crate::proofs::Serialized::measured))]
/// How many bytes the starts and the spellings of values have, as a list without its count. `None`
/// comes exactly where that reaches `F::MAX` or a value has no spelling.
pub fn compute_serializable_len_without_length<
    T: ZvKind,
    A: EncodeAsVarULE<T>,
    F: VarZeroVecFormat,
>(elements: &[A]) -> Option<u32>
    requires { IsTrue T.usable }
    ensures len { result ≡ lengthless_len A.fits A.spelling F.W elements.now }
    ensures valid { IfSome result (λ _. AreValid T.fault (map A.spelling elements.now)) }
    ensures codable { IfSome result (λ _. codable F.W (map A.spelling elements.now) ≡ true) }
{
    let starts = F::W.saturating_mul(elements.len().saturating_sub(1));
    let len = spellings_len::<T, A>(elements)?.saturating_add(starts);
    if len < F::MAX { Some(len as u32) } else { None }
}

/// How many bytes the spellings of values have, if each value has one. More than a usize holds is
/// the most that it holds.
fn spellings_len<T: ZvKind, A: EncodeAsVarULE<T>>(elements: &[A]) -> Option<usize>
    requires { IsTrue T.usable }
    ensures fit { IfSome result (λ _. list_all A.fits elements.now ≡ true) }
    ensures len { IfSome result (λ n.
        n ≡ min (length (flat_map A.spelling elements.now)) (2 ^ 64 - 1)) }
    ensures valid { IfSome result (λ _. AreValid T.fault (map A.spelling elements.now)) }
    ensures unfit { IfNone result (list_all A.fits elements.now ≡ true → ⊥) }
{
    let mut len: usize = 0;
    for element in elements {
        if !element.encode_var_ule_fits() {
            return None;
        }
        len = len.saturating_add(element.encode_var_ule_len());
    }
    Some(len)
}

/// How many bytes values have as a list in a format. `None` comes exactly where
/// [`compute_serializable_len_without_length`] gives it, and past 2^32 - 1.
pub fn compute_serializable_len<T: ZvKind, A: EncodeAsVarULE<T>, F: VarZeroVecFormat>(
    elements: &[A],
) -> Option<u32>
    requires { IsTrue T.usable }
    ensures len { result ≡ serialized_len A.fits A.spelling F.W elements.now }
    ensures valid { IfSome result (λ _. AreValid T.fault (map A.spelling elements.now)) }
    ensures codable { IfSome result (λ _. codable F.W (map A.spelling elements.now) ≡ true) }
    ensures spells { IfSome result (λ _. list_fault F.W T.fault
        (serialized F.W (map A.spelling elements.now)) ≡ None) }
{
    compute_serializable_len_without_length::<T, A, F>(elements)?.checked_add(F::W as u32)
}

#[tactic(auto, using(crate::proofs::Serialized::within))]
/// Writes the spellings of values, one after another, over the whole of `out`.
fn write_spellings<T: ZvKind, A: EncodeAsVarULE<T>>(elements: &[A], out: &mut [u8])
    requires usable { IsTrue T.usable }
    requires fit { list_all A.fits elements.now ≡ true }
    requires whole { length out.old ≡ length (flat_map A.spelling elements.now) }
    ensures written { out.new ≡ flat_map A.spelling elements.now }
    ensures valid { AreValid T.fault (map A.spelling elements.now) }
{
    let mut at = 0;
    for element in elements {
        let end = at + element.encode_var_ule_len();
        element.encode_var_ule_write(&mut out[at..end]);
        at = end;
    }
}

/// Writes where the spellings of values start, but the first, over the whole of `out`.
fn write_starts<T: ZvKind, A: EncodeAsVarULE<T>, F: VarZeroVecFormat>(
    elements: &[A],
    out: &mut [u8],
)
    requires usable { IsTrue T.usable }
    requires fit { list_all A.fits elements.now ≡ true }
    requires small { length (flat_map A.spelling elements.now) < 256 ^ F.W }
    requires whole { length out.old ≡ F.W * (length elements.now - 1) }
    ensures { out.new ≡ flat_map (le F.W) (starts (map A.spelling elements.now)) }
{
    let width = F::W;
    let mut at = 0;
    let mut start = 0;
    for index in 0..elements.len().saturating_sub(1) {
        start += elements[index].encode_var_ule_len();
        write_start::<F>(start, &mut out[at..at + width]);
        at += width;
    }
}

#[tactic(auto, using(crate::proofs::Serialized::length_spelled, crate::proofs::Serialized::joined))]
/// Writes values as a list without its count, over the whole of `output`.
pub fn write_serializable_bytes_without_length<
    T: ZvKind,
    A: EncodeAsVarULE<T>,
    F: VarZeroVecFormat,
>(elements: &[A], output: &mut [u8])
    requires usable { IsTrue T.usable }
    requires len { lengthless_len A.fits A.spelling F.W elements.now ≡ Some (length output.old) }
    ensures written { output.new ≡ lengthless F.W (map A.spelling elements.now) }
    ensures valid { AreValid T.fault (map A.spelling elements.now) }
    ensures read { elements_after F.W (length elements.now) output.new
        ≡ map A.spelling elements.now }
    ensures sound { fault_after F.W T.fault (length elements.now) output.new ≡ None }
{
    let at = F::W * elements.len().saturating_sub(1);
    let (starts, spellings) = output.split_at_mut(at);
    write_starts::<T, A, F>(elements, starts);
    write_spellings::<T, A>(elements, spellings);
}

/// Writes values as a list over the whole of `output`. The list of no values is a count of 0.
pub fn write_serializable_bytes<T: ZvKind, A: EncodeAsVarULE<T>, F: VarZeroVecFormat>(
    elements: &[A],
    output: &mut [u8],
)
    requires usable { IsTrue T.usable }
    requires len { serialized_len A.fits A.spelling F.W elements.now ≡ Some (length output.old) }
    ensures written { output.new ≡ serialized F.W (map A.spelling elements.now) }
    ensures valid { AreValid T.fault (map A.spelling elements.now) }
    ensures spells { list_fault F.W T.fault
        (serialized F.W (map A.spelling elements.now)) ≡ None }
{
    let (count, rest) = output.split_at_mut(F::W);
    write_count::<F>(elements.len(), count);
    write_serializable_bytes_without_length::<T, A, F>(elements, rest);
}

/// The bytes of values as a list, of which there is one at least. `None` comes exactly where
/// [`compute_serializable_len`] gives it.
pub fn get_serializable_bytes_non_empty<T: ZvKind, A: EncodeAsVarULE<T>, F: VarZeroVecFormat>(
    alloc: Global,
    elements: &[A],
) -> Result<Option<Vec<u8>>, NoMemory>
    requires usable { IsTrue T.usable }
    requires some { 0 < length elements.now }
    ensures len { IfOk result (λ o. option_map (λ v. length v.items) o ≡
        serialized_len A.fits A.spelling F.W elements.now) }
    ensures bytes { IfOk result (λ o. IfSome o (λ v. v.items ≡
        enc F.W (map A.spelling elements.now))) }
    ensures valid { IfOk result (λ o. IfSome o (λ _.
        AreValid T.fault (map A.spelling elements.now))) }
    ensures codable { IfOk result (λ o. IfSome o (λ _.
        codable F.W (map A.spelling elements.now) ≡ true)) }
    ensures err { OnErr result
        (IsTrue (is_some (serialized_len A.fits A.spelling F.W elements.now))) }
{
    let Some(len) = compute_serializable_len::<T, A, F>(elements) else {
        return Ok(None);
    };
    let mut bytes = Vec::new(alloc);
    bytes.resize(len as usize, 0)?;
    write_serializable_bytes::<T, A, F>(elements, &mut bytes);
    Ok(Some(bytes))
}
