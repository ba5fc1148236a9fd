// Values that are written as their chunks.
ghost use Rattle.std.specs.Prelude.{◌≡◌, ◌*◌, ◌++◌, length, flat_map, None, IsTrue, IfOk, OnOk};
ghost use Rattle.zv_ule.specs.Chunks.{chunks_fault, values_of};
ghost use Rattle.zv_ule.specs.Fixed.{is_width};

use std::alloc::Global;
use zv_ule::{AsULE, NoMemory, ULE, store};

/// Adds the chunk of a value to bytes.
#[inline]
fn push_chunk<U: ULE>(bytes: &mut Vec<u8>, value: U) -> Result<(), NoMemory>
    requires { IsTrue (is_width U.width) }
    ensures { OnOk result (bytes.new.items ≡ bytes.old.items ++ U.chunk value) }
{
    let start = bytes.len();
    bytes.resize(start.checked_add(U::size()).ok_or(NoMemory)?, 0)?;
    value.write_chunk(&mut bytes[start..]);
    Ok(())
}

/// The chunks of values that are given as they are stored, one after another.
pub fn joined<U: ULE>(alloc: Global, values: &[U]) -> Result<Vec<u8>, NoMemory>
    requires { IsTrue (is_width U.width) }
    ensures { IfOk result (λ bytes. bytes.items ≡ flat_map U.chunk values.now) }
{
    let len = values.len().checked_mul(U::size()).ok_or(NoMemory)?;
    let mut bytes = Vec::with_capacity(alloc, len)?;
    for value in values {
        push_chunk(&mut bytes, *value)?;
    }
    Ok(bytes)
}

/// The chunks of values, one after another.
pub fn stored<T: AsULE>(alloc: Global, values: &[T]) -> Result<Vec<u8>, NoMemory>
    requires { IsTrue T.usable }
    ensures { IfOk result (λ bytes. bytes.items
        ≡ flat_map (λ v. T.ULE.chunk (T.stored v)) values.now) }
{
    let len = values
        .len()
        .checked_mul(<T::ULE as ULE>::size())
        .ok_or(NoMemory)?;
    let mut bytes = Vec::with_capacity(alloc, len)?;
    for value in values {
        push_chunk(&mut bytes, value.to_unaligned())?;
    }
    Ok(bytes)
}

/// The chunks of values, one after another, are a list of just these values. The loop is empty once
/// `to_unaligned` is inlined, so a compiler that optimizes leaves nothing of the call.
#[inline]
pub fn all_stored<T: AsULE>(values: &[T])
    requires { IsTrue T.usable }
    ensures len { length (flat_map (λ v. T.ULE.chunk (T.stored v)) values.now)
        ≡ length values.now * T.ULE.width }
    ensures spells { chunks_fault T.ULE.TY T.ULE.width T.ULE.chunk_fault
        (flat_map (λ v. T.ULE.chunk (T.stored v)) values.now) ≡ None }
    ensures back { values_of T.ULE.width (λ b. T.loaded (T.ULE.value b))
        (flat_map (λ v. T.ULE.chunk (T.stored v)) values.now) ≡ values.now }
{
    let mut rest = values;
    while let [first, tail @ ..] = rest {
        let _ = first.to_unaligned();
        rest = tail;
    }
}

/// Writes the chunks of values, one after another, over the whole of `out`.
pub fn store_all<T: AsULE>(values: &[T], out: &mut [u8])
    requires usable { IsTrue T.usable }
    requires whole { length out.old ≡ length values.now * T.ULE.width }
    ensures { out.new ≡ flat_map (λ v. T.ULE.chunk (T.stored v)) values.now }
{
    let width = <T::ULE as ULE>::size();
    for (index, value) in values.iter().enumerate() {
        store::<T>(*value, &mut out[index * width..(index + 1) * width]);
    }
}
