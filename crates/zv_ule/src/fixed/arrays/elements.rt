// Several values at once, for arrays.
ghost use Rattle.std.specs.Prelude.{◌≡◌, ℕ, ◌*◌, ◌<◌, List, length, None, IsTrue, map};
ghost use Rattle.std.specs.List.{AllByRecursion};
ghost use Rattle.zv_ule.specs.Chunks.{chunks_of, first_fault, values_of};
ghost use Rattle.zv_ule.specs.Fixed.{is_width};

use crate::chunks::chunk_at;
use crate::element::{AsULE, ULE};

/// Whether every chunk of every list is a value's, so that an array need not be looked at.
#[inline]
#[tactic(auto, using(crate::proofs::ChunkFaults::plain_fault))]
pub fn are_plain<U: ULE>() -> bool
    ensures { IsTrue result → (bytes : List ℕ) → first_fault U.chunk_fault
        (chunks_of U.width bytes) ≡ None }
{
    U::is_plain()
}

/// Reads as many values as there are places.
#[inline]
#[tactic(auto, using(crate::proofs::Lists::array_pieces))]
pub fn read_all<U: ULE>(bytes: &[u8], out: &mut [U])
    requires usable { IsTrue (is_width U.width) }
    requires whole { length bytes.now ≡ length out.old * U.width }
    requires good { first_fault U.chunk_fault (chunks_of U.width bytes.now) ≡ None }
    ensures read { out.new ≡ values_of U.width U.value bytes.now }
    ensures valid { AllByRecursion U.is_value out.new }
{
    for index in 0..out.len() {
        out[index] = U::read_chunk(chunk_at::<U>(bytes, index));
    }
}

/// What each value is stored as.
#[inline]
pub fn store_all<T: AsULE>(values: &[T], out: &mut [T::ULE])
    requires { length out.old ≡ length values.now }
    ensures stored { out.new ≡ map T.stored values.now }
    ensures valid { AllByRecursion T.is_value values.now }
{
    for index in 0..values.len() {
        out[index] = values[index].to_unaligned();
    }
}

/// The value of each that is stored.
#[inline]
pub fn load_all<T: AsULE>(stored: &[T::ULE], out: &mut [T])
    requires { length out.old ≡ length stored.now }
    ensures loaded { out.new ≡ map T.loaded stored.now }
    ensures valid { AllByRecursion T.is_value out.new }
{
    for index in 0..stored.len() {
        stored[index].known();
        out[index] = T::from_unaligned(stored[index]);
    }
}
