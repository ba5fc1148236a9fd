// The laws of elements, each the contract of a function that does nothing.
ghost use Rattle.std.specs.Prelude.{◌≡◌, ℕ, ◌%◌, ◌<◌, ◌↔◌, true, List, length, Some, None};
ghost use Rattle.std.specs.Prelude.{Err, IsTrue};
ghost use Rattle.std.specs.Cmp.{IsTotalOrder};
ghost use Rattle.std.specs.Ordering.{on};
ghost use Rattle.std.specs.declared.cmp.Ordering.TheVariants.{Equal};
ghost use Rattle.zv_ule.specs.Bytes.{IsBytes};
ghost use Rattle.zv_ule.specs.Chunks.{chunks_fault, chunks_of, values_of, IsFirstFault};
ghost use Rattle.zv_ule.specs.Examples.{FaceIsThreeBytes, InnerError, LastIsTaken, MinusFive};
ghost use Rattle.zv_ule.specs.Examples.{MinusTwo, NicheIsTaken, PastLastIsRefused, RestError};
ghost use Rattle.zv_ule.specs.Examples.{SixByFour, SurrogateIsRefused, TagError, TurnedPairs};
ghost use Rattle.zv_ule.specs.Fixed.{is_width, IsChunk, IsListOf};
ghost use Rattle.zv_ule.specs.Kinds.{EqualIsSame};
ghost use Rattle.zv_ule.specs.Search.{ascends, compared, Found, IsGap, Rises, RisesByPlace};
ghost use Rattle.zv_ule.specs.SearchExamples.{FourStepsInFive, IsGapBeforeTwo, IsGapOfTwo};
ghost use Rattle.zv_ule.specs.SearchExamples.{NoStepInNone, OneStepInNone, ThreeStepsInFive};
ghost use Rattle.zv_ule.specs.declared.error.UleError.{UleError};
ghost use Rattle.zv_ule.specs.declared.error.UleError.TheVariants.{InvalidLength};

mod composed_orders;
mod fixed_orders;

use crate::element::{AsULE, ULE};
use crate::kind::{ZvKind, ZvOrd};
use crate::kinds::slices::SliceULE;
use crate::kinds::text::StrULE;
pub use composed_orders::{
    exact_order_of_five, exact_order_of_four, exact_order_of_niched_options,
    exact_order_of_options, exact_order_of_six, exact_order_of_slices, exact_order_of_three,
    exact_order_of_two, exact_orders_of_arrays,
};
pub use fixed_orders::{exact_other_orders, exact_signed_orders, exact_unsigned_orders};
use std::hash::Hash;

/// Lists of values and the byte strings that they are stored as:
///
/// - `exact`: a byte string has no fault exactly where it is the joined chunks of some values;
/// - `only`: these values are the ones that are read from it;
/// - `chunk`, `back`: what a value is stored as is a good chunk, which is read as the value;
/// - `one_chunk`: no other good chunk is read as the value;
/// - `uneven`: where the length is no multiple of the width, the fault is `InvalidLength` with it;
/// - `first`: else the fault is that of the first chunk that has one.
pub fn fixed_lists<T: AsULE>()
    requires { IsTrue T.usable }
    ensures exact { (bytes : List ℕ) → IsBytes bytes →
        (chunks_fault T.ULE.TY T.ULE.width T.ULE.chunk_fault bytes ≡ None)
        ↔ ((vs : List T) × IsListOf T.is_value (λ v. T.ULE.chunk (T.stored v)) bytes vs) }
    ensures only { (bytes : List ℕ) (vs : List T) →
        IsListOf T.is_value (λ v. T.ULE.chunk (T.stored v)) bytes vs →
        values_of T.ULE.width (λ b. T.loaded (T.ULE.value b)) bytes ≡ vs }
    ensures chunk { (v : T) → T.is_value v →
        IsChunk T.ULE.width T.ULE.chunk_fault (T.ULE.chunk (T.stored v)) }
    ensures back { (v : T) → T.is_value v → T.loaded (T.ULE.value (T.ULE.chunk (T.stored v))) ≡ v }
    ensures one_chunk { (v : T) (b : List ℕ) → IsChunk T.ULE.width T.ULE.chunk_fault b →
        T.loaded (T.ULE.value b) ≡ v → b ≡ T.ULE.chunk (T.stored v) }
    ensures uneven { (bytes : List ℕ) → 0 < length bytes % T.ULE.width →
        chunks_fault T.ULE.TY T.ULE.width T.ULE.chunk_fault bytes
        ≡ Some (InvalidLength T.ULE.TY (length bytes)) }
    ensures first { (bytes : List ℕ) (e : UleError) → length bytes % T.ULE.width ≡ 0 →
        chunks_fault T.ULE.TY T.ULE.width T.ULE.chunk_fault bytes ≡ Some e →
        IsFirstFault T.ULE.chunk_fault (chunks_of T.ULE.width bytes) e }
{}

/// What `fixed_lists` says, of the types that values are stored as.
pub fn stored_lists<U: ULE>()
    requires { IsTrue (is_width U.width) }
    ensures exact { (bytes : List ℕ) → IsBytes bytes →
        (chunks_fault U.TY U.width U.chunk_fault bytes ≡ None)
        ↔ ((us : List U) × IsListOf U.is_value U.chunk bytes us) }
    ensures only { (bytes : List ℕ) (us : List U) → IsListOf U.is_value U.chunk bytes us →
        values_of U.width U.value bytes ≡ us }
    ensures chunk { (u : U) → U.is_value u → IsChunk U.width U.chunk_fault (U.chunk u) }
    ensures back { (u : U) → U.is_value u → U.value (U.chunk u) ≡ u }
    ensures one_chunk { (u : U) (b : List ℕ) → IsChunk U.width U.chunk_fault b →
        U.value b ≡ u → b ≡ U.chunk u }
    ensures uneven { (bytes : List ℕ) → 0 < length bytes % U.width →
        chunks_fault U.TY U.width U.chunk_fault bytes
        ≡ Some (InvalidLength U.TY (length bytes)) }
    ensures first { (bytes : List ℕ) (e : UleError) → length bytes % U.width ≡ 0 →
        chunks_fault U.TY U.width U.chunk_fault bytes ≡ Some e →
        IsFirstFault U.chunk_fault (chunks_of U.width bytes) e }
{}

/// The order of every kind is total.
pub fn total_order<K: ZvOrd>()
    ensures { IsTotalOrder K.cmp }
{}

/// Lists that ascend, by the order of their kind:
///
/// - `places`: each element is below every later one;
/// - `rises`: along the list, the elements compare with a key as less, then equal, then greater;
/// - `gap`: so the place that a search gives as `Err` parts the smaller from the greater.
pub fn ascending_lists_rise<K: ZvOrd>()
    ensures places { (xs : List (List ℕ)) → ascends K.cmp xs ≡ true → RisesByPlace K.cmp xs }
    ensures rises { (xs : List (List ℕ)) (key : List ℕ) → ascends K.cmp xs ≡ true →
        Rises (compared K.cmp xs key) }
    ensures gap { (xs : List (List ℕ)) (key : List ℕ) (i : ℕ) → ascends K.cmp xs ≡ true →
        Found (compared K.cmp xs key) (Err i) → IsGap (compared K.cmp xs key) i }
{}

/// Values that are equal make the same writes to a hasher, and so have equal hashes.
pub fn equal_hashes<T: Hash>()
    ensures { (v w : T) → IsTrue (T.eq v w) → T.hash_input v ≡ T.hash_input w }
{}

/// Stored values that compare Equal are the same bytes, where the type's own order has only equal
/// values Equal.
pub fn exact_order<T: AsULE + Ord>()
    requires { (v w : T) → T.is_value v → T.is_value w → T.cmp v w ≡ Equal → v ≡ w }
    ensures { EqualIsSame T.fault (on (λ b. T.loaded (T.ULE.value b)) T.cmp) }
{}

/// Numbers, texts and slices of bytes that compare Equal are the same bytes.
pub fn exact_orders()
    ensures bytes { EqualIsSame ⟦<u8 as ZvKind>⟧.fault ⟦<u8 as ZvOrd>⟧.cmp }
    ensures numbers { EqualIsSame ⟦<u32 as ZvKind>⟧.fault ⟦<u32 as ZvOrd>⟧.cmp }
    ensures texts { EqualIsSame ⟦<StrULE as ZvKind>⟧.fault ⟦<StrULE as ZvOrd>⟧.cmp }
    ensures slices { EqualIsSame ⟦<SliceULE<u8> as ZvKind>⟧.fault ⟦<SliceULE<u8> as ZvOrd>⟧.cmp }
{
    exact_order::<u8>();
    exact_order::<u32>();
}

/// Elements worked out by hand.
pub fn elements_by_hand()
    ensures face { FaceIsThreeBytes }
    ensures surrogate { SurrogateIsRefused }
    ensures last { LastIsTaken }
    ensures past_last { PastLastIsRefused }
    ensures minus_five { MinusFive }
    ensures minus_two { MinusTwo }
    ensures inner { InnerError }
    ensures tag { TagError }
    ensures rest { RestError }
    ensures niche { NicheIsTaken }
    ensures six_by_four { SixByFour }
    ensures turned { TurnedPairs }
{}

/// Searches worked out by hand.
pub fn searches_by_hand()
    ensures three { ThreeStepsInFive }
    ensures not_four { ¬ FourStepsInFive }
    ensures none { NoStepInNone }
    ensures not_one { ¬ OneStepInNone }
    ensures between { IsGapOfTwo 1 }
    ensures not_before { ¬ IsGapOfTwo 0 }
    ensures not_after { ¬ IsGapOfTwo 2 }
    ensures first { IsGapBeforeTwo 0 }
    ensures not_second { ¬ IsGapBeforeTwo 1 }
{}
