// The container of each kind.

use crate::vecs::ZeroMapKV;
use std::num::{NonZeroI8, NonZeroU8};
use zv_fixed::slice::ZeroSliceULE;
use zv_fixed::vector::ZeroVec;
use zv_multi::{FieldKinds, MultiFieldsULE, OptionVarULE, RecordULE, VarTupleULE};
use zv_owned::vector::VarZeroVec;
use zv_ule::{
    AsULE, Index16, NicheBytes, NichedOption, SliceULE, StrULE, ULE, VarULE, VarZeroVecFormat,
};

impl<'a> ZeroMapKV<'a> for u8 {
    type Container = ZeroVec<'a, u8>;
}

impl<'a> ZeroMapKV<'a> for u16 {
    type Container = ZeroVec<'a, u16>;
}

impl<'a> ZeroMapKV<'a> for u32 {
    type Container = ZeroVec<'a, u32>;
}

impl<'a> ZeroMapKV<'a> for u64 {
    type Container = ZeroVec<'a, u64>;
}

impl<'a> ZeroMapKV<'a> for u128 {
    type Container = ZeroVec<'a, u128>;
}

impl<'a> ZeroMapKV<'a> for i8 {
    type Container = ZeroVec<'a, i8>;
}

impl<'a> ZeroMapKV<'a> for i16 {
    type Container = ZeroVec<'a, i16>;
}

impl<'a> ZeroMapKV<'a> for i32 {
    type Container = ZeroVec<'a, i32>;
}

impl<'a> ZeroMapKV<'a> for i64 {
    type Container = ZeroVec<'a, i64>;
}

impl<'a> ZeroMapKV<'a> for i128 {
    type Container = ZeroVec<'a, i128>;
}

impl<'a> ZeroMapKV<'a> for char {
    type Container = ZeroVec<'a, char>;
}

impl<'a> ZeroMapKV<'a> for NonZeroU8 {
    type Container = ZeroVec<'a, NonZeroU8>;
}

impl<'a> ZeroMapKV<'a> for NonZeroI8 {
    type Container = ZeroVec<'a, NonZeroI8>;
}

impl<'a, T: AsULE> ZeroMapKV<'a> for Option<T> {
    type Container = ZeroVec<'a, Option<T>>;
}

impl<'a, T: AsULE, const N: usize> ZeroMapKV<'a> for NichedOption<T, N>
where
    T::ULE: NicheBytes<N>,
{
    type Container = ZeroVec<'a, NichedOption<T, N>>;
}

impl<'a, A: AsULE, B: AsULE> ZeroMapKV<'a> for (A, B) {
    type Container = ZeroVec<'a, (A, B)>;
}

impl<'a, A: AsULE, B: AsULE, C: AsULE> ZeroMapKV<'a> for (A, B, C) {
    type Container = ZeroVec<'a, (A, B, C)>;
}

impl<'a, A: AsULE, B: AsULE, C: AsULE, D: AsULE> ZeroMapKV<'a> for (A, B, C, D) {
    type Container = ZeroVec<'a, (A, B, C, D)>;
}

impl<'a, A: AsULE, B: AsULE, C: AsULE, D: AsULE, E: AsULE> ZeroMapKV<'a> for (A, B, C, D, E) {
    type Container = ZeroVec<'a, (A, B, C, D, E)>;
}

impl<'a, A: AsULE, B: AsULE, C: AsULE, D: AsULE, E: AsULE, F: AsULE> ZeroMapKV<'a>
    for (A, B, C, D, E, F) {
    type Container = ZeroVec<'a, (A, B, C, D, E, F)>;
}

impl<'a, const N: usize> ZeroMapKV<'a> for [u8; N] {
    type Container = ZeroVec<'a, [u8; N]>;
}

impl<'a, const N: usize> ZeroMapKV<'a> for [u16; N] {
    type Container = ZeroVec<'a, [u16; N]>;
}

impl<'a, const N: usize> ZeroMapKV<'a> for [u32; N] {
    type Container = ZeroVec<'a, [u32; N]>;
}

impl<'a, const N: usize> ZeroMapKV<'a> for [u64; N] {
    type Container = ZeroVec<'a, [u64; N]>;
}

impl<'a, const N: usize> ZeroMapKV<'a> for [char; N] {
    type Container = ZeroVec<'a, [char; N]>;
}

impl<'a> ZeroMapKV<'a> for StrULE {
    type Container = VarZeroVec<'a, StrULE, Index16>;
}

impl<'a, U: ULE> ZeroMapKV<'a> for SliceULE<U> {
    type Container = VarZeroVec<'a, SliceULE<U>, Index16>;
}

impl<'a, T: AsULE> ZeroMapKV<'a> for ZeroSliceULE<T> {
    type Container = VarZeroVec<'a, ZeroSliceULE<T>, Index16>;
}

impl<'a, const LEN: usize, F: VarZeroVecFormat> ZeroMapKV<'a> for MultiFieldsULE<LEN, F> {
    type Container = VarZeroVec<'a, MultiFieldsULE<LEN, F>, Index16>;
}

impl<'a, const LEN: usize, K: FieldKinds, F: VarZeroVecFormat> ZeroMapKV<'a>
    for RecordULE<LEN, K, F> {
    type Container = VarZeroVec<'a, RecordULE<LEN, K, F>, Index16>;
}

impl<'a, A: AsULE, V: VarULE> ZeroMapKV<'a> for VarTupleULE<A, V> {
    type Container = VarZeroVec<'a, VarTupleULE<A, V>, Index16>;
}

impl<'a, U: VarULE> ZeroMapKV<'a> for OptionVarULE<U> {
    type Container = VarZeroVec<'a, OptionVarULE<U>, Index16>;
}
