// A value of fixed width, and an element behind it.
ghost use Rattle.std.specs.Prelude.{◌≡◌, ◌+◌, ◌^◌, ◌<◌, ◌&&◌, ◌++◌, length, nat_lt, take, drop};
ghost use Rattle.std.specs.Cmp.{on_total, then_total};
ghost use Rattle.std.specs.Ordering.{on, then_cmp};
ghost use Rattle.zv_multi.specs.VarTuples.{var_tuple_fault};
ghost use Rattle.zv_ule.specs.Views.{element_of};
ghost use Rattle.zv_ule.specs.declared.error.TyName.TheVariants.{VarTuple as NameOfVarTuple};

use std::cmp::Ordering;
use std::marker::PhantomData;
use std::sync::ledger::Ledger;
use zv_ule::{
    AsULE, EncodeAsVarULE, Steps, TyName, ULE, UleError, VarRef, VarULE, ZvKind, ZvOrd, order,
};

/// A value of fixed width, and a value that is written as an element of any length.
#[derive(Drop, Debug, PartialEq, Eq, PartialOrd, Ord)]
pub struct VarTuple<A, B> {
    /// The value of fixed width.
    pub sized: A,
    /// The value behind it.
    pub variable: B,
}

/// The kind of elements that are the bytes of a value of type `A`, and then an element of kind `V`
/// up to the end.
pub struct VarTupleULE<A: AsULE, V: VarULE> {
    of: PhantomData<(A, V)>,
}

impl<A: AsULE, V: VarULE> ZvKind for VarTupleULE<A, V> {
    const TY: TyName = TyName::VarTuple;

    ghost TY = { NameOfVarTuple };

    ghost usable = { A.usable && V.usable };

    ghost fault = { var_tuple_fault A.ULE.width A.fault V.fault };

    fn check(bytes: &[u8]) -> Result<(), UleError> {
        let width = <A::ULE as ULE>::size();
        if bytes.len() < width {
            return Err(UleError::length(TyName::VarTuple, bytes.len()));
        }
        let (sized, variable) = bytes.split_at(width);
        A::check(sized)?;
        V::check(variable)
    }
}

impl<A: AsULE, V: VarULE> VarULE for VarTupleULE<A, V> {}

impl<A: AsULE + ZvOrd, V: VarULE + ZvOrd> ZvOrd for VarTupleULE<A, V> {
    ghost cmp = { then_cmp (on (take A.ULE.width) A.cmp) (on (drop A.ULE.width) V.cmp) };

    #[inline]
    fn compare<L: Ledger>(a: &[u8], b: &[u8], steps: &mut Steps<L>) -> Ordering {
        steps.tick();
        let (left_sized, left) = a.split_at(<A::ULE as ULE>::size());
        let (right_sized, right) = b.split_at(<A::ULE as ULE>::size());
        match order::<A>(left_sized, right_sized) {
            Ordering::Equal => order::<V>(left, right),
            order => order,
        }
    }

    ghost total = { then_total (on_total (take A.ULE.width) A.total)
        (on_total (drop A.ULE.width) V.total) };
}

impl<A: AsULE, V: VarULE> VarTupleULE<A, V> {
    /// The value of fixed width, as it is stored.
    #[inline]
    pub fn sized(view: VarRef<'_, Self>) -> A::ULE
        ensures { result ≡ A.ULE.value (take A.ULE.width (element_of view.entry)) }
    {
        let (sized, _) = view.as_bytes().split_at(<A::ULE as ULE>::size());
        <A::ULE as ULE>::read_chunk(sized)
    }

    /// The element behind the value. It checks nothing.
    #[inline]
    pub fn variable<'b>(view: VarRef<'b, Self>) -> VarRef<'b, V>
        ensures { element_of result ≡ drop A.ULE.width (element_of view.entry) }
    {
        let (_, variable) = view.as_bytes().split_at(<A::ULE as ULE>::size());
        VarRef::of_valid(variable)
    }
}

impl<A: AsULE, V: VarULE, E: EncodeAsVarULE<V>> EncodeAsVarULE<VarTupleULE<A, V>>
    for VarTuple<A, E> {
    ghost fits = { λ v. E.fits v.variable
        && nat_lt (length (E.spelling v.variable) + A.ULE.width) (2 ^ 64) };

    ghost spelling = { λ v. A.ULE.chunk (A.stored v.sized) ++ E.spelling v.variable };

    #[inline]
    fn encode_var_ule_fits(&self) -> bool {
        let width = <A::ULE as ULE>::size();
        self.variable.encode_var_ule_fits()
            && self
                .variable
                .encode_var_ule_len()
                .checked_add(width)
                .is_some()
    }

    #[inline]
    fn encode_var_ule_len(&self) -> usize {
        let _ = self.sized.to_unaligned();
        self.variable.encode_var_ule_len() + <A::ULE as ULE>::size()
    }

    #[inline]
    fn encode_var_ule_write(&self, dst: &mut [u8]) {
        let stored = self.sized.to_unaligned();
        let (sized, variable) = dst.split_at_mut(<A::ULE as ULE>::size());
        stored.write_chunk(sized);
        self.variable.encode_var_ule_write(variable);
    }
}
