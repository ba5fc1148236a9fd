// Arguments: values that stand for an element of a kind.
ghost use Rattle.std.specs.Prelude.{◌≡◌, ℕ, string_bytes, ◌+◌, ◌^◌, ◌<◌, List, length, None};
ghost use Rattle.std.specs.Prelude.{IsTrue};
ghost use Rattle.std.specs.declared.cmp.Ordering.{Ordering};
ghost use Rattle.zv_ule.specs.Views.{element_of};

use crate::compare::compare_texts;
use crate::element::{AsULE, ULE};
use crate::kind::{ZvKind, ZvOrd, compare_with};
use crate::kinds::text::{StrULE, text_of};
use crate::kinds::view::VarRef;
use crate::steps::Steps;
use std::cmp::Ordering;
use std::sync::ledger::Ledger;

/// An argument of a kind: a number for its own type, `&str` or `String` for texts, `&[U]` for
/// slices, a `VarRef` for any kind. It knows the bytes that would be written for it, and writes
/// them.
pub trait ZvArg<K: ZvKind> {
    /// The bytes that are written, always an element of the kind.
    ghost bytes: { Self → List ℕ };

    /// How many bytes are written.
    fn arg_len(&self) -> usize
        requires usable { IsTrue K.usable }
        requires below { length (bytes self.now) < 2 ^ 64 }
        ensures len { result ≡ length (bytes self.now) }
        ensures spells { K.fault (bytes self.now) ≡ None };

    /// Writes the bytes over the whole of `out`.
    fn arg_write(&self, out: &mut [u8])
        requires usable { IsTrue K.usable }
        requires below { length (bytes self.now) < 2 ^ 64 }
        requires whole { length out.old ≡ length (bytes self.now) }
        ensures written { out.new ≡ bytes self.now }
        ensures spells { K.fault (bytes self.now) ≡ None };
}

/// An argument that stored elements are compared with, as a key that is looked up.
pub trait ZvOrdArg<K: ZvOrd>: ZvArg<K> {
    /// How a stored element compares with the argument, as it would with the written bytes, which
    /// are not written. It is one step.
    fn arg_compare<L: Ledger>(&self, element: &[u8], steps: &mut Steps<L>) -> Ordering
        requires usable { IsTrue K.usable }
        requires below { length (Self.bytes self.now) < 2 ^ 64 }
        requires spells { K.fault element.now ≡ None }
        ensures order { result ≡ K.cmp element.now (Self.bytes self.now) }
        ensures cost { steps.new ≡ steps.old + 1 };
}

impl<T: AsULE> ZvArg<T> for T {
    ghost bytes = { λ v. T.ULE.chunk (T.stored v) };

    #[inline]
    #[tactic(auto, using(crate::proofs::ChunkFaults::good_one))]
    fn arg_len(&self) -> usize {
        let _ = self.to_unaligned();
        <T::ULE as ULE>::size()
    }

    #[inline]
    fn arg_write(&self, out: &mut [u8]) {
        self.to_unaligned().write_chunk(out);
    }
}

impl<K: ZvKind> ZvArg<K> for VarRef<'_, K> {
    ghost bytes = { element_of };

    #[inline]
    fn arg_len(&self) -> usize {
        self.as_bytes().len()
    }

    #[inline]
    fn arg_write(&self, out: &mut [u8]) {
        out.copy_from_slice(self.as_bytes());
    }
}

impl<K: ZvOrd> ZvOrdArg<K> for VarRef<'_, K> {
    #[inline]
    fn arg_compare<L: Ledger>(&self, element: &[u8], steps: &mut Steps<L>) -> Ordering {
        K::compare(element, self.as_bytes(), steps)
    }
}

#[tactic(auto, using(crate::proofs::Texts::text_good))]
impl ZvArg<StrULE> for &str {
    ghost bytes = { λ s. s.now };

    #[inline]
    fn arg_len(&self) -> usize {
        self.as_bytes().len()
    }

    #[inline]
    fn arg_write(&self, out: &mut [u8]) {
        out.copy_from_slice(self.as_bytes());
    }
}

impl ZvOrdArg<StrULE> for &str {
    #[inline]
    fn arg_compare<L: Ledger>(&self, element: &[u8], steps: &mut Steps<L>) -> Ordering {
        steps.tick();
        compare_texts(text_of(element), self)
    }
}

impl ZvArg<StrULE> for String {
    ghost bytes = { λ s. string_bytes s };

    #[inline]
    fn arg_len(&self) -> usize {
        let text = self.as_str();
        text.arg_len()
    }

    #[inline]
    fn arg_write(&self, out: &mut [u8]) {
        let text = self.as_str();
        text.arg_write(out);
    }
}

impl ZvOrdArg<StrULE> for String {
    #[inline]
    fn arg_compare<L: Ledger>(&self, element: &[u8], steps: &mut Steps<L>) -> Ordering {
        let text = self.as_str();
        text.arg_compare(element, steps)
    }
}
