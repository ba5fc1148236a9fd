// Single elements that own their bytes.
ghost use Rattle.std.specs.Prelude.{◌≡◌, ℕ, ◌<◌, true, List, None, IsTrue, IfOk};
ghost use Rattle.std.specs.declared.cmp.Ordering.{Ordering};
ghost use Rattle.std.specs.Result.{result_err};
ghost use Rattle.zv_ule.specs.declared.error.UleError.{UleError};
ghost use Rattle.zv_ule.specs.Views.{element_of};

use crate::error::{NoMemory, UleError};
use crate::kind::{ZvKind, ZvOrd};
use crate::kinds::argument::{ZvArg, ZvOrdArg};
use crate::kinds::var::{EncodeAsVarULE, VarULE};
use crate::kinds::view::VarRef;
use crate::steps::Steps;
use std::alloc::Global;
use std::cmp::Ordering;
use std::marker::{Model, PhantomData};
use std::sync::ledger::Ledger;

/// One element of a kind that owns its bytes: bytes that were checked, or that are known to be one.
/// In contracts a box is its bytes. No call on it checks them again, and only `clone` copies them.
#[derive(Drop)]
pub struct VarBox<T: ZvKind> {
    bytes: Vec<u8>,
    of: PhantomData<T>,
}

impl<T: ZvKind> Model for VarBox<T> {
    ghost use Rattle.std.specs.Prelude.{◌≡◌, ℕ, List, None, IsTrue};

    ghost Value = { List ℕ };

    ghost view = { λ b. b.bytes.items };

    ghost invariant = { λ b. IsTrue T.usable × (T.fault b.bytes.items ≡ None) };
}

impl<T: ZvKind> VarBox<T> {
    /// Checks that the bytes are an element, by `check` of the kind, and keeps them as they lie.
    /// Bytes that are none are dropped.
    #[inline]
    pub fn from_bytes(bytes: Vec<u8>) -> Result<Self, UleError>
        requires { IsTrue T.usable }
        ensures error { result_err result ≡ T.fault bytes.items }
        ensures bytes { IfOk result (λ b. b ≡ bytes.items) }
    {
        T::check(&bytes)?;
        Ok(VarBox {
            bytes,
            of: PhantomData,
        })
    }

    /// Keeps bytes that are known to be an element. It checks nothing.
    #[inline]
    pub fn of_valid(bytes: Vec<u8>) -> Self
        requires usable { IsTrue T.usable }
        requires spells { T.fault bytes.items ≡ None }
        ensures { result ≡ bytes.items }
    {
        VarBox {
            bytes,
            of: PhantomData,
        }
    }

    /// Views the element.
    #[inline]
    pub fn as_ref(&self) -> VarRef<'_, T>
        ensures { element_of result ≡ self.now }
    {
        VarRef::of_valid(&self.bytes)
    }

    /// The element's bytes.
    #[inline]
    pub fn as_bytes(&self) -> &[u8]
        ensures same { result.now ≡ self.now }
        ensures spells { T.fault self.now ≡ None }
    {
        &self.bytes
    }

    /// The element's bytes, in the memory that they lie in.
    #[inline]
    pub fn into_bytes(self) -> Vec<u8>
        ensures same { result.items ≡ self }
        ensures spells { T.fault self ≡ None }
    {
        let VarBox { bytes, of: _ } = self;
        bytes
    }

    /// A box of its own with the same bytes.
    #[inline]
    pub fn clone(&self, alloc: Global) -> Result<Self, NoMemory>
        ensures { IfOk result (λ b. b ≡ self.now) }
    {
        self.as_ref().to_boxed(alloc)
    }
}

impl<T: ZvKind> VarRef<'_, T> {
    /// Copies the element's bytes into a box. It checks nothing.
    #[inline]
    pub fn to_boxed(self, alloc: Global) -> Result<VarBox<T>, NoMemory>
        ensures { IfOk result (λ b. b ≡ element_of self.entry) }
    {
        let bytes = Vec::from_slice(alloc, self.as_bytes())?;
        Ok(VarBox::of_valid(bytes))
    }
}

/// Writes the spelling of a value into a box. It checks nothing.
pub fn encode_varule_to_box<S: EncodeAsVarULE<T>, T: VarULE>(
    alloc: Global,
    x: &S,
) -> Result<VarBox<T>, NoMemory>
    requires usable { IsTrue T.usable }
    requires fits { IsTrue (S.fits x.now) }
    ensures bytes { IfOk result (λ b. b ≡ S.spelling x.now) }
    ensures spells { T.fault (S.spelling x.now) ≡ None }
{
    let mut bytes = vec![in alloc; 0; x.encode_var_ule_len()]?;
    x.encode_var_ule_write(&mut bytes);
    Ok(VarBox::of_valid(bytes))
}

impl<K: ZvKind> ZvArg<K> for VarBox<K> {
    ghost bytes = { λ b. b };

    #[inline]
    fn arg_len(&self) -> usize {
        self.as_bytes().len()
    }

    #[inline]
    fn arg_write(&self, out: &mut [u8]) {
        out.copy_from_slice(self.as_bytes());
    }
}

impl<K: ZvOrd> ZvOrdArg<K> for VarBox<K> {
    #[inline]
    fn arg_compare<L: Ledger>(&self, element: &[u8], steps: &mut Steps<L>) -> Ordering {
        K::compare(element, self.as_bytes(), steps)
    }
}

impl<T: VarULE> EncodeAsVarULE<T> for VarBox<T> {
    ghost fits = { λ _. true };

    ghost spelling = { λ b. b };

    #[inline]
    fn encode_var_ule_fits(&self) -> bool {
        true
    }

    #[inline]
    fn encode_var_ule_len(&self) -> usize {
        self.as_bytes().len()
    }

    #[inline]
    fn encode_var_ule_write(&self, dst: &mut [u8]) {
        dst.copy_from_slice(self.as_bytes());
    }
}
