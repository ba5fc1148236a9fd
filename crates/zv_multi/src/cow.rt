// Single elements that are borrowed or owned.
ghost use Rattle.std.specs.Prelude.{◌≡◌, ◌↔◌, true, false, None, IsTrue, IfOk, IsOk};
ghost use Rattle.std.specs.Result.{result_err};
ghost use Rattle.std.specs.declared.cmp.Ordering.TheVariants.{Equal};
ghost use Rattle.zv_multi.specs.Cows.{cow_bytes, cow_owned};
ghost use Rattle.zv_ule.specs.Views.{element_of};

use std::alloc::Global;
use std::cmp::Ordering;
use zv_ule::{
    EncodeAsVarULE, NoMemory, UleError, VarBox, VarRef, VarULE, ZvKind, ZvOrd, encode_varule_to_box,
};

/// One element of a kind, which is viewed where it lies or owns its bytes.
#[derive(Drop)]
pub enum VarZeroCow<'a, V: ZvKind> {
    /// An element that lies elsewhere.
    Borrowed(VarRef<'a, V>),
    /// An element of its own.
    Owned(VarBox<V>),
}

impl<'a, V: VarULE> VarZeroCow<'a, V> {
    /// Checks that the bytes are an element, and borrows them.
    #[inline]
    pub fn parse_bytes(bytes: &'a [u8]) -> Result<Self, UleError>
        requires { IsTrue V.usable }
        ensures error { result_err result ≡ V.fault bytes.now }
        ensures bytes { IfOk result (λ c. cow_bytes c ≡ bytes.now) }
        ensures borrowed { IfOk result (λ c. cow_owned c ≡ false) }
    {
        Ok(VarZeroCow::Borrowed(VarRef::new(bytes)?))
    }

    /// Checks that the bytes are an element, and keeps them as they lie. Bytes that are none are
    /// dropped.
    #[inline]
    pub fn parse_owned_bytes(bytes: Vec<u8>) -> Result<Self, UleError>
        requires { IsTrue V.usable }
        ensures error { result_err result ≡ V.fault bytes.items }
        ensures bytes { IfOk result (λ c. cow_bytes c ≡ bytes.items) }
        ensures owned { IfOk result (λ c. cow_owned c ≡ true) }
    {
        Ok(VarZeroCow::Owned(VarBox::from_bytes(bytes)?))
    }

    /// Writes the spelling of a value into memory of its own. It checks nothing.
    #[inline]
    pub fn from_encodeable<E: EncodeAsVarULE<V>>(
        alloc: Global,
        encodeable: &E,
    ) -> Result<Self, NoMemory>
        requires usable { IsTrue V.usable }
        requires fits { IsTrue (E.fits encodeable.now) }
        ensures bytes { IfOk result (λ c. cow_bytes c ≡ E.spelling encodeable.now) }
        ensures owned { IfOk result (λ c. cow_owned c ≡ true) }
        ensures spells { V.fault (E.spelling encodeable.now) ≡ None }
    {
        Ok(VarZeroCow::Owned(encode_varule_to_box(alloc, encodeable)?))
    }

    /// An element that is viewed.
    #[inline]
    pub fn new_borrowed(val: VarRef<'a, V>) -> Self
        ensures bytes { cow_bytes result ≡ element_of val.entry }
        ensures borrowed { cow_owned result ≡ false }
    {
        VarZeroCow::Borrowed(val)
    }

    /// An element that owns its bytes, in the memory that they lie in.
    #[inline]
    pub fn new_owned(val: VarBox<V>) -> Self
        ensures bytes { cow_bytes result ≡ val }
        ensures owned { cow_owned result ≡ true }
    {
        VarZeroCow::Owned(val)
    }

    /// Whether the element owns its bytes.
    #[inline]
    pub fn is_owned(&self) -> bool
        ensures { result ≡ cow_owned self.now }
    {
        matches!(self, VarZeroCow::Owned(_))
    }

    /// The element's bytes.
    #[inline]
    pub fn as_bytes(&self) -> &[u8]
        ensures same { result.now ≡ cow_bytes self.now }
        ensures spells { V.fault (cow_bytes self.now) ≡ None }
    {
        self.as_ref().as_bytes()
    }

    /// Views the element.
    #[inline]
    pub fn as_ref(&self) -> VarRef<'_, V>
        ensures { element_of result ≡ cow_bytes self.now }
    {
        match self {
            VarZeroCow::Borrowed(view) => *view,
            VarZeroCow::Owned(element) => element.as_ref(),
        }
    }

    /// The same element, borrowed from the same place or in memory of its own.
    pub fn clone(&self, alloc: Global) -> Result<Self, NoMemory>
        ensures bytes { IfOk result (λ c. cow_bytes c ≡ cow_bytes self.now) }
        ensures owned { IfOk result (λ c. cow_owned c ≡ cow_owned self.now) }
        ensures borrowed { cow_owned self.now ≡ false → IsOk result }
    {
        match self {
            VarZeroCow::Borrowed(view) => Ok(VarZeroCow::Borrowed(*view)),
            VarZeroCow::Owned(element) => Ok(VarZeroCow::Owned(element.clone(alloc)?)),
        }
    }
}

impl<V: VarULE + ZvOrd> VarZeroCow<'_, V> {
    /// How two elements compare.
    #[inline]
    pub fn order(&self, other: &VarZeroCow<'_, V>) -> Ordering
        ensures { result ≡ V.cmp (cow_bytes self.now) (cow_bytes other.now) }
    {
        self.as_ref().order(other.as_ref())
    }

    /// Whether two elements compare as equal.
    #[inline]
    pub fn same(&self, other: &VarZeroCow<'_, V>) -> bool
        ensures { IsTrue result ↔ (V.cmp (cow_bytes self.now) (cow_bytes other.now) ≡ Equal) }
    {
        self.as_ref().same(other.as_ref())
    }
}

impl<'a, V: VarULE> From<VarRef<'a, V>> for VarZeroCow<'a, V> {
    ghost from_gives = { λ v c. (cow_bytes c ≡ element_of v) × (cow_owned c ≡ false) };

    #[inline]
    fn from(val: VarRef<'a, V>) -> Self {
        VarZeroCow::new_borrowed(val)
    }
}

impl<V: VarULE> From<VarBox<V>> for VarZeroCow<'_, V> {
    ghost from_gives = { λ v c. (cow_bytes c ≡ v) × (cow_owned c ≡ true) };

    #[inline]
    fn from(val: VarBox<V>) -> Self {
        VarZeroCow::new_owned(val)
    }
}

impl<V: VarULE> EncodeAsVarULE<V> for VarZeroCow<'_, V> {
    ghost fits = { λ _. true };

    ghost spelling = { cow_bytes };

    #[inline]
    fn encode_var_ule_fits(&self) -> bool {
        true
    }

    #[inline]
    fn encode_var_ule_len(&self) -> usize {
        self.as_bytes().len()
    }

    #[inline]
    fn encode_var_ule_write(&self, dst: &mut [u8]) {
        dst.copy_from_slice(self.as_bytes());
    }
}
