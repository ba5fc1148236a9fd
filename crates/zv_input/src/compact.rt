// Bytes that stand in place where they are few, and are boxed where they are more.
ghost use Rattle.std.specs.Prelude.{◌≡◌, ◌≤◌, IsTrue, IsUtf8, IfOk, length, take};
ghost use Rattle.std.specs.Str.{is_utf8};
ghost use Rattle.zv_input.specs.Digits.{content_of, is_of_kind};

use crate::digits::{decode, decode_to};
use std::alloc::Global;
use std::marker::Model;
use zv_ule::NoMemory;

// The most bytes that stand in place.
const IN_PLACE: usize = 12;

// The kinds of content: any bytes, and bytes that are UTF-8 (RFC 3629).
pub(crate) const BYTES: u8 = 0;

pub(crate) const TEXT: u8 = 1;

// The vector is boxed so that either variant fits 16 bytes. The length has two bytes so that the
// others start at the fourth: then a copy of them is two words that don't overlap.
#[derive(Drop)]
enum Stored {
    Few { len: u16, bytes: [u8; IN_PLACE] },
    Many(Box<Vec<u8>>),
}

const _: () = prove!(size_of::<Stored>() == 16);

// Whether bytes are UTF-8. (Most texts are ASCII, which is tested faster.)
#[tactic(auto, using(crate::proofs::Texts::text_tests))]
fn is_utf8(bytes: &[u8]) -> bool
    ensures { result ≡ is_utf8 bytes.now }
{
    bytes.is_ascii() || std::str::from_utf8(bytes).is_ok()
}

// The same. (Of no bytes, as in the shortest lines, it is known without a call.)
#[tactic(auto, using(crate::proofs::Texts::no_text))]
#[inline(always)]
fn is_text(bytes: &[u8]) -> bool
    ensures { result ≡ is_utf8 bytes.now }
{
    match bytes {
        [] => true,
        _ => is_utf8(bytes),
    }
}

/// Whether bytes are of a kind.
#[inline(always)]
pub(crate) fn is_of_kind(kind: u8, bytes: &[u8]) -> bool
    ensures { result ≡ is_of_kind kind bytes.now }
{
    if kind == TEXT { is_text(bytes) } else { true }
}

/// Bytes of a kind. They take 16 bytes of their own: up to 12 of them stand in place, and only more
/// take memory.
#[derive(Drop)]
pub struct CompactBytes<const KIND: u8> {
    stored: Stored,
}

impl<const KIND: u8> Model for CompactBytes<KIND> {
    ghost use Rattle.std.specs.Prelude.{List, ℕ, IsTrue};
    ghost use Rattle.zv_input.specs.Compact.{stored_bytes, IsSound};
    ghost use Rattle.zv_input.specs.Digits.{is_of_kind};

    ghost Value = { List ℕ };

    ghost view = { λ b. stored_bytes b.stored };

    ghost invariant = { λ b. IsSound b.stored
        × IsTrue (is_of_kind KIND (stored_bytes b.stored)) };
}

impl<const KIND: u8> CompactBytes<KIND> {
    // A copy of bytes of the kind.
    fn copy_of(alloc: Global, bytes: &[u8]) -> Result<Self, NoMemory>
        requires { IsTrue (is_of_kind KIND bytes.now) }
        ensures { IfOk result (λ b. b ≡ bytes.now) }
    {
        if bytes.len() > IN_PLACE {
            return CompactBytes::boxed(alloc, Vec::from_slice(alloc, bytes)?);
        }
        let mut place = [0u8; IN_PLACE];
        place[..bytes.len()].copy_from_slice(bytes);
        Ok(CompactBytes::in_place(place, bytes.len()))
    }

    /// The bytes that hex digits stand for, or `None` where they stand for none, or where they
    /// aren't of the kind. Up to 12 bytes take no memory. (They are checked before they
    /// are moved, which is faster.)
    pub(crate) fn from_hex(alloc: Global, digits: &[u8]) -> Result<Option<Self>, NoMemory>
        ensures { IfOk result (λ b. b ≡ content_of KIND digits.now) }
    {
        let len = digits.len() / 2;
        if len > IN_PLACE {
            return CompactBytes::from_long_hex(alloc, digits);
        }
        let mut bytes = [0u8; IN_PLACE];
        let place = &mut bytes[..len];
        if !decode_to(digits, place) || !is_of_kind(KIND, place) {
            return Ok(None);
        }
        Ok(Some(CompactBytes::in_place(bytes, len)))
    }

    // The same for bytes that take memory. (Apart, it leaves the way of the many short ones free.)
    #[inline(never)]
    fn from_long_hex(alloc: Global, digits: &[u8]) -> Result<Option<Self>, NoMemory>
        ensures { IfOk result (λ b. b ≡ content_of KIND digits.now) }
    {
        let Some(bytes) = decode(alloc, digits)? else {
            return Ok(None);
        };
        if !is_of_kind(KIND, &bytes) {
            return Ok(None);
        }
        Ok(Some(CompactBytes::boxed(alloc, bytes)?))
    }

    // The first bytes of an array.
    fn in_place(bytes: [u8; IN_PLACE], len: usize) -> Self
        requires within { len ≤ IN_PLACE }
        requires content { IsTrue (is_of_kind KIND (take len bytes)) }
        ensures { result ≡ take len bytes }
    {
        let len = len as u16;
        CompactBytes {
            stored: Stored::Few { len, bytes },
        }
    }

    // The bytes of a vector.
    fn boxed(alloc: Global, bytes: Vec<u8>) -> Result<Self, NoMemory>
        requires { IsTrue (is_of_kind KIND bytes.items) }
        ensures { IfOk result (λ b. b ≡ bytes.items) }
    {
        match Box::new(alloc, bytes) {
            Ok(bytes) => Ok(CompactBytes {
                stored: Stored::Many(bytes),
            }),
            Err(_) => Err(NoMemory),
        }
    }

    // The bytes, wherever they stand.
    fn as_slice(&self) -> &[u8]
        ensures content { IsTrue (is_of_kind KIND result.now) }
        ensures bytes { result.now ≡ self.now }
    {
        match &self.stored {
            Stored::Few { len, bytes } => &bytes[..*len as usize],
            Stored::Many(bytes) => bytes.as_slice(),
        }
    }

    // How many bytes there are.
    pub(crate) fn len(&self) -> usize
        ensures count { result ≡ length self.now }
        ensures content { IsTrue (is_of_kind KIND self.now) }
    {
        self.as_slice().len()
    }
}

impl CompactBytes<TEXT> {
    /// A copy of a text.
    #[tactic(auto, using(crate::proofs::Texts::text_tests))]
    pub fn new(alloc: Global, text: &str) -> Result<Self, NoMemory>
        ensures { IfOk result (λ k. k ≡ text.now) }
    {
        CompactBytes::copy_of(alloc, text.as_bytes())
    }

    /// The text as it was given.
    #[tactic(auto, using(crate::proofs::Texts::text_tests))]
    pub fn as_str(&self) -> &str
        ensures { result.now ≡ self.now }
    {
        unsafe { std::str::from_utf8_unchecked(self.as_slice()) }
    }
}

impl CompactBytes<BYTES> {
    /// A copy of bytes.
    pub fn new(alloc: Global, bytes: &[u8]) -> Result<Self, NoMemory>
        ensures { IfOk result (λ v. v ≡ bytes.now) }
    {
        CompactBytes::copy_of(alloc, bytes)
    }

    /// The bytes as they were given.
    pub fn as_bytes(&self) -> &[u8]
        ensures { result.now ≡ self.now }
    {
        self.as_slice()
    }
}
