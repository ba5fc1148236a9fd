// Bytes that are borrowed until the first change, and then owned.
ghost use Rattle.std.specs.Prelude.{◌≡◌, ◌+◌, ◌-◌, ◌^◌, ◌<◌, ◌≤◌, [], ◌++◌, length};
ghost use Rattle.std.specs.Prelude.{true, false, None, IsTrue, IfOk, IsOk, OnOk, OnErr};
ghost use Rattle.std.specs.Prelude.{MatchOption, replicate, slice_range, take, drop, vec_capacity};
ghost use Rattle.std.specs.Prelude.{vec_len};
ghost use Rattle.std.specs.List.{remove_range, splice};
ghost use Rattle.zv_fixed.specs.CowBytes.{bytes_in, owned_in, spare_in, IsUnchanged};

use std::alloc::Global;
use zv_bytes::copy_bytes;
use zv_ule::{NoMemory, ZvArg, ZvKind};

/// Bytes that lie elsewhere, or in memory that is freed with them.
#[derive(Drop)]
pub enum CowBytes<'a> {
    /// Bytes that lie elsewhere.
    Borrowed(&'a [u8]),
    /// Bytes of its own.
    Owned(Vec<u8>),
}

impl<'a> CowBytes<'a> {
    /// The bytes.
    #[inline]
    pub fn bytes(&self) -> &[u8]
        ensures { result.now ≡ bytes_in self.now }
    {
        match self {
            CowBytes::Borrowed(bytes) => bytes,
            CowBytes::Owned(bytes) => bytes.as_slice(),
        }
    }

    /// The bytes, for as long as they lie elsewhere, or `None` where they are owned.
    #[inline]
    pub fn borrowed(&self) -> Option<&'a [u8]>
        ensures { MatchOption result (owned_in self.now ≡ true)
            (λ b. (owned_in self.now ≡ false) × (b.now ≡ bytes_in self.now)) }
    {
        match self {
            CowBytes::Borrowed(bytes) => Some(*bytes),
            CowBytes::Owned(_) => None,
        }
    }

    /// Whether the bytes are owned.
    #[inline]
    pub fn is_owned(&self) -> bool
        ensures { result ≡ owned_in self.now }
    {
        match self {
            CowBytes::Borrowed(_) => false,
            CowBytes::Owned(_) => true,
        }
    }

    /// How many more bytes fit without memory.
    #[inline]
    pub fn spare(&self) -> usize
        ensures spare { result ≡ spare_in self.now }
        ensures none { owned_in self.now ≡ false → result ≡ 0 }
    {
        match self {
            CowBytes::Borrowed(_) => 0,
            CowBytes::Owned(bytes) => bytes.capacity() - bytes.len(),
        }
    }

    /// Makes the bytes owned, with room for `more`.
    pub fn reserve(&mut self, alloc: Global, more: usize) -> Result<(), NoMemory>
        ensures bytes { bytes_in self.new ≡ bytes_in self.old }
        ensures room { OnOk result (more ≤ spare_in self.new) }
        ensures owned { OnOk result (owned_in self.new ≡ true) }
        ensures err { OnErr result (IsUnchanged self.old self.new) }
        ensures fits { more ≤ spare_in self.old → owned_in self.old ≡ true → IsOk result }
        ensures spare { spare_in self.old ≤ spare_in self.new }
        ensures in_place { more ≤ spare_in self.old → owned_in self.old ≡ true →
            spare_in self.new ≡ spare_in self.old }
    {
        match self {
            CowBytes::Borrowed(bytes) => *self = CowBytes::Owned(copied(alloc, bytes, more)?),
            CowBytes::Owned(bytes) => make_room(bytes, more)?,
        }
        Ok(())
    }

    /// The same bytes in memory of their own: that which they lie in, if they are owned.
    pub fn into_owned(self, alloc: Global) -> Result<CowBytes<'static>, NoMemory>
        ensures bytes { IfOk result (λ h. bytes_in h ≡ bytes_in self.entry) }
        ensures owned { IfOk result (λ h. owned_in h ≡ true) }
        ensures spare { IfOk result (λ h. spare_in self.entry ≤ spare_in h) }
        ensures in_place { owned_in self.entry ≡ true →
            IfOk result (λ h. spare_in h ≡ spare_in self.entry) }
        ensures fits { owned_in self.entry ≡ true → IsOk result }
    {
        match self {
            CowBytes::Borrowed(bytes) => Ok(CowBytes::Owned(Vec::from_slice(alloc, bytes)?)),
            CowBytes::Owned(bytes) => Ok(CowBytes::Owned(bytes)),
        }
    }

    /// Keeps the bytes from one place up to another. It takes no memory.
    pub fn keep(&mut self, start: usize, end: usize)
        requires order { start ≤ end }
        requires place { end ≤ length (bytes_in self.old) }
        ensures bytes { bytes_in self.new ≡ slice_range (bytes_in self.old) start end }
        ensures owned { owned_in self.new ≡ owned_in self.old }
        ensures spare { spare_in self.old ≤ spare_in self.new }
        ensures memory { owned_in self.old ≡ true → length (bytes_in self.new) + spare_in self.new
            ≡ length (bytes_in self.old) + spare_in self.old }
    {
        match self {
            CowBytes::Borrowed(bytes) => *bytes = &bytes[start..end],
            CowBytes::Owned(bytes) => {
                bytes.truncate(end);
                if start > 0 {
                    copy_bytes(bytes, start, end, 0);
                    bytes.truncate(end - start);
                }
            }
        }
    }

    /// Takes all bytes away and keeps the memory.
    pub fn clear(&mut self)
        ensures bytes { bytes_in self.new ≡ [] }
        ensures owned { owned_in self.new ≡ owned_in self.old }
        ensures spare { spare_in self.old ≤ spare_in self.new }
        ensures memory { owned_in self.old ≡ true →
            spare_in self.new ≡ length (bytes_in self.old) + spare_in self.old }
    {
        match self {
            CowBytes::Borrowed(bytes) => *bytes = &[],
            CowBytes::Owned(bytes) => bytes.clear(),
        }
    }

    /// The same bytes, borrowed from the same place or in memory of their own.
    pub fn clone(&self, alloc: Global) -> Result<Self, NoMemory>
        ensures bytes { IfOk result (λ h. bytes_in h ≡ bytes_in self.now) }
        ensures owned { IfOk result (λ h. owned_in h ≡ owned_in self.now) }
        ensures borrowed { owned_in self.now ≡ false → IsOk result }
    {
        match self {
            CowBytes::Borrowed(bytes) => Ok(CowBytes::Borrowed(*bytes)),
            CowBytes::Owned(bytes) => Ok(CowBytes::Owned(Vec::from_slice(alloc, bytes)?)),
        }
    }

    /// Writes an argument between the bytes before a place and those from it on. Borrowed bytes
    /// need an allocator.
    pub fn insert<K: ZvKind, Q: ZvArg<K>>(
        &mut self,
        alloc: Option<Global>,
        at: usize,
        value: &Q,
    ) -> Result<(), NoMemory>
        requires usable { IsTrue K.usable }
        requires below { length (Q.bytes value.now) < 2 ^ 64 }
        requires place { at ≤ length (bytes_in self.old) }
        ensures ok { OnOk result (bytes_in self.new
            ≡ splice (bytes_in self.old) at at (Q.bytes value.now)) }
        ensures owned { OnOk result (owned_in self.new ≡ true) }
        ensures err { OnErr result (IsUnchanged self.old self.new) }
        ensures fits { length (Q.bytes value.now) ≤ spare_in self.old → owned_in self.old ≡ true
            → IsOk result }
        ensures spare { spare_in self.old ≤ spare_in self.new + length (Q.bytes value.now) }
        ensures spends { length (Q.bytes value.now) ≤ spare_in self.old → owned_in self.old ≡ true →
            spare_in self.old ≡ spare_in self.new + length (Q.bytes value.now) }
        ensures spells { K.fault (Q.bytes value.now) ≡ None }
    {
        let count = value.arg_len();
        match self {
            CowBytes::Borrowed(bytes) => {
                let mut owned = with_gap(alloc, bytes, at, at, count)?;
                write_at(&mut owned, at, value);
                *self = CowBytes::Owned(owned);
            }
            CowBytes::Owned(bytes) => {
                open_gap(bytes, at, count)?;
                write_at(bytes, at, value);
            }
        }
        Ok(())
    }

    /// Writes an argument over the bytes from one place up to another. Borrowed bytes need an
    /// allocator.
    #[inline]
    pub fn set<K: ZvKind, Q: ZvArg<K>>(
        &mut self,
        alloc: Option<Global>,
        start: usize,
        end: usize,
        value: &Q,
    ) -> Result<(), NoMemory>
        requires usable { IsTrue K.usable }
        requires below { length (Q.bytes value.now) < 2 ^ 64 }
        requires whole { end ≡ start + length (Q.bytes value.now) }
        requires place { end ≤ length (bytes_in self.old) }
        ensures ok { OnOk result (bytes_in self.new
            ≡ splice (bytes_in self.old) start end (Q.bytes value.now)) }
        ensures owned { OnOk result (owned_in self.new ≡ true) }
        ensures err { OnErr result (IsUnchanged self.old self.new) }
        ensures fits { owned_in self.old ≡ true → IsOk result }
        ensures spare { spare_in self.old ≤ spare_in self.new }
        ensures in_place { owned_in self.old ≡ true → spare_in self.new ≡ spare_in self.old }
    {
        match self {
            CowBytes::Borrowed(bytes) => {
                let mut owned = with_gap(alloc, bytes, start, end, end - start)?;
                write_at(&mut owned, start, value);
                *self = CowBytes::Owned(owned);
            }
            CowBytes::Owned(bytes) => write_at(bytes, start, value),
        }
        Ok(())
    }

    /// Takes the bytes from one place up to another away. Borrowed bytes need an allocator.
    pub fn remove(
        &mut self,
        alloc: Option<Global>,
        start: usize,
        end: usize,
    ) -> Result<(), NoMemory>
        requires order { start ≤ end }
        requires place { end ≤ length (bytes_in self.old) }
        ensures ok { OnOk result (bytes_in self.new
            ≡ remove_range (bytes_in self.old) start end) }
        ensures owned { OnOk result (owned_in self.new ≡ true) }
        ensures err { OnErr result (IsUnchanged self.old self.new) }
        ensures fits { owned_in self.old ≡ true → IsOk result }
        ensures spare { spare_in self.old ≤ spare_in self.new }
        ensures frees { owned_in self.old ≡ true →
            spare_in self.new ≡ spare_in self.old + (end - start) }
    {
        match self {
            CowBytes::Borrowed(bytes) => {
                *self = CowBytes::Owned(with_gap(alloc, bytes, start, end, 0)?);
            }
            CowBytes::Owned(bytes) => {
                let len = bytes.len();
                copy_bytes(bytes, end, len, start);
                bytes.truncate(len - (end - start));
            }
        }
        Ok(())
    }
}

/// A copy of the bytes, with room for `more`.
fn copied(alloc: Global, bytes: &[u8], more: usize) -> Result<Vec<u8>, NoMemory>
    ensures items { IfOk result (λ v. v.items ≡ bytes.now) }
    ensures room { IfOk result (λ v. more ≤ vec_capacity v - vec_len v) }
{
    let capacity = bytes.len().checked_add(more).ok_or(NoMemory)?;
    let mut owned = Vec::with_capacity(alloc, capacity)?;
    owned.extend_from_slice(bytes)?;
    Ok(owned)
}

/// A copy of the bytes in which those from one place up to another are so many zeros.
fn with_gap(
    alloc: Option<Global>,
    bytes: &[u8],
    start: usize,
    end: usize,
    count: usize,
) -> Result<Vec<u8>, NoMemory>
    requires order { start ≤ end }
    requires place { end ≤ length bytes.now }
    ensures { IfOk result (λ v. v.items ≡ splice bytes.now start end (replicate count 0)) }
{
    let after = start.checked_add(count).ok_or(NoMemory)?;
    let room = after.saturating_add(bytes.len() - end);
    let mut owned = Vec::with_capacity(alloc.ok_or(NoMemory)?, room)?;
    owned.extend_from_slice(&bytes[..start])?;
    owned.resize(after, 0)?;
    owned.extend_from_slice(&bytes[end..])?;
    Ok(owned)
}

/// Moves the bytes from a place on up by so many, which may be anything then.
fn open_gap(bytes: &mut Vec<u8>, at: usize, count: usize) -> Result<(), NoMemory>
    requires { at ≤ length bytes.old.items }
    ensures front { OnOk result (take at bytes.new.items ≡ take at bytes.old.items) }
    ensures back { OnOk result (drop (at + count) bytes.new.items ≡ drop at bytes.old.items) }
    ensures long { OnOk result (length bytes.new.items ≡ length bytes.old.items + count) }
    ensures err { OnErr result (bytes.new.items ≡ bytes.old.items) }
    ensures err_spare { OnErr result (vec_capacity bytes.new - vec_len bytes.new
        ≡ vec_capacity bytes.old - vec_len bytes.old) }
    ensures fits { count ≤ vec_capacity bytes.old - vec_len bytes.old → IsOk result }
    ensures spare { vec_capacity bytes.old - vec_len bytes.old
        ≤ vec_capacity bytes.new - vec_len bytes.new + count }
    ensures spends { count ≤ vec_capacity bytes.old - vec_len bytes.old →
        vec_capacity bytes.new ≡ vec_capacity bytes.old }
{
    let len = bytes.len();
    make_room(bytes, count)?;
    push_zeros(bytes, count);
    copy_bytes(bytes, at, len, at + count);
    Ok(())
}

/// Makes room for so many bytes more. It asks for memory only where the room is missing.
#[inline]
fn make_room(bytes: &mut Vec<u8>, count: usize) -> Result<(), NoMemory>
    ensures items { bytes.new.items ≡ bytes.old.items }
    ensures room { OnOk result (count ≤ vec_capacity bytes.new - vec_len bytes.new) }
    ensures err { OnErr result (vec_capacity bytes.new ≡ vec_capacity bytes.old) }
    ensures fits { count ≤ vec_capacity bytes.old - vec_len bytes.old → IsOk result }
    ensures capacity { vec_capacity bytes.old ≤ vec_capacity bytes.new }
    ensures in_place { count ≤ vec_capacity bytes.old - vec_len bytes.old →
        vec_capacity bytes.new ≡ vec_capacity bytes.old }
{
    if bytes.capacity() - bytes.len() < count {
        bytes.reserve(count)?;
    }
    Ok(())
}

/// Adds so many zeros, for which there is room.
#[inline]
fn push_zeros(bytes: &mut Vec<u8>, count: usize)
    requires { count ≤ vec_capacity bytes.old - vec_len bytes.old }
    ensures items { bytes.new.items ≡ bytes.old.items ++ replicate count 0 }
    ensures capacity { vec_capacity bytes.new ≡ vec_capacity bytes.old }
{
    for _ in 0..count {
        bytes.push_reserved(0);
    }
}

/// Writes an argument over the bytes from a place on.
#[inline]
fn write_at<K: ZvKind, Q: ZvArg<K>>(bytes: &mut [u8], at: usize, value: &Q)
    requires usable { IsTrue K.usable }
    requires below { length (Q.bytes value.now) < 2 ^ 64 }
    requires place { at + length (Q.bytes value.now) ≤ length bytes.old }
    ensures written { bytes.new
        ≡ splice bytes.old at (at + length (Q.bytes value.now)) (Q.bytes value.now) }
    ensures spells { K.fault (Q.bytes value.now) ≡ None }
{
    let end = at + value.arg_len();
    value.arg_write(&mut bytes[at..end]);
}
