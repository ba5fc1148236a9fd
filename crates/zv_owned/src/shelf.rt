// A buffer of bytes that counts what is written into it.
ghost use Rattle.std.specs.Prelude.{◌≡◌, ℕ, ◌+◌, ◌-◌, ◌*◌, ◌<◌, ◌≤◌, [], ◌++◌, length, take, drop};
ghost use Rattle.std.specs.Prelude.{replicate, OnOk, OnErr, IsOk, IfOk, List};
ghost use Rattle.std.specs.List.{copy_within, flat_map, splice};
ghost use Rattle.zv_ule.specs.Bytes.{le};
ghost use Rattle.zv_owned.specs.Widths.{AreNarrow, IsNarrowed};

use crate::fields::{narrow_fields, widen_fields};
use std::alloc::Global;
use std::marker::Model;
use std::ops::Range;
use std::sync::ledger::Ledger;
use zv_bytes::copy_bytes;
use zv_ule::{NoMemory, Steps};

/// A buffer of bytes that knows how far it can grow without memory, and counts what is written into
/// it: each byte that a call adds, writes, lends, moves or takes in is a step.
#[derive(Drop)]
pub struct Shelf {
    buffer: Vec<u8>,
    room: usize,
}

impl Model for Shelf {
    ghost use Rattle.std.specs.Prelude.{◌+◌, ◌≤◌};
    ghost use Rattle.std.specs.Vec.{vec_capacity, vec_len};
    ghost use Rattle.zv_owned.specs.Shelves.{Shelved};

    ghost Value = { Shelved };

    ghost view = { λ s. record { bytes = s.buffer.items; spare = s.room } };

    ghost invariant = { λ s. vec_len s.buffer + s.room ≤ vec_capacity s.buffer };
}

impl Shelf {
    ghost use Rattle.std.specs.Borrow.{sem};
    ghost use Rattle.zv_owned.specs.ShelfLending.{LendsPart};

    /// No bytes. It takes no memory.
    #[inline]
    pub fn new(alloc: Global) -> Self
        ensures bytes { result.bytes ≡ [] }
        ensures spare { result.spare ≡ 0 }
    {
        Shelf {
            buffer: Vec::new(alloc),
            room: 0,
        }
    }

    /// These bytes, with no room for more.
    #[inline]
    pub(crate) fn from_bytes(bytes: Vec<u8>) -> Self
        ensures bytes { result.bytes ≡ bytes.items }
        ensures spare { result.spare ≡ 0 }
    {
        Shelf {
            buffer: bytes,
            room: 0,
        }
    }

    /// A copy of bytes, with room for `more`.
    pub(crate) fn with_copy(alloc: Global, bytes: &[u8], more: usize) -> Result<Self, NoMemory>
        ensures bytes { IfOk result (λ s. s.bytes ≡ bytes.now) }
        ensures spare { IfOk result (λ s. s.spare ≡ more) }
    {
        let Some(capacity) = bytes.len().checked_add(more) else {
            return Err(NoMemory);
        };
        let mut buffer = Vec::with_capacity(alloc, capacity)?;
        buffer.extend_from_slice(bytes)?;
        Ok(Shelf { buffer, room: more })
    }

    /// What gives it memory.
    #[inline]
    pub(crate) fn allocator(&self) -> Global {
        *self.buffer.allocator()
    }

    /// How many bytes there are.
    #[inline]
    pub fn len(&self) -> usize
        ensures { result ≡ length self.now.bytes }
    {
        self.buffer.len()
    }

    /// What was written into the shelf so far, in place.
    #[inline]
    pub fn bytes(&self) -> &[u8]
        ensures { result.now ≡ self.now.bytes }
    {
        self.buffer.as_slice()
    }

    /// How many bytes can be added without memory.
    #[inline]
    pub fn spare(&self) -> usize
        ensures { result ≡ self.now.spare }
    {
        self.room
    }

    /// How many bytes fit without memory: those that there are, and the spare.
    #[inline]
    pub fn capacity(&self) -> usize
        ensures { result ≡ length self.now.bytes + self.now.spare }
    {
        self.buffer.len() + self.room
    }

    /// Makes room for `n` bytes more.
    ///
    /// # Errors
    /// [`NoMemory`] at most where `n` is above the spare.
    pub fn reserve(&mut self, n: usize) -> Result<(), NoMemory>
        ensures bytes { self.new.bytes ≡ self.old.bytes }
        ensures ok { OnOk result (n ≤ self.new.spare) }
        ensures err { OnErr result (self.new ≡ self.old) }
        ensures keeps_room { self.old.spare ≤ self.new.spare }
        ensures in_place { n ≤ self.old.spare → self.new.spare ≡ self.old.spare }
        ensures succeeds { n ≤ self.old.spare → IsOk result }
    {
        if n > self.room {
            self.buffer.reserve(n)?;
            self.room = self.buffer.capacity() - self.buffer.len();
        }
        Ok(())
    }

    /// Adds `n` zero bytes at the end, in `n` steps.
    ///
    /// # Errors
    /// [`NoMemory`] at most where `n` is above the spare.
    pub fn grow<L: Ledger>(&mut self, n: usize, steps: &mut Steps<L>) -> Result<(), NoMemory>
        ensures ok { OnOk result (self.new.bytes ≡ self.old.bytes ++ replicate n 0) }
        // where it is refused
        ensures err { OnErr result (self.new ≡ self.old) }
        ensures succeeds { n ≤ self.old.spare → IsOk result }
        // what it takes
        ensures spare { OnOk result (self.new.spare ≡ self.old.spare - n) }
        ensures steps { OnOk result (steps.new ≡ steps.old + n) }
        ensures free { OnErr result (steps.new ≡ steps.old) }
    {
        let len = self.buffer.len();
        let Some(end) = len.checked_add(n) else {
            return Err(NoMemory);
        };
        self.buffer.resize(end, 0)?;
        self.room = self.room.saturating_sub(n);
        steps.take(n);
        Ok(())
    }

    /// Writes a piece over the bytes at a place, a step a byte.
    #[inline]
    pub fn write<L: Ledger>(&mut self, at: usize, piece: &[u8], steps: &mut Steps<L>)
        requires { at + length piece.now ≤ length self.old.bytes }
        ensures bytes { self.new.bytes ≡
            splice self.old.bytes at (at + length piece.now) piece.now }
        ensures spare { self.new.spare ≡ self.old.spare }
        ensures steps { steps.new ≡ steps.old + length piece.now }
    {
        self.lend(at, piece.len(), steps).copy_from_slice(piece);
    }

    /// The `n` bytes from a place on, to be written, in `n` steps.
    #[inline]
    pub fn lend<L: Ledger>(&mut self, at: usize, n: usize, steps: &mut Steps<L>) -> &mut [u8]
        requires { at + n ≤ length self.old.bytes }
        ensures* lends { sem 𝓛 (LendsPart self.entry at result) }
        ensures value { result.now ≡ take n (drop at self.old.bytes) }
        ensures len { length result.now ≡ n }
        ensures steps { steps.new ≡ steps.old + n }
    {
        steps.take(n);
        self.buffer.slice_mut(at..at + n)
    }

    /// Copies bytes to another place, a step a byte. The two may overlap.
    #[inline]
    pub fn move_bytes<L: Ledger>(&mut self, from: Range<usize>, to: usize, steps: &mut Steps<L>)
        requires order { from.start ≤ from.end }
        requires inside { from.end ≤ length self.old.bytes }
        requires target { to + (from.end - from.start) ≤ length self.old.bytes }
        ensures bytes { self.new.bytes ≡ copy_within self.old.bytes from.start from.end to }
        // what it takes
        ensures spare { self.new.spare ≡ self.old.spare }
        ensures steps { steps.new ≡ steps.old + (from.end - from.start) }
    {
        let n = from.end - from.start;
        copy_bytes(self.buffer.as_mut_slice(), from.start, from.end, to);
        steps.take(n);
    }

    /// Makes `count` fields of two bytes at the front fields of four, over as many bytes behind
    /// them: a step a byte that is written.
    pub(crate) fn widen_fields<L: Ledger>(&mut self, count: usize, steps: &mut Steps<L>)
        requires { 4 * count ≤ length self.old.bytes }
        ensures len { length self.new.bytes ≡ length self.old.bytes }
        ensures fields { (ss g t : List ℕ) → length ss ≡ count → AreNarrow ss →
            length g ≡ 2 * count → self.old.bytes ≡ flat_map (le 2) ss ++ (g ++ t) →
            self.new.bytes ≡ flat_map (le 4) ss ++ t }
        ensures spare { self.new.spare ≡ self.old.spare }
        ensures steps { steps.new ≡ steps.old + 4 * count }
    {
        widen_fields(self.buffer.as_mut_slice(), count);
        steps.take(4 * count);
    }

    /// Makes `count` fields of four bytes at the front, whose numbers fit two, fields of two: a
    /// step a byte that is written.
    pub(crate) fn narrow_fields<L: Ledger>(&mut self, count: usize, steps: &mut Steps<L>)
        requires { 4 * count ≤ length self.old.bytes }
        ensures len { length self.new.bytes ≡ length self.old.bytes }
        ensures fields { (ss t : List ℕ) → length ss ≡ count → AreNarrow ss →
            self.old.bytes ≡ flat_map (le 4) ss ++ t → IsNarrowed ss t self.new.bytes }
        ensures spare { self.new.spare ≡ self.old.spare }
        ensures steps { steps.new ≡ steps.old + 2 * count }
    {
        narrow_fields(self.buffer.as_mut_slice(), count);
        steps.take(2 * count);
    }

    /// Keeps the first `n` bytes. It takes no memory, and no step.
    #[inline]
    pub fn cut(&mut self, n: usize)
        requires { n ≤ length self.old.bytes }
        ensures bytes { self.new.bytes ≡ take n self.old.bytes }
        ensures spare { self.new.spare ≡ self.old.spare + (length self.old.bytes - n) }
    {
        let gone = self.buffer.len() - n;
        self.buffer.truncate(n);
        self.room += gone;
    }

    /// Keeps no byte. It takes no memory, and no step.
    #[inline]
    pub fn clear(&mut self)
        ensures bytes { self.new.bytes ≡ [] }
        ensures spare { self.new.spare ≡ self.old.spare + length self.old.bytes }
    {
        self.cut(0);
    }

    /// Adds bytes at the end, a step a byte.
    ///
    /// # Errors
    /// [`NoMemory`] at most where they are more than the spare.
    pub fn take_in<L: Ledger>(&mut self, bytes: &[u8], steps: &mut Steps<L>) -> Result<(), NoMemory>
        ensures ok { OnOk result (self.new.bytes ≡ self.old.bytes ++ bytes.now) }
        // where it is refused
        ensures err { OnErr result (self.new ≡ self.old) }
        ensures succeeds { length bytes.now ≤ self.old.spare → IsOk result }
        // what it takes
        ensures spare { OnOk result (self.new.spare ≡ self.old.spare - length bytes.now) }
        ensures steps { OnOk result (steps.new ≡ steps.old + length bytes.now) }
        ensures free { OnErr result (steps.new ≡ steps.old) }
    {
        self.buffer.extend_from_slice(bytes)?;
        self.room = self.room.saturating_sub(bytes.len());
        steps.take(bytes.len());
        Ok(())
    }

    /// The bytes, in the memory that they lie in.
    #[inline]
    pub fn into_bytes(self) -> Vec<u8>
        ensures { result.items ≡ self.bytes }
    {
        let Shelf { buffer, room: _ } = self;
        buffer
    }
}
