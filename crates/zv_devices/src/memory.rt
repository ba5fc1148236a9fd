// Devices in memory: they fail at the calls that a list names.
ghost use Rattle.std.specs.Prelude.{◌≡◌, ◌+◌, ◌-◌, ◌≤◌, ◌++◌, length, min, take, drop};

use crate::device::{Failed, Sink, Source};
use std::alloc::Global;
use std::marker::Model;
use zv_ule::NoMemory;

// Copies the bytes from a place on, as many as `piece` and the buffer allow.
fn give(bytes: &[u8], at: usize, piece: usize, buf: &mut [u8]) -> usize
    requires { at ≤ length bytes.now }
    ensures count { result ≡ min (length buf.old) (min piece (length bytes.now - at)) }
    ensures given { drop at bytes.now ≡ take result buf.new ++ drop (at + result) bytes.now }
{
    let count = buf.len().min(piece.min(bytes.len() - at));
    buf[..count].copy_from_slice(&bytes[at..at + count]);
    count
}

/// A source in memory: gives its bytes in pieces, and fails at the reads that a list names.
///
/// Reads are numbered from 0, those that fail too. A failed read gives nothing and loses nothing.
#[derive(Drop)]
pub struct MemSource {
    bytes: Vec<u8>,
    at: usize,
    piece: usize,
    failing: Vec<usize>,
    call: u64,
    faults: u64,
}

impl Model for MemSource {
    ghost use Rattle.std.specs.Prelude.{◌≤◌, ◌<◌, length, drop, vec_len};
    ghost use Rattle.zv_devices.specs.Memory.{SourceState};

    ghost Value = { SourceState };

    ghost view = { λ s. record {
      left = drop s.at s.bytes.items;
      piece = s.piece;
      failing = s.failing.items;
      call = s.call;
      faults = s.faults;
    } };

    ghost invariant = { λ s. (s.at ≤ vec_len s.bytes) × (0 < s.piece) };
}

impl MemSource {
    ghost use Rattle.std.specs.Prelude.{IfOk, ◌≡◌, ◌<◌};

    /// A source of a copy of `bytes`. One read gives at most `piece` of them; the reads in
    /// `failing` fail, and no other.
    pub fn new(
        alloc: Global,
        bytes: &[u8],
        piece: usize,
        failing: &[usize],
    ) -> Result<MemSource, NoMemory>
        requires { 0 < piece }
        ensures { IfOk result (λ s. s ≡ record {
          left = bytes.now;
          piece = piece;
          failing = failing.now;
          call = 0;
          faults = 0;
        }) }
    {
        let bytes = Vec::from_slice(alloc, bytes)?;
        let failing = Vec::from_slice(alloc, failing)?;
        Ok(MemSource {
            bytes,
            at: 0,
            piece,
            failing,
            call: 0,
            faults: 0,
        })
    }
}

impl Source for MemSource {
    ghost use Rattle.std.specs.Prelude.{◌≡◌, ◌↔◌, length, min, Some};
    ghost use Rattle.std.specs.Prelude.{Contains, IsErr, IfOk, OnErr};
    ghost use Rattle.std.specs.Io.{ReadsAtMost};
    ghost use Rattle.std.specs.Io.KnownBytes.{ReadConsumes};
    ghost use Rattle.zv_devices.specs.Devices.{HasCause};
    ghost use Rattle.zv_devices.specs.Memory.{after_read, after_fault};

    ghost left = { λ s. Some s.left };

    ghost faults = { λ s. s.faults };

    fn read(&mut self, buf: &mut [u8]) -> Result<usize, Failed>
        ensures bound { ReadsAtMost result buf.new }
        ensures bytes { ReadConsumes (Some self.old.left) (Some self.new.left) result buf.new }
        ensures cause { HasCause self.old.faults self.new.faults result }
        ensures fails { IsErr result ↔ Contains self.old.failing self.old.call }
        ensures count { IfOk result (λ n. n
            ≡ min (length buf.old) (min self.old.piece (length self.old.left))) }
        ensures ok { IfOk result (λ n. self.new ≡ after_read self.old n) }
        ensures err { OnErr result (self.new ≡ after_fault self.old) }
    {
        let call = self.call;
        self.call = call.saturating_add(1);
        if self.failing.contains(&(call as usize)) {
            self.faults = self.faults.saturating_add(1);
            return Err(Failed);
        }
        let count = give(&self.bytes, self.at, self.piece, buf);
        self.at += count;
        Ok(count)
    }
}

/// A sink in memory: takes bytes as far as its room goes, and fails at the writes that a list
/// names.
///
/// Writes are numbered from 0. A write whose piece is longer than the room left takes what fits,
/// and fails. Where no write is named, a count of faults above 0 means that the room is full.
#[derive(Drop)]
pub struct MemSink {
    taken: Vec<u8>,
    room: usize,
    keep: usize,
    failing: Vec<usize>,
    call: u64,
    faults: u64,
}

impl Model for MemSink {
    ghost use Rattle.std.specs.Prelude.{◌≡◌, ◌≤◌, ◌<◌, [], length, vec_len, vec_capacity};
    ghost use Rattle.zv_devices.specs.Memory.{SinkState};

    ghost Value = { SinkState };

    ghost view = { λ s. record {
      taken = s.taken.items;
      room = s.room;
      keep = s.keep;
      failing = s.failing.items;
      call = s.call;
      faults = s.faults;
    } };

    ghost invariant = { λ s. (vec_len s.taken ≤ s.room) × (s.room ≤ vec_capacity s.taken)
        × (s.failing.items ≡ [] → 0 < s.faults → vec_len s.taken ≡ s.room) };
}

impl MemSink {
    ghost use Rattle.std.specs.Prelude.{IfOk, ◌≡◌, ◌<◌, [], length};

    /// A sink that takes `room` bytes, for which it takes the memory at once. The writes in
    /// `failing` fail with at most `keep` bytes of their piece taken.
    pub fn new(
        alloc: Global,
        room: usize,
        keep: usize,
        failing: &[usize],
    ) -> Result<MemSink, NoMemory>
        ensures { IfOk result (λ s. s ≡ record {
          taken = [];
          room = room;
          keep = keep;
          failing = failing.now;
          call = 0;
          faults = 0;
        }) }
    {
        let taken = Vec::with_capacity(alloc, room)?;
        let failing = Vec::from_slice(alloc, failing)?;
        Ok(MemSink {
            taken,
            room,
            keep,
            failing,
            call: 0,
            faults: 0,
        })
    }

    /// The bytes that were taken so far.
    pub fn taken(&self) -> &[u8]
        ensures bytes { result.now ≡ self.now.taken }
        ensures full { self.now.failing ≡ [] → 0 < self.now.faults
            → length self.now.taken ≡ self.now.room }
    {
        // This line opens the value, so that its invariant is known.
        let _ = &self.room;
        &self.taken
    }
}

impl Sink for MemSink {
    ghost use Rattle.std.specs.Prelude.{◌≡◌, ◌↔◌, Some, IsErr, IsTrue};
    ghost use Rattle.zv_devices.specs.Devices.{HasCause};
    ghost use Rattle.zv_devices.specs.Devices.{Takes};
    ghost use Rattle.zv_devices.specs.Memory.{after_write, write_fails};

    ghost taken = { λ s. Some s.taken };

    ghost faults = { λ s. s.faults };

    fn write(&mut self, piece: &[u8]) -> Result<(), Failed>
        ensures bytes { Takes (Some self.old.taken) (Some self.new.taken) result piece.now }
        ensures cause { HasCause self.old.faults self.new.faults result }
        ensures exact { self.new ≡ after_write self.old piece.now }
        ensures fails { IsErr result ↔ IsTrue (write_fails self.old piece.now) }
    {
        let call = self.call;
        self.call = call.saturating_add(1);
        let room = self.room - self.taken.len();
        let fails = self.failing.contains(&(call as usize));
        let most = if fails { self.keep.min(room) } else { room };
        let count = piece.len().min(most);
        self.taken.extend_from_slice(&piece[..count]).unwrap();
        if fails || room < piece.len() {
            self.faults = self.faults.saturating_add(1);
            return Err(Failed);
        }
        Ok(())
    }
}
