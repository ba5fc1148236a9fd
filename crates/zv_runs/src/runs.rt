// Runs of the program over devices in memory.
use std::alloc::Global;
use zv_tool::{MemSink, MemSource, NoMemory, Status, Words, run};

/// A source and a sink.
#[derive(Drop)]
pub struct Devices {
    source: MemSource,
    sink: MemSink,
}

/// How a run ended, and its sink.
#[derive(Drop)]
pub struct Answer {
    /// How the run ended.
    pub status: Status,
    /// The sink, with what was written.
    pub sink: MemSink,
}

/// A source that gives at most `piece` bytes at once, and a sink for 2,000 bytes; they fail at the
/// reads and the writes with these numbers. A write that fails takes at most `keep` bytes.
pub fn devices_with_faults(
    alloc: Global,
    input: &[u8],
    piece: usize,
    reads: &[usize],
    keep: usize,
    writes: &[usize],
) -> Result<Devices, NoMemory> {
    let source = MemSource::new(alloc, input, piece.max(1), reads)?;
    let sink = MemSink::new(alloc, 2_000, keep, writes)?;
    Ok(Devices { source, sink })
}

/// A source that gives at most `piece` bytes at once, and a sink for `room` bytes.
pub fn memory_devices(
    alloc: Global,
    input: &[u8],
    piece: usize,
    room: usize,
) -> Result<Devices, NoMemory> {
    let source = MemSource::new(alloc, input, piece.max(1), &[])?;
    let sink = MemSink::new(alloc, room, 0, &[])?;
    Ok(Devices { source, sink })
}

/// A source that gives at most 10 bytes at once, and a sink; they fail at the reads and the writes
/// with these numbers. A write that fails takes at most three bytes.
pub fn failing_devices(
    alloc: Global,
    input: &[u8],
    reads: &[usize],
    writes: &[usize],
) -> Result<Devices, NoMemory> {
    devices_with_faults(alloc, input, 10, reads, 3, writes)
}

/// Runs the program.
pub fn answer_of(alloc: Global, words: &Words, mut devices: Devices) -> Answer {
    let status = run(alloc, words, &mut devices.source, &mut devices.sink);
    Answer {
        status,
        sink: devices.sink,
    }
}

/// The words of a command line.
pub fn words_of(alloc: Global, words: &[&str]) -> Result<Words, NoMemory> {
    let mut list = Words::new(alloc);
    for word in words {
        list.push(word)?;
    }
    Ok(list)
}

/// Pieces of a text, one after another.
pub fn join(alloc: Global, pieces: &[&str]) -> Result<Vec<u8>, NoMemory> {
    let mut text = Vec::new(alloc);
    for piece in pieces {
        text.extend_from_slice(piece.as_bytes())?;
    }
    Ok(text)
}
