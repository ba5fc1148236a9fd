// Devices that fail, that never fail, and that stand over std's readers and writers.
use crate::cases::{EMPTY, PAIR};
use crate::runs::{Devices, answer_of, failing_devices, join, words_of};
use std::alloc::Global;
use std::io;
use std::io::{Read, Write};
use std::process::Abort;
use std::test::Fail;
use zv_tool::{CountSink, Failed, Sink, Source, Status, StdSink, StdSource, SteadySource, run};

// A run of the edit ends so, and wrote this.
fn try_failing(
    rt: &impl Abort,
    alloc: Global,
    devices: Devices,
    status: Status,
    written: &[u8],
) -> Result<(), Fail> {
    let words = words_of(alloc, &["edit"])?;
    let answer = answer_of(alloc, &words, devices);
    assert!(rt; answer.status == status);
    assert!(rt; answer.sink.taken() == written);
    Ok(())
}

#[test]
fn failing_devices_are_told(rt: HostRuntime) -> Result<(), Fail> {
    let alloc = rt.alloc();
    let input = join(alloc, &["x", PAIR, "\nget x61 x62\n"])?;
    for read in [0, 7] {
        let devices = failing_devices(alloc, &input, &[read], &[])?;
        try_failing(&rt, alloc, devices, Status::ReadFault, b"")?;
    }
    let devices = failing_devices(alloc, &input, &[], &[0])?;
    try_failing(&rt, alloc, devices, Status::WriteFault, b"som")
}

#[test]
fn a_failing_sink_takes_a_front_of_a_reply(rt: HostRuntime) -> Result<(), Fail> {
    let alloc = rt.alloc();
    let input = join(alloc, &["x", EMPTY, "\nput x61 x62 x01\n"])?;
    let devices = failing_devices(alloc, &input, &[], &[0])?;
    try_failing(&rt, alloc, devices, Status::WriteFault, b"new")
}

#[test]
fn devices_that_never_fail(rt: HostRuntime) -> Result<(), Fail> {
    let alloc = rt.alloc();
    let words = words_of(alloc, &["edit"])?;
    let input = join(alloc, &["x", EMPTY, "\nput x61 x62 x01\n"])?;
    let mut source = SteadySource::new(&input);
    let mut sink = CountSink::new();
    assert!(rt; run(alloc, &words, &mut source, &mut sink) == Status::Done);
    assert!(rt; sink.count() == 102);
    Ok(())
}

// A reader that fails at once.
#[derive(Drop)]
struct Broken;

impl Read for Broken {
    fn read(&mut self, _buf: &mut [u8]) -> io::Result<usize> {
        Err(io::Error::from(io::ErrorKind::InvalidData))
    }
}

// A writer that takes nothing.
#[derive(Drop)]
struct Stuck;

impl Write for Stuck {
    fn write(&mut self, _buf: &[u8]) -> io::Result<usize> {
        Ok(0)
    }

    fn flush(&mut self) -> io::Result<()> {
        Ok(())
    }
}

#[test]
fn a_reader_of_std_is_a_source(rt: HostRuntime) -> Result<(), Fail> {
    let mut buf = [0u8; 4];
    let mut source = StdSource::new(b"abc".as_slice());
    assert!(rt; source.read(&mut buf) == Ok(3));
    assert!(rt; &buf[..3] == b"abc".as_slice());
    assert!(rt; source.read(&mut buf) == Ok(0));
    let mut broken = StdSource::new(Broken);
    assert!(rt; broken.read(&mut buf) == Err(Failed));
    Ok(())
}

#[test]
fn a_writer_of_std_is_a_sink(rt: HostRuntime) -> Result<(), Fail> {
    let mut out = Vec::new(rt.alloc());
    let mut sink = StdSink::new(&mut out);
    assert!(rt; sink.write(b"abc") == Ok(()));
    let mut stuck = StdSink::new(Stuck);
    assert!(rt; stuck.write(b"abc") == Err(Failed));
    assert!(rt; stuck.write(b"") == Ok(()));
    assert!(rt; out.as_slice() == b"abc".as_slice());
    Ok(())
}

// A writer that takes two bytes at a time and counts its flushes.
#[derive(Drop)]
struct Slow {
    taken: Vec<u8>,
    flushes: usize,
}

impl Write for Slow {
    fn write(&mut self, buf: &[u8]) -> io::Result<usize> {
        let count = buf.len().min(2);
        self.taken.write(&buf[..count])
    }

    fn flush(&mut self) -> io::Result<()> {
        self.flushes = self.flushes.saturating_add(1);
        Ok(())
    }
}

#[test]
fn each_piece_is_written_whole_and_flushed(rt: HostRuntime) -> Result<(), Fail> {
    let mut slow = Slow {
        taken: Vec::new(rt.alloc()),
        flushes: 0,
    };
    let mut sink = StdSink::new(&mut slow);
    assert!(rt; sink.write(b"abcde") == Ok(()));
    assert!(rt; sink.write(b"") == Ok(()));
    assert!(rt; slow.taken.as_slice() == b"abcde".as_slice());
    assert!(rt; slow.flushes == 2);
    Ok(())
}

// A reader and a writer of which a signal interrupts every other call.
#[derive(Drop)]
struct Interrupted<D> {
    device: D,
    is_next: bool,
}

impl<D> Interrupted<D> {
    // Whether this call is one that is interrupted.
    fn turn(&mut self) -> io::Result<()> {
        self.is_next = !self.is_next;
        if self.is_next {
            return Ok(());
        }
        Err(io::Error::from(io::ErrorKind::Interrupted))
    }
}

impl<D: Read> Read for Interrupted<D> {
    fn read(&mut self, buf: &mut [u8]) -> io::Result<usize> {
        self.turn()?;
        let count = buf.len().min(7);
        self.device.read(&mut buf[..count])
    }
}

impl<D: Write> Write for Interrupted<D> {
    fn write(&mut self, buf: &[u8]) -> io::Result<usize> {
        self.turn()?;
        self.device.write(buf)
    }

    fn flush(&mut self) -> io::Result<()> {
        self.device.flush()
    }
}

#[test]
fn what_a_signal_interrupts_is_done_again(rt: HostRuntime) -> Result<(), Fail> {
    let alloc = rt.alloc();
    let words = words_of(alloc, &["edit"])?;
    let input = join(alloc, &["x", EMPTY, "\nget x61 x62\n"])?;
    let mut source = StdSource::new(Interrupted {
        device: input.as_slice(),
        is_next: true,
    });
    let mut slow = Slow {
        taken: Vec::new(alloc),
        flushes: 0,
    };
    let mut sink = StdSink::new(Interrupted {
        device: &mut slow,
        is_next: true,
    });
    assert!(rt; run(alloc, &words, &mut source, &mut sink) == Status::Done);
    let answer = join(alloc, &["none\nimage x", EMPTY, "\n"])?;
    assert!(rt; slow.taken == answer);
    Ok(())
}

// A writer whose flush fails.
#[derive(Drop)]
struct Unflushed;

impl Write for Unflushed {
    fn write(&mut self, buf: &[u8]) -> io::Result<usize> {
        Ok(buf.len())
    }

    fn flush(&mut self) -> io::Result<()> {
        Err(io::Error::from(io::ErrorKind::InvalidData))
    }
}

#[test]
fn a_failed_flush_is_told(rt: HostRuntime) {
    let mut sink = StdSink::new(Unflushed);
    assert!(rt; sink.write(b"a") == Err(Failed));
}

// A reader that gives a byte, then fails once, and then ends.
#[derive(Drop)]
struct Halting {
    calls: usize,
}

impl Read for Halting {
    fn read(&mut self, buf: &mut [u8]) -> io::Result<usize> {
        self.calls = self.calls.saturating_add(1);
        if self.calls == 2 {
            return Err(io::Error::from(io::ErrorKind::InvalidData));
        }
        if self.calls > 2 || buf.is_empty() {
            return Ok(0);
        }
        buf[0] = b'x';
        Ok(1)
    }
}

#[test]
fn a_failed_read_is_no_end(rt: HostRuntime) -> Result<(), Fail> {
    let alloc = rt.alloc();
    let words = words_of(alloc, &["edit"])?;
    let mut source = StdSource::new(Halting { calls: 0 });
    let mut sink = CountSink::new();
    assert!(rt; run(alloc, &words, &mut source, &mut sink) == Status::ReadFault);
    assert!(rt; sink.count() == 0);
    Ok(())
}
