// Readers and writers of std of which each call has a flaw in turn.
use crate::forms::{JoinedForm, PIECE, forms, is_told, join_form};
use std::alloc::Global;
use std::io;
use std::io::{Read, Write};
use std::process::Abort;
use std::test::Fail;
use zv_tool::{Status, StdSink, StdSource, run};

// What one call of a reader or a writer does.
#[derive(Clone, Copy, PartialEq, Eq)]
enum Flaw {
    // It fails, and neither gives nor takes a byte.
    Fails,
    // A signal interrupts it.
    Interrupted,
    // It moves one byte.
    Short,
    // It takes nothing.
    Nothing,
    // What was written isn't flushed.
    Unflushed,
}

// A reader or a writer of which the call with this number has a flaw. A read gives at most 64
// bytes.
#[derive(Drop)]
struct Flawed<D> {
    device: D,
    flaw: Flaw,
    at: u8,
    calls: u8,
}

impl<D> Flawed<D> {
    fn new(device: D, (flaw, at): (Flaw, u8)) -> Flawed<D> {
        Flawed {
            device,
            flaw,
            at,
            calls: 0,
        }
    }

    // The most bytes that this call moves.
    fn turn(&mut self, most: usize) -> io::Result<usize> {
        let call = self.calls;
        self.calls = call.saturating_add(1);
        if call != self.at {
            return Ok(most);
        }
        match self.flaw {
            Flaw::Fails => Err(io::Error::from(io::ErrorKind::InvalidData)),
            Flaw::Interrupted => Err(io::Error::from(io::ErrorKind::Interrupted)),
            Flaw::Short => Ok(most.min(1)),
            Flaw::Nothing => Ok(0),
            Flaw::Unflushed => Ok(most),
        }
    }
}

impl<D: Read> Read for Flawed<D> {
    fn read(&mut self, buf: &mut [u8]) -> io::Result<usize> {
        let most = self.turn(PIECE)?;
        let count = buf.len().min(most);
        self.device.read(&mut buf[..count])
    }
}

impl<D: Write> Write for Flawed<D> {
    fn write(&mut self, buf: &[u8]) -> io::Result<usize> {
        let most = self.turn(buf.len())?;
        let count = buf.len().min(most);
        self.device.write(&buf[..count])
    }

    // The flush after the write with the flaw fails.
    fn flush(&mut self) -> io::Result<()> {
        if self.flaw == Flaw::Unflushed && self.at < self.calls {
            return Err(io::Error::from(io::ErrorKind::InvalidData));
        }
        self.device.flush()
    }
}

// No call of a device has this number.
const NEVER: u8 = 255;

// A run whose reader or whose writer has a flaw at this call: how it ends, and how much of its
// output is written.
fn try_flaws(
    rt: &impl Abort,
    alloc: Global,
    joined: &JoinedForm,
    read: (Flaw, u8),
    write: (Flaw, u8),
    wanted: (Status, usize),
) {
    let mut out = Vec::new(alloc);
    let mut source = StdSource::new(Flawed::new(joined.input.as_slice(), read));
    let mut sink = StdSink::new(Flawed::new(&mut out, write));
    let status = run(alloc, &joined.words, &mut source, &mut sink);
    let call = usize::from(read.1.min(write.1));
    is_told(rt, joined, call, (status, &out), wanted);
}

// A run whose reader has a flaw at this call: where it fails nothing is written, and else the
// answer is whole.
fn try_read(rt: &impl Abort, alloc: Global, joined: &JoinedForm, flaw: Flaw, at: u8) {
    let wanted = if flaw == Flaw::Fails && at < joined.form.reads {
        (Status::ReadFault, 0)
    } else {
        joined.whole()
    };
    try_flaws(rt, alloc, joined, (flaw, at), (Flaw::Fails, NEVER), wanted);
}

#[test]
fn each_read_of_std_can_have_a_flaw(rt: HostRuntime) -> Result<(), Fail> {
    for form in forms() {
        let joined = join_form(rt.alloc(), form)?;
        for at in 0..=form.reads {
            for flaw in [Flaw::Fails, Flaw::Interrupted, Flaw::Short] {
                try_read(&rt, rt.alloc(), &joined, flaw, at);
            }
        }
    }
    Ok(())
}

// A run whose writer has a flaw at this write: where it is one that is made good the answer is
// whole, and else what comes before that write is written, with it where only the flush failed.
fn try_write(rt: &impl Abort, alloc: Global, joined: &JoinedForm, flaw: Flaw, at: u8) {
    let write = usize::from(at);
    let is_made_good = matches!(flaw, Flaw::Interrupted | Flaw::Short);
    let wanted = if is_made_good || joined.starts.len() <= write {
        joined.whole()
    } else {
        let whole = write.saturating_add(usize::from(flaw == Flaw::Unflushed));
        (Status::WriteFault, joined.start(whole))
    };
    try_flaws(rt, alloc, joined, (Flaw::Fails, NEVER), (flaw, at), wanted);
}

const WRITE_FLAWS: [Flaw; 5] = [
    Flaw::Fails,
    Flaw::Interrupted,
    Flaw::Short,
    Flaw::Nothing,
    Flaw::Unflushed,
];

#[test]
fn each_write_of_std_can_have_a_flaw(rt: HostRuntime) -> Result<(), Fail> {
    for form in forms() {
        let joined = join_form(rt.alloc(), form)?;
        for flaw in WRITE_FLAWS {
            for at in 0..3 {
                try_write(&rt, rt.alloc(), &joined, flaw, at);
            }
        }
    }
    Ok(())
}
