// Devices in memory of which each read and each write fails in turn.
use crate::forms::{JoinedForm, PIECE, forms, is_told, join_form};
use std::alloc::Global;
use std::process::Abort;
use std::test::Fail;
use zv_runs::{answer_of, devices_with_faults};
use zv_tool::Status;

// A run of which this call fails: at these reads and writes devices do, and a write keeps some
// bytes. How it ends, and how much of its output is written.
fn try_faults(
    rt: &impl Abort,
    alloc: Global,
    joined: &JoinedForm,
    call: usize,
    (reads, writes, keep): (&[usize], &[usize], usize),
    wanted: (Status, usize),
) -> Result<(), Fail> {
    let devices = devices_with_faults(alloc, &joined.input, PIECE, reads, keep, writes)?;
    let answer = answer_of(alloc, &joined.words, devices);
    let told = (answer.status, answer.sink.taken());
    is_told(rt, joined, call, told, wanted);
    Ok(())
}

// A run whose source fails at this read: nothing is written. A run that makes no such read is
// answered whole.
fn try_read(rt: &impl Abort, alloc: Global, joined: &JoinedForm, read: u8) -> Result<(), Fail> {
    let call = usize::from(read);
    let wanted = if read < joined.form.reads {
        (Status::ReadFault, 0)
    } else {
        joined.whole()
    };
    try_faults(rt, alloc, joined, call, (&[call], &[], 0), wanted)
}

#[test]
fn each_read_can_fail(rt: HostRuntime) -> Result<(), Fail> {
    for form in forms() {
        let joined = join_form(rt.alloc(), form)?;
        for read in 0..=form.reads {
            try_read(&rt, rt.alloc(), &joined, read)?;
        }
    }
    Ok(())
}

// A run whose sink fails at this write, of which it keeps some bytes: what comes before that write
// is written, and what was kept of it.
fn try_write(
    rt: &impl Abort,
    alloc: Global,
    joined: &JoinedForm,
    write: usize,
    keep: usize,
) -> Result<(), Fail> {
    let wanted = if write < joined.starts.len() {
        let kept = joined.start(write).saturating_add(keep);
        (Status::WriteFault, kept.min(joined.start(write + 1)))
    } else {
        joined.whole()
    };
    try_faults(rt, alloc, joined, write, (&[], &[write], keep), wanted)
}

#[test]
fn each_write_can_fail(rt: HostRuntime) -> Result<(), Fail> {
    for form in forms() {
        let joined = join_form(rt.alloc(), form)?;
        for write in 0..=joined.starts.len() {
            for keep in [0, 3, 64] {
                try_write(&rt, rt.alloc(), &joined, write, keep)?;
            }
        }
    }
    Ok(())
}
