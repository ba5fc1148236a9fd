// Writes texts that are one write.
ghost use Rattle.std.specs.Prelude.{◌≤◌};
ghost use Rattle.zv_command.specs.Due.{Sent, Tells, bad_line_due};

use crate::status::Status;
use std::alloc::Global;
use zv_devices::{Failed, Sink};

/// Writes a text.
pub fn send<K: Sink>(sink: &mut K, text: &[u8], status: Status) -> Status
    ensures sent { Sent result status text.now (K.taken sink.old) (K.taken sink.new)
        (K.faults sink.old) (K.faults sink.new) }
    ensures later { K.faults sink.old ≤ K.faults sink.new }
{
    match sink.write(text) {
        Ok(()) => status,
        Err(Failed) => Status::WriteFault,
    }
}

/// Names the first bad line.
pub fn name_line<K: Sink>(alloc: Global, number: u64, sink: &mut K) -> Status
    ensures { Tells K.taken K.faults sink.old sink.new result (bad_line_due number) }
{
    let Ok(text) = format!(in alloc; "error line {number}\n") else {
        return Status::Memory;
    };
    send(sink, text.as_bytes(), Status::BadLine)
}
