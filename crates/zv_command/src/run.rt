// Reads and answers any request.
ghost use Rattle.std.specs.Prelude.{◌≡◌};
ghost use Rattle.zv_command.specs.Inputs.{input_due};
ghost use Rattle.zv_command.specs.Runs.{Runs, Wanted};

use crate::reader::{ReadError, read_input};
use crate::request::Request;
use crate::status::Status;
use crate::texts::name_line;
use std::alloc::Global;
use zv_devices::{Sink, Source};

/// Reads the source to its end, adds its lines to a request, and answers.
pub fn run_request<C: Request, S: Source, K: Sink>(
    alloc: Global,
    request: C,
    source: &mut S,
    sink: &mut K,
) -> Status
    requires { C.size request ≡ 0 }
    ensures { Runs S.left S.faults K.taken K.faults source.old source.new sink.old sink.new result
        (Wanted.of_input (input_due C.with_line C.due request)) }
{
    match read_input(alloc, request, source) {
        Ok((first, request)) => request.answer(alloc, &first, sink),
        Err(ReadError::BadLine(number)) => name_line(alloc, number, sink),
        Err(ReadError::Memory) => Status::Memory,
        Err(ReadError::Fault) => Status::ReadFault,
        Err(ReadError::TooLong) => Status::TooLong,
    }
}
