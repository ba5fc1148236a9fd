// Requests.
ghost use Rattle.std.specs.Prelude.{◌≡◌, ◌≤◌, ◌+◌, List, ℕ, Option, IfOk, OnOk, length};
ghost use Rattle.zv_command.specs.Due.{Tells};
ghost use Rattle.zv_command.specs.Inputs.{AddsLine};

use crate::reader::MAX_INPUT;
use crate::status::Status;
use std::alloc::Global;
use zv_devices::Sink;
use zv_ule::NoMemory;

/// What is asked of the bytes that the first line of an input stands for: the further lines are
/// added to it, and then it answers.
pub trait Request: Drop {
    ghost use Rattle.zv_command.specs.Due.{Due};

    /// What one more line makes of it, or nothing where the line is bad.
    ghost with_line: { Self → List ℕ → Option Self };

    /// How large it is.
    ghost size: { Self → ℕ };

    /// What is due to it for the bytes of the first line.
    ghost due: { List ℕ → Self → Due };

    /// Adds a line, or answers `false` where the line is bad. It grows by no more than the line's
    /// length.
    fn add_line(&mut self, alloc: Global, line: &[u8]) -> Result<bool, NoMemory>
        requires { size self.old + length line.now ≤ MAX_INPUT }
        ensures line { IfOk result (AddsLine (with_line self.old line.now) self.new) }
        ensures size { OnOk result (size self.new ≤ size self.old + length line.now) };

    /// Answers, for the bytes of the first line.
    fn answer<K: Sink>(&self, alloc: Global, first: &[u8], sink: &mut K) -> Status
        ensures { Tells K.taken K.faults sink.old sink.new result (due first.now self.now) };
}
