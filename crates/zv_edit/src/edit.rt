// Commands that run on the map of an image.
ghost use Rattle.std.specs.Prelude.{◌≡◌, ◌≤◌};
ghost use Rattle.std.specs.Prelude.{IsTrue, IfErr, OnOk, IsErrOf, None, Some};
ghost use Rattle.zv_map2d.specs.Causes.{is_cause};
ghost use Rattle.zv_map2d.specs.Image.{fault};
ghost use Rattle.zv_edit.specs.Answers.{IsAnswer};
ghost use Rattle.zv_devices.specs.Devices.{Rose, Written, CutShort};

use crate::serving::{serve, serve_all};
use std::alloc::Global;
use std::marker::Model;
use zv_command::{Request, Status};
use zv_devices::{Failed, Sink};
use zv_image::{refuse, reserve, status_of};
use zv_input::{CommandLines, Commands};
use zv_map2d::{EditError, parse_image};
use zv_ule::NoMemory;

/// Runs commands on the map of an image, in order: a reply for each, and the line of the canonical
/// image of the map that they leave.
///
/// The image is copied once, with room for all puts, so memory is refused before the first byte and
/// never after it; [`serve`] does the rest. A refused image takes no memory and writes nothing.
#[tactic(auto, using(zv_map2d_laws::proofs::Standing::few_pairs))]
pub fn edit2d<K: Sink>(
    alloc: Global,
    image: &[u8],
    commands: &Commands,
    sink: &mut K,
) -> Result<(), EditError>
    ensures ok { OnOk result
        (Written (IsAnswer image.now commands.now) (K.taken sink.old) (K.taken sink.new)) }

    // A cause comes exactly where the image has one, and it is that one.
    ensures valid { OnOk result (fault image.now ≡ None) }
    ensures cause { IfErr result (λ e. IsTrue (is_cause e) → fault image.now ≡ Some e) }
    ensures memory { IsErrOf result EditError.Memory → fault image.now ≡ None }
    ensures write { IsErrOf result EditError.Write
        → (fault image.now ≡ None) × Rose (K.faults sink.old) (K.faults sink.new) }
    ensures later { K.faults sink.old ≤ K.faults sink.new }

    // Whatever the error, nothing but a prefix of the answer was written, and nothing where it is
    // not Write.
    ensures untouched { IfErr result (λ e. (e ≡ EditError.Write → ⊥) → sink.new ≡ sink.old) }
    ensures in_part { IsErrOf result EditError.Write
        → CutShort (IsAnswer image.now commands.now) (K.taken sink.old) (K.taken sink.new) }
{
    let mut map = parse_image(image)?;
    if reserve(alloc, &mut map, commands.put_sizes()).is_err() {
        return Err(EditError::Memory);
    }
    match serve(&mut map, commands, sink) {
        Ok(()) => Ok(()),
        Err(Failed) => Err(EditError::Write),
    }
}

/// Commands, each of which is a line.
#[derive(Drop)]
pub struct Edit {
    commands: CommandLines,
}

impl Model for Edit {
    ghost use Rattle.std.specs.Prelude.{List};
    ghost use Rattle.zv_input.specs.declared.command.Command.{Command};

    ghost Value = { List Command };

    ghost view = { λ e. e.commands };
}

impl Edit {
    ghost use Rattle.std.specs.Prelude.{◌≡◌, []};

    /// No commands. It takes no memory yet.
    pub fn new(alloc: Global) -> Edit
        ensures { result ≡ [] }
    {
        Edit {
            commands: CommandLines::new(alloc),
        }
    }
}

impl Request for Edit {
    ghost use Rattle.zv_input.specs.Commands.{total_size};
    ghost use Rattle.zv_edit.specs.Requests.{edit_due, with_command};

    ghost with_line = { with_command };

    ghost size = { total_size };

    ghost due = { edit_due };

    fn add_line(&mut self, _alloc: Global, line: &[u8]) -> Result<bool, NoMemory> {
        self.commands.add_line(line)
    }

    #[tactic(auto, using(zv_map2d_laws::proofs::Standing::few_pairs))]
    fn answer<K: Sink>(&self, alloc: Global, image: &[u8], sink: &mut K) -> Status {
        let mut map = match parse_image(image) {
            Ok(map) => map,
            Err(cause) => return refuse(sink, cause),
        };
        if reserve(alloc, &mut map, self.commands.put_sizes()).is_err() {
            return Status::Memory;
        }
        status_of(serve_all(&mut map, self.commands.iter(), sink))
    }
}
