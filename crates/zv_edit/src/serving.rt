// Runs commands on a map that has room for them.
ghost use Rattle.std.specs.Prelude.{◌≡◌, ℕ, [], take, OnErr, OnOk};
ghost use Rattle.zv_edit.specs.Answers.{answers, last, reply_lines};
ghost use Rattle.zv_map2d.specs.Room.{IsReady};
ghost use Rattle.zv_devices.specs.Devices.{HasCause, Takes};
ghost use Rattle.zv_image.specs.Room.{HasRoomOf};
ghost use Rattle.zv_input.specs.Sizes.{put_sizes};
ghost use Rattle.zv_command.specs.Sending.{Sends};

use crate::replies::run_command;
use zv_command::Output;
use zv_devices::{Failed, Sink};
use zv_image::write_image;
use zv_input::{CommandIter, Commands};
use zv_map2d::{ImageMap, wide_lists};

// Runs commands, writes their replies, and sends them.
fn run_commands<K: Sink>(
    out: &mut Output<'_, K>,
    map: &mut ImageMap<'_>,
    commands: CommandIter<'_>,
) -> Result<(), Failed>
    requires { HasRoomOf (put_sizes commands) map.old }
    ensures text { Sends K.taken K.faults out.old out.new result
        (reply_lines map.old.rows commands.entry) }
    ensures ok { OnOk result (map.new.rows ≡ last map.old.rows commands.entry) }
    ensures ready { OnOk result (IsReady map.new) }
    ensures failed { OnErr result ((n : ℕ)
        × (map.new.rows ≡ last map.old.rows (take n commands.entry))) }
{
    for command in commands {
        run_command(out, map, command)?;
    }
    out.send()
}

// Runs commands, and writes and sends the whole answer.
#[tactic(auto, using(zv_command::proofs::Sending::sends_more))]
fn write_answer<K: Sink>(
    out: &mut Output<'_, K>,
    map: &mut ImageMap<'_>,
    commands: CommandIter<'_>,
) -> Result<(), Failed>
    requires { HasRoomOf (put_sizes commands) map.old }
    ensures text { Sends K.taken K.faults out.old out.new result
        (answers map.old.rows commands.entry) }
    ensures sent { OnOk result (out.new.piece ≡ []) }
    ensures ok { OnOk result (map.new.rows ≡ last map.old.rows commands.entry) }
    ensures failed { OnErr result ((n : ℕ)
        × (map.new.rows ≡ last map.old.rows (take n commands.entry))) }
{
    run_commands(out, map, commands)?;
    map.settle();
    write_image(out, wide_lists(map), map.canon_parts())
}

/// As [`serve`], for commands that are left to come.
pub(crate) fn serve_all<K: Sink>(
    map: &mut ImageMap<'_>,
    commands: CommandIter<'_>,
    sink: &mut K,
) -> Result<(), Failed>
    requires room { HasRoomOf (put_sizes commands) map.old }
    ensures text { Takes (K.taken sink.old) (K.taken sink.new) result
        (answers map.old.rows commands.entry) }
    ensures ok { OnOk result (map.new.rows ≡ last map.old.rows commands.entry) }
    ensures failed { OnErr result ((n : ℕ)
        × (map.new.rows ≡ last map.old.rows (take n commands.entry))) }
    ensures cause { HasCause (K.faults sink.old) (K.faults sink.new) result }
{
    write_answer(&mut Output::new(sink), map, commands)
}

/// Runs commands on the map of an image, in order, and writes the reply of each as it runs and then
/// the line of the canonical image of the map that they leave.
///
/// It takes no memory: the map has to have room for the puts among the commands, as
/// [`reserve_for`](zv_map2d::Map2dOver::reserve_for) makes it. The replies go to the sink in pieces
/// of 4096 bytes and what is left of them, and then the image's line does, so there is at most one
/// write for each 4096 bytes of either or part of them.
///
/// # Errors
/// `Failed` where a write failed. The sink has then taken a prefix of the text, and the map is the
/// one that a prefix of the commands leaves.
pub fn serve<K: Sink>(
    map: &mut ImageMap<'_>,
    commands: &Commands,
    sink: &mut K,
) -> Result<(), Failed>
    requires room { HasRoomOf (put_sizes commands.now) map.old }
    ensures text { Takes (K.taken sink.old) (K.taken sink.new) result
        (answers map.old.rows commands.now) }
    ensures ok { OnOk result (map.new.rows ≡ last map.old.rows commands.now) }
    ensures failed { OnErr result ((n : ℕ)
        × (map.new.rows ≡ last map.old.rows (take n commands.now))) }
    ensures cause { HasCause (K.faults sink.old) (K.faults sink.new) result }
{
    serve_all(map, commands.iter(), sink)
}
