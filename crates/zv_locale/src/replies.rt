// What asks are answered.
ghost use Rattle.std.specs.Prelude.{◌≡◌, ◌++◌, [], OnOk, Some, codes, option_map};
ghost use Rattle.std.specs.List.{All};
ghost use Rattle.zv_command.specs.Sending.{Sends};
ghost use Rattle.zv_command.specs.Text.{hex_field};
ghost use Rattle.zv_devices.specs.Devices.{HasCause, Takes};
ghost use Rattle.zv_locale.specs.Asks.{IsAsk, answer_to, answers, found_line};
ghost use Rattle.zv_locale.specs.Texts.{name_and_value};

use crate::lookup::{Provided, provide};
use crate::wanted::Wanted;
use zv_command::Output;
use zv_devices::{Failed, Sink};
use zv_input::Command;
use zv_map2d::ImageMap;

// What an ask is provided.
fn answer_to<'l>(map: &'l ImageMap<'_>, ask: &'l Command) -> Option<Provided<'l>>
    requires { IsAsk ask.now }
    ensures { option_map name_and_value result ≡ answer_to map.now.rows ask.now }
{
    match ask {
        Command::Get { key0, key1 } => provide(map, key0.as_str(), Wanted::of(key1.as_str())),
        _ => unreachable!(),
    }
}

// Writes a name and its value.
#[tactic(auto, using(zv_command::proofs::Sending::sends_more))]
fn write_fields<K: Sink>(out: &mut Output<'_, K>, name: &[u8], value: &[u8]) -> Result<(), Failed>
    ensures { Sends K.taken K.faults out.old out.new result
        ((codes "some " ++ hex_field name.now) ++ (codes " " ++ hex_field value.now)) }
{
    out.write_field(b"some x", name)?;
    out.write_field(b" x", value)
}

// Writes the line of a name and its value.
#[tactic(auto, using(zv_command::proofs::Sending::sends_more))]
fn write_found<K: Sink>(out: &mut Output<'_, K>, found: &Provided<'_>) -> Result<(), Failed>
    ensures { Sends K.taken K.faults out.old out.new result
        (found_line (Some (name_and_value found.now))) }
{
    write_fields(out, found.name.as_bytes(), found.value.as_bytes())?;
    out.write(b"\n")
}

// Writes the line of what an ask is provided.
fn write_answer<K: Sink>(
    out: &mut Output<'_, K>,
    map: &ImageMap<'_>,
    ask: &Command,
) -> Result<(), Failed>
    requires { IsAsk ask.now }
    ensures { Sends K.taken K.faults out.old out.new result
        (found_line (answer_to map.now.rows ask.now)) }
{
    match answer_to(map, ask) {
        Some(found) => write_found(out, &found),
        None => out.write(b"none\n"),
    }
}

// Writes the lines of what asks are provided, and sends them.
#[tactic(auto, using(crate::proofs::Common::sends_each))]
fn write_answers<K: Sink>(
    out: &mut Output<'_, K>,
    map: &ImageMap<'_>,
    asks: &[Command],
) -> Result<(), Failed>
    requires { All IsAsk asks.now }
    ensures text { Sends K.taken K.faults out.old out.new result (answers map.now.rows asks.now) }
    ensures sent { OnOk result (out.new.piece ≡ []) }
{
    for ask in asks {
        write_answer(out, map, ask)?;
    }
    out.send()
}

/// Tells what asks are provided. It takes no memory.
pub(crate) fn tell<K: Sink>(
    map: &ImageMap<'_>,
    asks: &[Command],
    sink: &mut K,
) -> Result<(), Failed>
    requires { All IsAsk asks.now }
    ensures text { Takes (K.taken sink.old) (K.taken sink.new) result
        (answers map.now.rows asks.now) }
    ensures cause { HasCause (K.faults sink.old) (K.faults sink.new) result }
{
    write_answers(&mut Output::new(sink), map, asks)
}
