// The line of an image.
ghost use Rattle.std.specs.Prelude.{◌≡◌, ◌++◌, [], OnOk};
ghost use Rattle.hex.specs.Hex.{encode_lower};
ghost use Rattle.zv_map2d.specs.Formats.{head_of};
ghost use Rattle.zv_map2d.specs.Frame.{frame};
ghost use Rattle.zv_map2d.specs.Views.{bytes_of};
ghost use Rattle.zv_var.specs.Frame.{framed};
ghost use Rattle.zv_command.specs.Sending.{Sends};
ghost use Rattle.zv_image.specs.Text.{image_line};

use zv_command::Output;
use zv_devices::{Failed, Sink};
use zv_map2d::{Parts, WideLists};
use zv_var::frame::part_len;

// Writes the hex digits of a part after its length.
#[tactic(auto, using(zv_command::proofs::Sending::sends_more, crate::proofs::Parts::in_two))]
fn write_part<K: Sink>(out: &mut Output<'_, K>, part: &[u8]) -> Result<(), Failed>
    ensures { Sends K.taken K.faults out.old out.new result (encode_lower (framed part.now)) }
{
    out.write_hex(&part_len(part))?;
    out.write_hex(part)
}

// Writes the hex digits of the frame of four parts.
#[tactic(auto, using(zv_command::proofs::Sending::sends_more, crate::proofs::Parts::in_four))]
fn write_parts<K: Sink>(out: &mut Output<'_, K>, parts: Parts<'_>) -> Result<(), Failed>
    ensures { Sends K.taken K.faults out.old out.new result
        (encode_lower (frame (bytes_of parts.entry))) }
{
    write_part(out, parts.keys0)?;
    write_part(out, parts.joiner)?;
    write_part(out, parts.keys1)?;
    write_part(out, parts.values)
}

// Writes the hex digits of the head that names the lists that are wide, if any is.
fn write_head<K: Sink>(out: &mut Output<'_, K>, lists: WideLists) -> Result<(), Failed>
    ensures { Sends K.taken K.faults out.old out.new result (encode_lower (head_of lists)) }
{
    if !lists.is_any() {
        return Ok(());
    }
    out.write_hex(&lists.head())
}

// Writes the hex digits of the image of four parts, of which these lists are wide.
#[tactic(auto, using(zv_command::proofs::Sending::sends_more, crate::proofs::Parts::after_head))]
fn write_digits<K: Sink>(
    out: &mut Output<'_, K>,
    lists: WideLists,
    parts: Parts<'_>,
) -> Result<(), Failed>
    ensures { Sends K.taken K.faults out.old out.new result
        (encode_lower (head_of lists ++ frame (bytes_of parts.entry))) }
{
    write_head(out, lists)?;
    write_parts(out, parts)
}

/// Writes the line of the image of four parts, of which these lists are wide, and sends it.
#[tactic(auto, using(zv_command::proofs::Sending::sends_more))]
pub fn write_image<K: Sink>(
    out: &mut Output<'_, K>,
    lists: WideLists,
    parts: Parts<'_>,
) -> Result<(), Failed>
    ensures text { Sends K.taken K.faults out.old out.new result
        (image_line (head_of lists ++ frame (bytes_of parts.entry))) }
    ensures sent { OnOk result (out.new.piece ≡ []) }
{
    out.write(b"image x")?;
    write_digits(out, lists, parts)?;
    out.write(b"\n")?;
    out.send()
}
