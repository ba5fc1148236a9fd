// Lines of a value, which may be missing.
ghost use Rattle.std.specs.Prelude.{◌++◌};
ghost use Rattle.std.specs.Option.{option_map, option_map_or};
ghost use Rattle.hex.specs.Hex.{encode_lower};
ghost use Rattle.zv_ule.specs.Views.{element_of};
ghost use Rattle.zv_command.specs.Sending.{Sends};
ghost use Rattle.zv_command.specs.Text.{line};

use crate::output::Output;
use zv_devices::{Failed, Sink};
use zv_ule::{SliceULE, VarRef};

/// Writes a line of a head, which ends with the mark of a field, and a value.
#[tactic(auto, using(crate::proofs::Sending::sends_more))]
#[inline(always)]
pub fn write_value<K: Sink>(
    out: &mut Output<'_, K>,
    head: &[u8],
    value: &[u8],
) -> Result<(), Failed>
    ensures { Sends K.taken K.faults out.old out.new result
        (line (head.now ++ encode_lower value.now)) }
{
    out.write_field(head, value)?;
    out.write(b"\n")
}

/// Writes a line of a head and a value, or another text where there is none.
#[inline(always)]
pub fn write_found<K: Sink>(
    out: &mut Output<'_, K>,
    found: Option<VarRef<'_, SliceULE<u8>>>,
    head: &[u8],
    missing: &[u8],
) -> Result<(), Failed>
    ensures { Sends K.taken K.faults out.old out.new result (option_map_or
        (λ value. line (head.now ++ encode_lower value))
        (option_map element_of found.entry) missing.now) }
{
    match found {
        Some(value) => write_value(out, head, value.as_bytes()),
        None => out.write(missing),
    }
}
