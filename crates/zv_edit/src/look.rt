// Looks a pair of keys up in an image.
ghost use Rattle.std.specs.Prelude.{◌≡◌, [], IsTrue, IfErr, IfOk, OnOk, option_map};
ghost use Rattle.std.specs.Result.{result_err};
ghost use Rattle.zv_ule.specs.Views.{element_of};
ghost use Rattle.zv_map2d.specs.Causes.{is_cause};
ghost use Rattle.zv_map2d.specs.Image.{Stands, by_bytes, fault};
ghost use Rattle.zv_map2d.specs.Rows.{Rows, find};
ghost use Rattle.zv_devices.specs.Devices.{HasCause, Takes};
ghost use Rattle.zv_command.specs.Sending.{Sends};
ghost use Rattle.zv_edit.specs.Output.{found_line};

use std::alloc::Global;
use zv_command::{Output, Request, Status, write_value};
use zv_devices::{Failed, Sink};
use zv_image::{plain, refuse, status_of};
use zv_input::KeyText;
use zv_map2d::{EditError, parse_image};
use zv_ule::{NoMemory, SliceULE, VarRef};

/// The value that a pair of keys has in the map of an image, where it lies in the image.
///
/// # Errors
/// Those of [`parse_image`].
///
/// # Cost
/// The image is checked, and two searches are made. It takes no memory.
pub fn look2d<'a>(
    image: &'a [u8],
    key0: &str,
    key1: &str,
) -> Result<Option<VarRef<'a, SliceULE<u8>>>, EditError>
    ensures error { result_err result ≡ fault image.now }
    ensures value { IfOk result (λ value. (m : Rows) × Stands image.now m
        × (option_map element_of value ≡ find by_bytes by_bytes m key0.now key1.now)) }
    ensures cause { IfErr result (λ e. IsTrue (is_cause e)) }
{
    let map = parse_image(image)?;
    let Some(view) = map.as_borrowed_inner() else {
        unreachable!();
    };
    Ok(plain(view.get_2d(&key0, &key1)))
}

// Writes the line of a value that was found, or of none.
fn write_looked<K: Sink>(
    out: &mut Output<'_, K>,
    value: Option<VarRef<'_, SliceULE<u8>>>,
) -> Result<(), Failed>
    ensures { Sends K.taken K.faults out.old out.new result
        (found_line (option_map element_of value.entry)) }
{
    match value {
        Some(value) => write_value(out, b"some x", value.as_bytes()),
        None => out.write(b"none\n"),
    }
}

// The same, and sends it.
fn send_found<K: Sink>(
    out: &mut Output<'_, K>,
    value: Option<VarRef<'_, SliceULE<u8>>>,
) -> Result<(), Failed>
    ensures text { Sends K.taken K.faults out.old out.new result
        (found_line (option_map element_of value.entry)) }
    ensures sent { OnOk result (out.new.piece ≡ []) }
{
    write_looked(out, value)?;
    out.send()
}

/// Tells a value that was found, or that there is none.
pub fn tell_found<K: Sink>(
    value: Option<VarRef<'_, SliceULE<u8>>>,
    sink: &mut K,
) -> Result<(), Failed>
    ensures text { Takes (K.taken sink.old) (K.taken sink.new) result
        (found_line (option_map element_of value.entry)) }
    ensures cause { HasCause (K.faults sink.old) (K.faults sink.new) result }
{
    send_found(&mut Output::new(sink), value)
}

/// A look-up of a pair of keys. No line follows the image.
#[derive(Drop)]
pub struct Look {
    /// The first key.
    pub key0: KeyText,
    /// The second key.
    pub key1: KeyText,
}

impl Request for Look {
    ghost use Rattle.zv_command.specs.Inputs.{with_no_line};
    ghost use Rattle.zv_edit.specs.Requests.{look_due};

    ghost with_line = { with_no_line };

    ghost size = { λ _. 0 };

    ghost due = { look_due };

    fn add_line(&mut self, _alloc: Global, _line: &[u8]) -> Result<bool, NoMemory> {
        Ok(false)
    }

    fn answer<K: Sink>(&self, _alloc: Global, image: &[u8], sink: &mut K) -> Status {
        match look2d(image, self.key0.as_str(), self.key1.as_str()) {
            Ok(value) => status_of(tell_found(value, sink)),
            Err(cause) => refuse(sink, cause),
        }
    }
}
