// The forms `freeze`, `ask` and `thaw`.
ghost use Rattle.std.specs.Prelude.{◌≡◌, ◌-◌, ◌<◌, ◌^◌, [], None, IfOk, OnOk, length};
ghost use Rattle.zv_input.specs.Sizes.{no_puts};
ghost use Rattle.zv_devices.specs.Devices.{HasCause, Takes};
ghost use Rattle.zv_command.specs.Due.{Tells, text_due};
ghost use Rattle.zv_command.specs.Sending.{Sends};
ghost use Rattle.zv_image.specs.Room.{HasRoomOf};
ghost use Rattle.zv_map2d.specs.Image.{fault};
ghost use Rattle.zv_map2d_laws.specs.Laws.{rows_in};
ghost use Rattle.zv_frozen.specs.RequestLines.{fault_line, frozen_line};
ghost use Rattle.zv_frozen.specs.Faults.{frozen_fault};
ghost use Rattle.zv_frozen.specs.Requests.{freeze_due, thaw_due};
ghost use Rattle.zv_frozen.specs.Tables.{IsReadAs, thawed};

use crate::build::freeze;
use crate::error::{FreezeError, FrozenError};
use crate::frozen::Frozen;
use std::alloc::{AllocError, Global};
use std::marker::Model;
use zv_command::{Output, Request, Status, send, write_value};
use zv_devices::{Failed, Sink};
use zv_edit::{serve, tell_found};
use zv_hash::laws::stuck_bucket;
use zv_image::{refuse, status_of};
use zv_input::{Commands, KeyText};
use zv_map2d::{ImageMap, Map2dError, parse_image};
use zv_map2d_laws::laws;
use zv_ule::NoMemory;

// ---- freeze

// Writes the line of a frozen image, and sends it.
fn write_frozen<K: Sink>(out: &mut Output<'_, K>, bytes: &[u8]) -> Result<(), Failed>
    ensures text { Sends K.taken K.faults out.old out.new result (frozen_line bytes.now) }
    ensures sent { OnOk result (out.new.piece ≡ []) }
{
    write_value(out, b"frozen x", bytes)?;
    out.send()
}

// Tells a frozen image.
fn tell_frozen<K: Sink>(bytes: &[u8], sink: &mut K) -> Result<(), Failed>
    ensures text { Takes (K.taken sink.old) (K.taken sink.new) result (frozen_line bytes.now) }
    ensures cause { HasCause (K.faults sink.old) (K.faults sink.new) result }
{
    write_frozen(&mut Output::new(sink), bytes)
}

// Answers for the map that an image stands for.
fn answer_map<K: Sink>(alloc: Global, image: &[u8], map: &ImageMap<'_>, sink: &mut K) -> Status
    requires sound { fault image.now ≡ None }
    requires rows { map.now.rows ≡ rows_in image.now }
    ensures { Tells K.taken K.faults sink.old sink.new result (freeze_due image.now tt) }
{
    stuck_bucket();
    match freeze(alloc, map) {
        Ok(bytes) => status_of(tell_frozen(&bytes, sink)),
        Err(FreezeError::TooLarge) => send(sink, b"error toolarge\n", Status::BadImage),
        Err(FreezeError::NoPlace { bucket }) => {
            let Ok(text) = format!(in alloc; "error noplace {bucket}\n") else {
                return Status::Memory;
            };
            send(sink, text.as_bytes(), Status::BadImage)
        }
        Err(FreezeError::Memory) => Status::Memory,
    }
}

// Bytes that are at hand are fewer than 2^63. It does nothing.
fn bytes_are_few(bytes: &[u8])
    ensures { length bytes.now < 2 ^ 64 - 1 }
{}

/// The map of an image is frozen. No line follows the image.
#[derive(Drop)]
pub struct Freeze;

impl Model for Freeze {
    ghost use Rattle.std.specs.Prelude.{⊤};

    ghost Value = { ⊤ };

    ghost view = { λ _. tt };
}

impl Request for Freeze {
    ghost use Rattle.zv_command.specs.Inputs.{with_no_line};

    ghost with_line = { with_no_line };

    ghost size = { λ _. 0 };

    ghost due = { freeze_due };

    fn add_line(&mut self, _alloc: Global, _line: &[u8]) -> Result<bool, NoMemory> {
        Ok(false)
    }

    fn answer<K: Sink>(&self, alloc: Global, image: &[u8], sink: &mut K) -> Status {
        bytes_are_few(image);
        laws();
        match parse_image(image) {
            Ok(map) => answer_map(alloc, image, &map, sink),
            Err(cause) => refuse(sink, cause),
        }
    }
}

// ---- a frozen image

// The line of a key that is not that of two texts.
fn refuse_key<K: Sink>(alloc: Global, place: usize, sink: &mut K) -> Status
    ensures { Tells K.taken K.faults sink.old sink.new result
        (text_due (fault_line (FrozenError.Key place)) Status.BadImage) }
{
    let Ok(text) = format!(in alloc; "error key {place}\n") else {
        return Status::Memory;
    };
    send(sink, text.as_bytes(), Status::BadImage)
}

// Says why bytes are no frozen image.
fn refuse_frozen<K: Sink>(alloc: Global, error: FrozenError, sink: &mut K) -> Status
    ensures { Tells K.taken K.faults sink.old sink.new result
        (text_due (fault_line error) Status.BadImage) }
{
    match error {
        FrozenError::Frame => send(sink, b"error frame\n", Status::BadImage),
        FrozenError::Part(_) => send(sink, b"error part\n", Status::BadImage),
        FrozenError::Count => send(sink, b"error count\n", Status::BadImage),
        FrozenError::Key { place } => refuse_key(alloc, place, sink),
        FrozenError::Lies => send(sink, b"error lies\n", Status::BadImage),
    }
}

/// A look-up of a pair of texts in a frozen image. No line follows it.
#[derive(Drop)]
pub struct Ask {
    /// The first text.
    pub key0: KeyText,
    /// The second text.
    pub key1: KeyText,
}

impl Request for Ask {
    ghost use Rattle.zv_command.specs.Inputs.{with_no_line};
    ghost use Rattle.zv_frozen.specs.Requests.{ask_due};

    ghost with_line = { with_no_line };

    ghost size = { λ _. 0 };

    ghost due = { ask_due };

    fn add_line(&mut self, _alloc: Global, _line: &[u8]) -> Result<bool, NoMemory> {
        Ok(false)
    }

    fn answer<K: Sink>(&self, alloc: Global, bytes: &[u8], sink: &mut K) -> Status {
        match Frozen::parse(bytes) {
            Ok(frozen) => {
                let found = frozen.get(self.key0.as_str(), self.key1.as_str());
                status_of(tell_found(found, sink))
            }
            Err(error) => refuse_frozen(alloc, error, sink),
        }
    }
}

// The map that a frozen image thaws to, ready to be written without more memory.
fn thaw_ready(alloc: Global, frozen: &Frozen<'_>) -> Result<ImageMap<'static>, Map2dError>
    ensures rows { IfOk result (λ m. m.rows ≡ thawed frozen.now) }
    ensures room { IfOk result (HasRoomOf no_puts) }
{
    let mut map = frozen.thaw(alloc)?;
    map.reserve_for(alloc, 0, 0, 0, 0)?;
    Ok(map)
}

// Answers for a frozen image. A map that is refused is told as a want of memory: by the laws,
// within the limit on inputs nothing else refuses it.
fn answer_thawed<K: Sink>(alloc: Global, bytes: &[u8], frozen: &Frozen<'_>, sink: &mut K) -> Status
    requires sound { frozen_fault bytes.now ≡ None }
    requires table { IsReadAs bytes.now frozen.now }
    ensures { Tells K.taken K.faults sink.old sink.new result (thaw_due bytes.now tt) }
{
    match thaw_ready(alloc, frozen) {
        Ok(mut map) => status_of(serve(&mut map, &Commands::new(alloc), sink)),
        Err(_) => Status::Memory,
    }
}

/// A frozen image is thawed. No line follows it.
#[derive(Drop)]
pub struct Thaw;

impl Model for Thaw {
    ghost use Rattle.std.specs.Prelude.{⊤};

    ghost Value = { ⊤ };

    ghost view = { λ _. tt };
}

impl Request for Thaw {
    ghost use Rattle.zv_command.specs.Inputs.{with_no_line};

    ghost with_line = { with_no_line };

    ghost size = { λ _. 0 };

    ghost due = { thaw_due };

    fn add_line(&mut self, _alloc: Global, _line: &[u8]) -> Result<bool, NoMemory> {
        Ok(false)
    }

    fn answer<K: Sink>(&self, alloc: Global, bytes: &[u8], sink: &mut K) -> Status {
        match Frozen::parse(bytes) {
            Ok(frozen) => answer_thawed(alloc, bytes, &frozen, sink),
            Err(error) => refuse_frozen(alloc, error, sink),
        }
    }
}
