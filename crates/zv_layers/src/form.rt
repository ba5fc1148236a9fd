// The form `layers`: images, each laid over those before it.
ghost use Rattle.std.specs.Prelude.{◌≡◌, ◌∷◌, IsTrue, IfOk, string_bytes};
ghost use Rattle.zv_input.specs.Sizes.{no_puts};
ghost use Rattle.zv_map2d.specs.Causes.{is_cause};
ghost use Rattle.zv_command.specs.Due.{Tells, text_due};
ghost use Rattle.zv_image.specs.Room.{HasRoomOf};
ghost use Rattle.zv_layers.specs.Requests.{IsLaidOver, IsLaidWith, bytes_of_all, layer_line};

use crate::overlay::overlay_maps;
use std::alloc::{AllocError, Global};
use std::marker::Model;
use zv_command::{Request, Status, send};
use zv_devices::Sink;
use zv_edit::serve;
use zv_image::status_of;
use zv_input::{Commands, read_field};
use zv_map2d::{EditError, ImageMap, parse_image};
use zv_ule::{NoMemory, UleError};

// How many images may follow the first.
const MORE_LAYERS: usize = 63;

/// Images that follow the first one, each of which is a line.
#[derive(Drop)]
pub struct Layers {
    images: Vec<Vec<u8>>,
}

impl Model for Layers {
    ghost use Rattle.std.specs.Prelude.{List, ℕ};
    ghost use Rattle.zv_layers.specs.Requests.{bytes_of_all};

    ghost Value = { List (List ℕ) };

    ghost view = { λ l. bytes_of_all l.images.items };
}

impl Layers {
    ghost use Rattle.std.specs.Prelude.{◌≡◌, ◌∷◌, ◌++◌, [], OnOk};

    /// No images. It takes no memory yet.
    pub fn new(alloc: Global) -> Layers
        ensures { result ≡ [] }
    {
        Layers {
            images: Vec::new(alloc),
        }
    }

    // Adds an image.
    fn keep(&mut self, image: Vec<u8>) -> Result<(), NoMemory>
        ensures { OnOk result (self.new ≡ self.old ++ image.items ∷ []) }
    {
        match self.images.push(image) {
            Ok(()) => Ok(()),
            Err(_) => Err(NoMemory),
        }
    }
}

/// Why images are not laid one over another.
#[derive(Drop)]
enum Refusal {
    /// The image of a layer, counted from 1, is refused.
    Fault {
        /// The number of the layer.
        layer: u64,
        /// Why it is refused.
        cause: EditError,
    },
    /// Memory was refused, or a list would be too large: of an input within the limit none is.
    Memory,
}

// The map of an image, laid over a map.
fn lay(
    alloc: Global,
    map: &ImageMap<'static>,
    layer: u64,
    image: &[u8],
) -> Result<ImageMap<'static>, Refusal>
    ensures { IsLaidOver map.now.rows layer image.now result }
{
    let over = match parse_image(image) {
        Ok(over) => over,
        Err(cause) => return Err(Refusal::Fault { layer, cause }),
    };
    match overlay_maps(alloc, map, &over) {
        Ok(laid) => Ok(laid),
        Err(_) => Err(Refusal::Memory),
    }
}

// The maps of images, laid one over another, the first one at the bottom.
fn lay_all(alloc: Global, first: &[u8], more: &[Vec<u8>]) -> Result<ImageMap<'static>, Refusal>
    ensures { IsLaidWith (first.now ∷ bytes_of_all more.now) result }
{
    let mut map = lay(alloc, &ImageMap::new(), 1, first)?;
    let mut layer = 1u64;
    for image in more {
        layer += 1;
        map = lay(alloc, &map, layer, image)?;
    }
    Ok(map)
}

// The same, ready to be written without more memory.
fn lay_ready(alloc: Global, first: &[u8], more: &[Vec<u8>]) -> Result<ImageMap<'static>, Refusal>
    ensures laid { IsLaidWith (first.now ∷ bytes_of_all more.now) result }
    ensures room { IfOk result (HasRoomOf no_puts) }
{
    let mut map = lay_all(alloc, first, more)?;
    match map.reserve_for(alloc, 0, 0, 0, 0) {
        Ok(()) => Ok(map),
        Err(_) => Err(Refusal::Memory),
    }
}

// The line of a layer that is refused.
fn layer_text(alloc: Global, layer: u64, cause: EditError) -> Result<String, AllocError>
    requires { IsTrue (is_cause cause) }
    ensures { IfOk result (λ text. string_bytes text ≡ layer_line layer cause) }
{
    match cause {
        EditError::Frame => format!(in alloc; "error layer {layer} frame\n"),
        EditError::Ule(UleError::InvalidLength { .. }) => {
            format!(in alloc; "error layer {layer} length\n")
        }
        EditError::Ule(UleError::ParseError { .. }) => {
            format!(in alloc; "error layer {layer} parse\n")
        }
        EditError::Keys0Joiner => format!(in alloc; "error layer {layer} keys0joiner\n"),
        EditError::Keys1Values => format!(in alloc; "error layer {layer} keys1values\n"),
        EditError::JoinerOrder => format!(in alloc; "error layer {layer} joinerorder\n"),
        EditError::JoinerEnd => format!(in alloc; "error layer {layer} joinerend\n"),
        EditError::KeyOrder => format!(in alloc; "error layer {layer} keyorder\n"),
        EditError::Memory | EditError::Write => unreachable!(),
    }
}

// Names the layer that is refused, and why.
fn refuse_layer<K: Sink>(alloc: Global, layer: u64, cause: EditError, sink: &mut K) -> Status
    requires { IsTrue (is_cause cause) }
    ensures { Tells K.taken K.faults sink.old sink.new result
        (text_due (layer_line layer cause) Status.BadImage) }
{
    let Ok(text) = layer_text(alloc, layer, cause) else {
        return Status::Memory;
    };
    send(sink, text.as_bytes(), Status::BadImage)
}

impl Request for Layers {
    ghost use Rattle.std.specs.Prelude.{length, sum_by};
    ghost use Rattle.zv_layers.specs.Requests.{layers_due, with_layer};

    ghost with_line = { with_layer };

    ghost size = { sum_by length };

    ghost due = { layers_due };

    fn add_line(&mut self, alloc: Global, line: &[u8]) -> Result<bool, NoMemory> {
        if self.images.len() >= MORE_LAYERS {
            return Ok(false);
        }
        let Some(image) = read_field(alloc, line)? else {
            return Ok(false);
        };
        self.keep(image)?;
        Ok(true)
    }

    fn answer<K: Sink>(&self, alloc: Global, first: &[u8], sink: &mut K) -> Status {
        match lay_ready(alloc, first, &self.images) {
            Ok(mut map) => status_of(serve(&mut map, &Commands::new(alloc), sink)),
            Err(Refusal::Fault { layer, cause }) => refuse_layer(alloc, layer, cause, sink),
            Err(Refusal::Memory) => Status::Memory,
        }
    }
}
