// Makes a table and tells of it.
ghost use Rattle.std.specs.Prelude.{◌≡◌, [], IfOk, sum};
ghost use Rattle.std.specs.String.{string_bytes};
ghost use Rattle.zv_command.specs.Due.{Tells};
ghost use Rattle.zv_edit.specs.Answers.{last};
ghost use Rattle.zv_map2d.specs.Image.{canon};
ghost use Rattle.zv_make.specs.Summary.{made, make_due, summary_of};

use crate::image::read_image;
use crate::puts::puts;
use std::alloc::Global;
use zv_command::{Status, send};
use zv_devices::{MemSink, Sink};
use zv_edit::edit2d;
use zv_input::Commands;
use zv_map2d::parse_image;
use zv_ule::NoMemory;

// The room of the sink in memory. A put adds at most 26 bytes to the image, of two digits each, and
// its reply has at most 10; the image of no pairs has 32 bytes, and a head 11. So 4000 puts need at
// most 248,094.
const ROOM: usize = 400_000;

// The image that commands leave of the one of no pairs.
fn image_left(alloc: Global, commands: &Commands) -> Result<Vec<u8>, NoMemory>
    ensures { IfOk result (λ image. image.items ≡ canon (last [] commands.now)) }
{
    let mut sink = MemSink::new(alloc, ROOM, 0, &[])?;
    let Ok(()) = edit2d(alloc, &[0; 32], commands, &mut sink) else {
        return Err(NoMemory);
    };
    let Some(image) = read_image(alloc, sink.taken()) else {
        return Err(NoMemory);
    };
    Ok(image)
}

// The sum of bytes.
fn sum_of(bytes: &[u8]) -> u128
    ensures { result ≡ sum bytes.now }
{
    let mut sum = 0u128;
    for byte in bytes {
        sum += u128::from(*byte);
    }
    sum
}

// The line that tells of the map that commands leave of none.
#[tactic(auto, using(crate::proofs::Made::made_reads))]
fn tell_last(alloc: Global, commands: &Commands) -> Result<String, NoMemory>
    ensures { IfOk result (λ text. string_bytes text ≡ summary_of (last [] commands.now)) }
{
    // This line says that the keys are texts.
    commands.as_slice();
    let image = image_left(alloc, commands)?;
    let Ok(map) = parse_image(&image) else {
        unreachable!();
    };
    let (rows, pairs, bytes, sum) = (map.rows(), map.len(), image.len(), sum_of(&image));
    let text = format!(in alloc; "rows {rows} pairs {pairs} bytes {bytes} sum {sum}\n")?;
    Ok(text)
}

// The line that tells of a made table.
fn tell_made(alloc: Global, count: u16) -> Result<String, NoMemory>
    ensures { IfOk result (λ text. string_bytes text ≡ summary_of (made count)) }
{
    let commands = puts(alloc, count)?;
    tell_last(alloc, &commands)
}

/// Makes a table by so many puts into the empty image, and tells how many rows and pairs it has,
/// and how many bytes its image and which sum.
///
/// The puts run as those of an edit over a sink in memory. Their numbers are 7, and then five times
/// the one before and 3 modulo 4096; the put of x has the keys `r` and x modulo 64, `k` and x, in
/// decimal, and x in two bytes as value.
pub fn make<K: Sink>(alloc: Global, count: u16, sink: &mut K) -> Status
    ensures { Tells K.taken K.faults sink.old sink.new result (make_due count) }
{
    match tell_made(alloc, count) {
        Ok(text) => send(sink, text.as_bytes(), Status::Done),
        Err(NoMemory) => Status::Memory,
    }
}
