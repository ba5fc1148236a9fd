// The replies to commands, which are written as they run.
ghost use Rattle.std.specs.Prelude.{◌≡◌, true, OnErr, OnOk};
ghost use Rattle.std.specs.List.{flat_map};
ghost use Rattle.std.specs.Option.{option_map_or};
ghost use Rattle.zv_map2d.specs.Fits.{fits_texts};
ghost use Rattle.zv_map2d.specs.Image.{by_bytes};
ghost use Rattle.zv_map.specs.Iters.{left_of};
ghost use Rattle.zv_map2d.specs.Places.{IsPlace};
ghost use Rattle.zv_map2d.specs.Rows.{find, put};
ghost use Rattle.zv_edit.specs.Answers.{reply, next};
ghost use Rattle.zv_edit.specs.Output.{added, old, pair_text, text};
ghost use Rattle.zv_image.specs.Room.{HasRoomOf, SpendsOf};
ghost use Rattle.zv_input.specs.Sizes.{sizes_of};
ghost use Rattle.zv_input.specs.Views.{as_command};
ghost use Rattle.zv_command.specs.Sending.{Sends};

use zv_command::{Output, write_found};
use zv_devices::{Failed, Sink};
use zv_image::{discard, find_place, fits, plain, put_fitting, value_at};
use zv_input::{Command, CommandRef};
use zv_map::FlexULE;
use zv_map2d::{ImageMap, Iter1, Place};
use zv_ule::{SliceULE, StrULE};

// Writes a pair of a row.
#[tactic(auto, using(zv_command::proofs::Sending::sends_more))]
fn write_pair<K: Sink>(out: &mut Output<'_, K>, key: &[u8], value: &[u8]) -> Result<(), Failed>
    ensures { Sends K.taken K.faults out.old out.new result (pair_text (key.now, value.now)) }
{
    out.write_field(b" x", key)?;
    out.write_field(b" x", value)
}

// Writes the pairs of a row.
#[tactic(auto, using(zv_command::proofs::Sending::sends_more))]
fn write_pairs<K: Sink>(
    out: &mut Output<'_, K>,
    pairs: Iter1<'_, FlexULE<StrULE>, FlexULE<SliceULE<u8>>>,
) -> Result<(), Failed>
    ensures { Sends K.taken K.faults out.old out.new result
        (flat_map pair_text (left_of pairs.entry)) }
{
    for (key, value) in pairs {
        write_pair(out, key.as_bytes(), value.as_bytes())?;
    }
    Ok(())
}

// Replies to a look-up.
fn get<K: Sink>(
    out: &mut Output<'_, K>,
    map: &ImageMap<'_>,
    key0: &str,
    key1: &str,
) -> Result<(), Failed>
    ensures { Sends K.taken K.faults out.old out.new result
        (text (reply map.now.rows (Command.Get key0.now key1.now))) }
{
    let found = plain(map.get_2d(&key0, &key1));
    write_found(out, found, b"some x", b"none\n")
}

// Replies to a put of a value that fits, and then does it.
fn put_at<K: Sink>(
    out: &mut Output<'_, K>,
    map: &mut ImageMap<'_>,
    place: Place,
    key0: &str,
    key1: &str,
    value: &[u8],
) -> Result<(), Failed>
    requires place { IsPlace by_bytes by_bytes map.old.rows key0.now key1.now place }
    requires fits { fits_texts map.old.rows key0.now key1.now value.now ≡ true }
    requires room { HasRoomOf (sizes_of (Command.Put key0.now key1.now value.now)) map.old }
    ensures text { Sends K.taken K.faults out.old out.new result (text (option_map_or old
        (find by_bytes by_bytes map.old.rows key0.now key1.now) added)) }
    ensures left { OnOk result (map.new.rows
        ≡ put by_bytes by_bytes map.old.rows key0.now key1.now value.now) }
    ensures same { OnErr result (map.new.rows ≡ map.old.rows) }
    ensures spends { SpendsOf (sizes_of (Command.Put key0.now key1.now value.now))
        map.old map.new }
{
    write_found(out, value_at(map, place, key0, key1), b"old x", b"new\n")?;
    put_fitting(map, place, key0, key1, value);
    Ok(())
}

// Replies to a put, and then does it, where the value fits.
fn put<K: Sink>(
    out: &mut Output<'_, K>,
    map: &mut ImageMap<'_>,
    key0: &str,
    key1: &str,
    value: &[u8],
) -> Result<(), Failed>
    requires { HasRoomOf (sizes_of (Command.Put key0.now key1.now value.now)) map.old }
    ensures text { Sends K.taken K.faults out.old out.new result
        (text (reply map.old.rows (Command.Put key0.now key1.now value.now))) }
    ensures left { OnOk result (map.new.rows
        ≡ next map.old.rows (Command.Put key0.now key1.now value.now)) }
    ensures same { OnErr result (map.new.rows ≡ map.old.rows) }
    ensures spends { SpendsOf (sizes_of (Command.Put key0.now key1.now value.now))
        map.old map.new }
{
    let place = find_place(map, key0, key1);
    if !fits(map, place, key0, key1, value) {
        return out.write(b"toolarge\n");
    }
    put_at(out, map, place, key0, key1, value)
}

// Replies to a removal, and then does it.
fn del<K: Sink>(
    out: &mut Output<'_, K>,
    map: &mut ImageMap<'_>,
    key0: &str,
    key1: &str,
) -> Result<(), Failed>
    requires { HasRoomOf (sizes_of (Command.Del key0.now key1.now)) map.old }
    ensures text { Sends K.taken K.faults out.old out.new result
        (text (reply map.old.rows (Command.Del key0.now key1.now))) }
    ensures left { OnOk result (map.new.rows
        ≡ next map.old.rows (Command.Del key0.now key1.now)) }
    ensures same { OnErr result (map.new.rows ≡ map.old.rows) }
    ensures spends { SpendsOf (sizes_of (Command.Del key0.now key1.now)) map.old map.new }
{
    let place = find_place(map, key0, key1);
    write_found(out, value_at(map, place, key0, key1), b"old x", b"none\n")?;
    discard(map, place, key0, key1);
    Ok(())
}

// Replies with a row.
#[tactic(auto, using(zv_command::proofs::Sending::sends_more))]
fn row<K: Sink>(out: &mut Output<'_, K>, map: &ImageMap<'_>, key0: &str) -> Result<(), Failed>
    ensures { Sends K.taken K.faults out.old out.new result
        (text (reply map.now.rows (Command.Row key0.now))) }
{
    let Some(row) = map.get0(&key0) else {
        return out.write(b"none\n");
    };
    out.write(b"row")?;
    write_pairs(out, row.iter1())?;
    out.write(b"\n")
}

/// Replies to a command, and then changes the map as the command says. After a failed write the
/// map is as it was.
pub(crate) fn run_command<K: Sink>(
    out: &mut Output<'_, K>,
    map: &mut ImageMap<'_>,
    command: CommandRef<'_>,
) -> Result<(), Failed>
    requires { HasRoomOf (sizes_of (as_command command)) map.old }
    ensures text { Sends K.taken K.faults out.old out.new result
        (text (reply map.old.rows (as_command command.entry))) }
    ensures left { OnOk result (map.new.rows ≡ next map.old.rows (as_command command.entry)) }
    ensures same { OnErr result (map.new.rows ≡ map.old.rows) }
    ensures spends { SpendsOf (sizes_of (as_command command.entry)) map.old map.new }
{
    match command {
        CommandRef::Get { key0, key1 } => get(out, map, key0, key1),
        CommandRef::Put { key0, key1, value } => put(out, map, key0, key1, value),
        CommandRef::Del { key0, key1 } => del(out, map, key0, key1),
        CommandRef::Row { key0 } => row(out, map, key0),
    }
}
