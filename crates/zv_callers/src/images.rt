// A table that is stored as an image: read in the image's bytes, changed in room that is made once,
// and written as the parts of another image.
ghost use Rattle.std.specs.Prelude.{◌≡◌, ◌+◌, [], IfErr, IfOk, OnErr, OnOk, length};
ghost use Rattle.std.specs.Result.{result_err};
ghost use Rattle.zv_devices.specs.Devices.{Takes};
ghost use Rattle.zv_edit.specs.Answers.{answers};
ghost use Rattle.zv_map.specs.Flexes.{flex_settled};
ghost use Rattle.zv_map2d.specs.Image.{Stands, by_bytes, fault, spelling_in, wides_of};
ghost use Rattle.zv_map2d.specs.Room.{HasRoomFor, IsOwned, IsReady, SpendsFor};
ghost use Rattle.zv_map2d.specs.Rows.{Rows};
ghost use Rattle.zv_map2d.specs.Views.{AreSettled, bytes_of};
ghost use Rattle.zv_callers.specs.Images.{changed, with_entry, without};

use std::alloc::Global;
use zv_devices::{Failed, Sink};
use zv_edit::serve;
use zv_input::Commands;
use zv_map::FlexULE;
use zv_map2d::laws::room;
use zv_map2d::{EditError, ImageMap, Map2dError, Parts, parse_image};
use zv_ule::VarRef;

/// A table from a language and a script to bytes, as an image stores it.
pub type StoredTable<'a> = ImageMap<'a>;

/// A language and a script.
#[derive(Clone, Copy)]
pub struct Keys<'t> {
    pub language: &'t str,
    pub script: &'t str,
}

/// What a language in a script is to have.
#[derive(Clone, Copy)]
pub struct Entry<'t> {
    pub keys: Keys<'t>,
    pub value: &'t [u8],
}

/// Makes room for two entries, so that both can be put without memory.
fn reserve_for_two(
    alloc: Global,
    table: &mut StoredTable<'_>,
    first: Entry<'_>,
    second: Entry<'_>,
) -> Result<(), Map2dError>
    ensures rows { table.new.rows ≡ table.old.rows }
    ensures room { OnOk result (HasRoomFor 4 4 4
        (length first.entry.keys.language.now + length second.entry.keys.language.now)
        (length first.entry.keys.script.now + length second.entry.keys.script.now)
        (length first.entry.value.now + length second.entry.value.now) 2 table.new) }
{
    table.reserve_for(
        alloc,
        first.keys.language.len() + second.keys.language.len(),
        first.keys.script.len() + second.keys.script.len(),
        first.value.len() + second.value.len(),
        2,
    )
}

/// Puts an entry, in room that was made for it.
///
/// # Errors
/// `TooLarge` where the value does not fit. The table is unchanged then.
pub fn put_entry(table: &mut StoredTable<'_>, item: Entry<'_>) -> Result<(), Map2dError>
    requires room { HasRoomFor 4 4 4 (length item.keys.language.now)
        (length item.keys.script.now) (length item.value.now) 1 table.old }
    ensures rows { OnOk result (table.new.rows ≡ with_entry table.old.rows item.entry) }
    ensures err { OnErr result (table.new ≡ table.old) }
    ensures refused { IfErr result (λ e. e ≡ Map2dError.TooLarge) }
    ensures spends { SpendsFor 4 4 4 (length item.entry.keys.language.now)
        (length item.entry.keys.script.now) (length item.entry.value.now) 1 table.old table.new }
    ensures owned { IsOwned table.new }
    ensures ready { IsReady table.new }
{
    room();
    let value = FlexULE::of_plain(VarRef::of_bytes(item.value));
    match table.put_reserved(&item.keys.language, &item.keys.script, &value) {
        Ok(_) => Ok(()),
        Err(_) => Err(Map2dError::TooLarge),
    }
}

/// Takes a language in a script out, if it is there. It takes no memory.
pub fn discard_keys(table: &mut StoredTable<'_>, keys: Keys<'_>)
    requires { IsOwned table.old }
    ensures rows { table.new.rows ≡ without table.old.rows keys.entry }
    ensures owned { IsOwned table.new }
    ensures ready { IsReady table.old → IsReady table.new }
    ensures room { HasRoomFor 4 4 4 0 0 0 0 table.old → HasRoomFor 4 4 4 0 0 0 0 table.new }
{
    room();
    table.discard(&keys.language, &keys.script);
}

/// Puts two entries, one after the other, in room for both.
fn put_both(
    table: &mut StoredTable<'_>,
    first: Entry<'_>,
    second: Entry<'_>,
) -> Result<(), Map2dError>
    requires room { HasRoomFor 4 4 4
        (length first.keys.language.now + length second.keys.language.now)
        (length first.keys.script.now + length second.keys.script.now)
        (length first.value.now + length second.value.now) 2 table.old }
    ensures rows { OnOk result
        (table.new.rows ≡ with_entry (with_entry table.old.rows first.entry) second.entry) }
    ensures owned { OnOk result (IsOwned table.new) }
    ensures ready { OnOk result (IsReady table.new) }
    ensures room { OnOk result (HasRoomFor 4 4 4 0 0 0 0 table.new) }
    ensures refused { IfErr result (λ e. e ≡ Map2dError.TooLarge) }
{
    room();
    put_entry(table, first)?;
    put_entry(table, second)
}

/// Puts two entries and takes two pairs of keys out, in this order. All memory is taken before the
/// first change.
///
/// # Errors
/// `TooMany` and `Memory`, and then the table has the entries that it had; or `TooLarge` where a
/// value does not fit.
pub fn change_table(
    alloc: Global,
    table: &mut StoredTable<'_>,
    puts: (Entry<'_>, Entry<'_>),
    discards: (Keys<'_>, Keys<'_>),
) -> Result<(), Map2dError>
    ensures rows { OnOk result
        (table.new.rows ≡ changed table.old.rows puts.entry discards.entry) }
    ensures ready { OnOk result (IsReady table.new) }
    ensures room { OnOk result (HasRoomFor 4 4 4 0 0 0 0 table.new) }
    ensures untouched { IfErr result (λ e. (e ≡ Map2dError.TooLarge → ⊥) →
        table.new.rows ≡ table.old.rows) }
{
    reserve_for_two(alloc, table, puts.0, puts.1)?;
    put_both(table, puts.0, puts.1)?;
    discard_keys(table, discards.0);
    discard_keys(table, discards.1);
    Ok(())
}

/// The table of an image, after two puts and two discards.
///
/// # Errors
/// The image's own fault, exactly where it has one; else what [`change_table`] refuses.
pub fn change_image<'a>(
    alloc: Global,
    image: &'a [u8],
    puts: (Entry<'_>, Entry<'_>),
    discards: (Keys<'_>, Keys<'_>),
) -> Result<Result<StoredTable<'a>, Map2dError>, EditError>
    ensures error { result_err result ≡ fault image.now }
    ensures rows { IfOk result (λ outcome. IfOk outcome (λ table. (m : Rows)
        × Stands image.now m
        × (table.rows ≡ changed m puts.entry discards.entry))) }
    ensures ready { IfOk result (λ outcome. IfOk outcome IsReady) }
    ensures room { IfOk result (λ outcome. IfOk outcome (HasRoomFor 4 4 4 0 0 0 0)) }
{
    let mut table = parse_image(image)?;
    match change_table(alloc, &mut table, puts, discards) {
        Ok(()) => Ok(Ok(table)),
        Err(error) => Ok(Err(error)),
    }
}

/// Sends the line of the image that the table is stored as. It takes no memory: the table has the
/// room that puts and discards left of what was made for them.
pub fn send_table<K: Sink>(
    alloc: Global,
    table: &mut StoredTable<'_>,
    sink: &mut K,
) -> Result<(), Failed>
    requires { HasRoomFor 4 4 4 0 0 0 0 table.old }
    ensures text { Takes (K.taken sink.old) (K.taken sink.new) result (answers table.old.rows []) }
    ensures rows { OnOk result (table.new.rows ≡ table.old.rows) }
{
    serve(table, &Commands::new(alloc), sink)
}

/// The parts of the image that the table is stored as, which lie in the table's own bytes. The
/// table was settled before, as [`settle`](zv_map2d::Map2dOver::settle) does after changes.
pub fn stored_parts<'t>(table: &'t StoredTable<'_>) -> Parts<'t>
    requires { AreSettled flex_settled flex_settled flex_settled table.now }
    ensures { bytes_of result ≡ spelling_in (wides_of table.now.rows) table.now.rows }
{
    table.canon_parts()
}
