// Images that are frozen.
ghost use Rattle.std.specs.Prelude.{◌≡◌, ◌++◌, ◌∷◌, [], ◌⊎◌, ◌≤◌, ◌<◌, ◌^◌, IfErr, IfOk};
ghost use Rattle.std.specs.Prelude.{MatchResult};
ghost use Rattle.std.specs.Prelude.{OnOk, length, map};
ghost use Rattle.zv_ule.specs.Views.{element_of};
ghost use Rattle.zv_map.specs.Iters.{left_of};
ghost use Rattle.zv_map2d_laws.specs.Overlays.{row_triples};
ghost use Rattle.zv_frozen.specs.Faults.{IsNotFrozen, freeze_error};
ghost use Rattle.zv_frozen.specs.Argument.{key_of};
ghost use Rattle.zv_frozen.specs.Laws.{AnswersAs};
ghost use Rattle.zv_frozen.specs.Tables.{AreSized, IsFrozen, IsTableFor, entries, entry};
ghost use Rattle.zv_frozen.specs.declared.error.FreezeError.{FreezeError};

use crate::error::FreezeError;
use crate::key::PairKey;
use std::alloc::{AllocError, Global};
use zv_fixed::ZeroSliceULE;
use zv_framed::Framed;
use zv_hashmap::ZeroHashMap;
use zv_hashmap::laws::home_tables;
use zv_map::FlexULE;
use zv_map2d::{ImageMap, Iter1};
use zv_ule::{SliceULE, StrULE, VarBox, VarRef, ZvArg};

/// The key of two texts and their value, as elements of their own.
type Entry = (VarBox<ZeroSliceULE<u8>>, VarBox<SliceULE<u8>>);

/// The pairs of a row of an image's map.
type Pairs<'m> = Iter1<'m, FlexULE<StrULE>, FlexULE<SliceULE<u8>>>;

/// The hash table of which a frozen image is the framed form.
pub(crate) type Table<'a> = ZeroHashMap<'a, ZeroSliceULE<u8>, SliceULE<u8>>;

// The key as an element of its own.
fn key_box(alloc: Global, key: PairKey<'_>) -> Result<VarBox<ZeroSliceULE<u8>>, AllocError>
    requires { length (key_of key) < 2 ^ 64 }
    ensures { IfOk result (λ b. b ≡ key_of key.entry) }
{
    let mut bytes = vec![in alloc; 0u8; key.arg_len()]?;
    key.arg_write(&mut bytes);
    Ok(VarBox::of_valid(bytes))
}

// Adds a key and a value.
fn add_entry(
    alloc: Global,
    entries: &mut Vec<Entry>,
    key: PairKey<'_>,
    value: VarRef<'_, SliceULE<u8>>,
) -> Result<(), FreezeError>
    requires { length (key_of key) < 2 ^ 64 }
    ensures entry { OnOk result (entries.new.items
        ≡ entries.old.items ++ (key_of key.entry, element_of value.entry) ∷ []) }
    ensures sized { AreSized entries.old.items → AreSized entries.new.items }
    ensures err { IfErr result (λ e. e ≡ FreezeError.Memory) }
{
    let _len = value.as_bytes().len();
    let key = key_box(alloc, key)?;
    let value = value.to_boxed(alloc)?;
    match entries.push((key, value)) {
        Ok(()) => Ok(()),
        Err(_) => Err(FreezeError::Memory),
    }
}

// Adds the pairs of a row.
fn add_row(
    alloc: Global,
    entries: &mut Vec<Entry>,
    key0: &str,
    pairs: Pairs<'_>,
) -> Result<(), FreezeError>
    ensures entries { OnOk result (entries.new.items
        ≡ entries.old.items ++ map entry (row_triples key0.now (left_of pairs.entry))) }
    ensures sized { AreSized entries.old.items → AreSized entries.new.items }
    ensures err { IfErr result (λ e. (e ≡ FreezeError.Memory)
        ⊎ ((e ≡ FreezeError.TooLarge) × (2 ^ 32 ≤ length key0.now))) }
{
    if key0.len() > u32::MAX as usize {
        return Err(FreezeError::TooLarge);
    }
    for (key1, value) in pairs {
        let key = PairKey::new(key0, FlexULE::plain(key1).as_str());
        add_entry(alloc, entries, key, FlexULE::plain(value))?;
    }
    Ok(())
}

// The pairs of a map, in order, each under the key of its two texts.
fn gather(alloc: Global, map: &ImageMap<'_>) -> Result<Vec<Entry>, FreezeError>
    ensures entries { MatchResult result (λ v. v.items ≡ entries map.now.rows)
        (IsNotFrozen map.now.rows) }
    ensures sized { IfOk result (λ v. AreSized v.items) }
{
    map.in_order();
    let mut entries = Vec::with_capacity(alloc, map.len())?;
    for row in map.iter0() {
        let key0 = FlexULE::plain(row.key0()).as_str();
        if let Err(error) = add_row(alloc, &mut entries, key0, row.iter1()) {
            return Err(error);
        }
    }
    Ok(entries)
}

// The table of the pairs of a map.
fn table_of(alloc: Global, map: &ImageMap<'_>) -> Result<Table<'static>, FreezeError>
    ensures table { MatchResult result (IsTableFor map.now.rows) (IsNotFrozen map.now.rows) }
    ensures counts { IfOk result (λ t. length t.values ≡ length t.keys) }
{
    map.in_order();
    let entries = gather(alloc, map)?;
    match Table::try_from_pairs(alloc, &entries) {
        Ok(table) => {
            let _values = table.values();
            Ok(table)
        }
        Err(error) => Err(FreezeError::from(error)),
    }
}

/// The frozen image of a map: the framed form of a hash table, which has the value of each pair of
/// texts. It depends on the pairs alone.
///
/// # Errors
/// `TooLarge` where the keys or the values, in order, are too large for lists with fields of two
/// bytes: 64 KB each, of which a key takes its texts and six bytes; else `NoPlace` where no
/// displacement sends the keys of a bucket to free slots; or `Memory`.
///
/// # Cost
/// Each pair is written once as elements of its own, and once into the table, whose time is about
/// linear where buckets soon find displacements; the table is then copied into the bytes.
pub fn freeze(alloc: Global, map: &ImageMap<'_>) -> Result<Vec<u8>, FreezeError>
    ensures frozen { MatchResult result (λ v. IsFrozen map.now.rows v.items)
        (IsNotFrozen map.now.rows) }
    ensures answers { IfOk result (λ v. AnswersAs map.now.rows v.items) }
{
    map.in_order();
    home_tables::<ZeroSliceULE<u8>>();
    let table = table_of(alloc, map)?;
    Ok(table.to_framed_bytes(alloc)?)
}
