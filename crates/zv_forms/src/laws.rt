// The laws of JSON, each the contract of a function that does nothing.
ghost use Rattle.std.specs.Prelude.{◌≡◌, Bool, List, [], None, Ok, Some, ℕ, false, length, map};
ghost use Rattle.std.specs.Prelude.{true};
ghost use Rattle.std.specs.List.{AllByRecursion};
ghost use Rattle.serde_json.specs.Data.{Data};
ghost use Rattle.zv_forms.specs.Again.{AlikeIsEqual, EntriesAlike, RowsAlike, SameKeys, TableAlike};
ghost use Rattle.zv_forms.specs.Maps.{map_in, map_written};
ghost use Rattle.zv_forms.specs.Maps2d.{object_in, rows_in, rows_written};
ghost use Rattle.zv_forms.specs.Tables.{container_in, table_in, table_written};
ghost use Rattle.zv_forms.specs.Vectors.{list_taken};
ghost use Rattle.zv_fixed.specs.Views.{values_in};
ghost use Rattle.zv_hashmap.specs.Table.{parts_fault};
ghost use Rattle.zv_json.specs.Again.{EachAlike, IsAgain};
ghost use Rattle.zv_json.specs.Arrays.{array_written, list_in};
ghost use Rattle.zv_json.specs.Json.{and_then};
ghost use Rattle.zv_map.specs.Views.{list_of};
ghost use Rattle.zv_map1.specs.Fits.{Rule as MapRule};
ghost use Rattle.zv_map2d.specs.Fits.{Rule as RowsRule};
ghost use Rattle.zv_owned.specs.Vectors.{vector_list};
ghost use Rattle.zv_ule.specs.Chunks.{chunks_fault, values_of};

use zv_fixed::{ZeroSlice, ZeroVec};
use zv_hashmap::{HashBytes, HashMapOver};
use zv_json::{JsonAgain, JsonKind, JsonValue};
use zv_map::laws::elements_are_valid;
use zv_map::{KvSlice, ZeroVecSearch, ZvContainer};
use zv_map1::MapOver;
use zv_map2d::Map2dOver;
use zv_owned::VarZeroVec;
use zv_ule::{AsULE, VarULE, VarZeroVecFormat, ZvOrd};

/// The values of bytes that are a list are those of their type. It does nothing.
#[inline]
fn values_are_valid<T: AsULE>(_bytes: &[u8])
    requires { chunks_fault T.ULE.TY T.ULE.width T.ULE.chunk_fault _bytes.now ≡ None }
    ensures { AllByRecursion T.is_value
        (values_of T.ULE.width (λ b. T.loaded (T.ULE.value b)) _bytes.now) }
{}

/// What a list of values is written as is read as these values.
pub fn values_are_read_again<T: JsonValue>(list: &ZeroVec<'_, T>)
    ensures { (d : Data) → array_written (map T.value_data list.now.values) ≡ Some d →
        list_in T.value_in d ≡ Ok list.now.values }
{
    values_are_valid::<T>(list.as_slice().as_bytes());
}

/// What a list of elements is written as is read as elements alike, or is too large for the format.
pub fn elements_are_read_again<T: JsonAgain + VarULE, F: VarZeroVecFormat>(
    list: &VarZeroVec<'_, T, F>,
)
    ensures { (d : Data) → array_written (map T.to_data (vector_list list.now)) ≡ Some d →
        IsAgain (EachAlike T.Alike (vector_list list.now))
        (and_then (list_in T.of_data d) (list_taken F.W)) }
{
    let _list = list.as_slice();
}

/// What a map in one level is written as is read as a map alike, or is too large for its lists:
///
/// - `named`: where keys have names, it has the same keys;
/// - `others`: else it has keys that are alike, if such keys compare `Equal`.
pub fn maps_are_read_again<
    K: JsonAgain + ZvOrd,
    V: JsonAgain,
    C: ZvContainer<K>,
    D: ZvContainer<V>,
>(map: &MapOver<K, V, C, D>)
    ensures named { (rule : MapRule) (d : Data) → K.KEY ≡ true →
        map_written K.KEY K.to_name K.to_data V.to_data map.now.pairs ≡ Some d →
        IsAgain (SameKeys V.Alike map.now.pairs)
        (map_in rule K.cmp K.of_name K.of_data V.of_data K.KEY d) }
    ensures others { AlikeIsEqual K.Alike K.cmp → (rule : MapRule) (d : Data) → K.KEY ≡ false →
        map_written K.KEY K.to_name K.to_data V.to_data map.now.pairs ≡ Some d →
        IsAgain (EntriesAlike K.Alike V.Alike map.now.pairs)
        (map_in rule K.cmp K.of_name K.of_data V.of_data K.KEY d) }
{
    map.in_order();
    let _keys = map.keys();
    elements_are_valid(map.values());
}

/// What a map in one level whose keys have a fixed width is written as is read as a map with the
/// same keys and values alike, or is too large for its lists.
pub fn maps_of_values_are_read_again<
    K: JsonValue + ZvOrd,
    V: JsonAgain,
    C: ZvContainer<K>,
    D: ZvContainer<V>,
>(map: &MapOver<K, V, C, D>)
    ensures { (rule : MapRule) (d : Data) →
        map_written ⟦<K as JsonKind>⟧.KEY ⟦<K as JsonKind>⟧.to_name ⟦<K as JsonKind>⟧.to_data
        V.to_data map.now.pairs ≡ Some d → IsAgain (SameKeys V.Alike map.now.pairs)
        (map_in rule K.cmp ⟦<K as JsonKind>⟧.of_name ⟦<K as JsonKind>⟧.of_data V.of_data
        ⟦<K as JsonKind>⟧.KEY d) }
{
    maps_are_read_again(map);
}

/// What a map in two levels is written as is read as a map with the same keys and values alike, or
/// is too large for its lists.
pub fn maps2d_are_read_again<
    K0: JsonAgain + ZvOrd,
    K1: JsonAgain + ZvOrd,
    V: JsonAgain,
    C0: ZvContainer<K0>,
    C1: ZvContainer<K1>,
    D: ZvContainer<V>,
>(map: &Map2dOver<'_, K0, K1, V, C0, C1, D>)
    ensures { (rule : RowsRule) (d : Data) →
        rows_written K0.to_name K1.to_name V.to_data map.now.rows ≡ Some d →
        IsAgain (RowsAlike V.Alike map.now.rows)
        (and_then (object_in d) (rows_in rule K0.cmp K1.cmp K0.of_name K1.of_name V.of_data [])) }
{
    map.in_order();
    elements_are_valid(map.values().zvl_as_borrowed());
}

/// What three lists that can be those of a table are written as is read as three lists alike, or
/// is too large.
fn vectors_are_read_again<T: JsonValue, K: JsonAgain, V: JsonAgain>(
    displacements: ZeroSlice<'_, T>,
    keys: KvSlice<'_, K>,
    values: KvSlice<'_, V>,
)
    requires { parts_fault (length (values_in displacements)) (length (list_of keys))
        (length (list_of values)) ≡ None }
    ensures { (takes_key takes_value : List (List ℕ) → ℕ → Bool) (d : Data) →
        table_written T.value_data K.to_data V.to_data (values_in displacements.entry)
        (list_of keys.entry) (list_of values.entry) ≡ Some d →
        IsAgain (TableAlike K.Alike V.Alike (values_in displacements.entry) (list_of keys.entry)
        (list_of values.entry)) (table_in (list_in T.value_in) (container_in takes_key K.of_data)
        (container_in takes_value V.of_data) d) }
{
    values_are_valid::<T>(displacements.as_bytes());
    elements_are_valid(keys);
    elements_are_valid(values);
}

/// What a hash table is written as is read as three lists alike, which can be those of a table, or
/// is too large for its lists.
#[tactic(auto, using(crate::proofs::TablesAgain::no_parts_fault))]
pub fn tables_are_read_again<
    K: JsonAgain + HashBytes,
    V: JsonAgain,
    C: ZvContainer<K>,
    D: ZvContainer<V>,
>(table: &HashMapOver<'_, K, V, C, D>)
    ensures { (takes_key takes_value : List (List ℕ) → ℕ → Bool) (d : Data) →
        table_written ⟦<(u32, u32) as JsonValue>⟧.value_data K.to_data V.to_data
        table.now.displacements table.now.keys table.now.values ≡ Some d →
        IsAgain (TableAlike K.Alike V.Alike table.now.displacements table.now.keys table.now.values)
        (table_in (list_in ⟦<(u32, u32) as JsonValue>⟧.value_in) (container_in takes_key K.of_data)
        (container_in takes_value V.of_data) d) }
{
    vectors_are_read_again(table.displacements(), table.keys(), table.values());
}
