// Maps in one level as JSON.
ghost use Rattle.std.specs.Prelude.{◌≡◌, ◌&&◌, IfOk, IsTrue, Ok, OnOk, [], map};
ghost use Rattle.std.specs.Prelude.{◌-◌, false, length, slice_get, true, ◌⊎◌};
ghost use Rattle.serde_json.specs.Data.{object, no_members};
ghost use Rattle.serde_json.specs.View.{items_view, members_view, view};
ghost use Rattle.std.specs.Option.{option_map, option_map_or};
ghost use Rattle.std.specs.Ordering.{is_lt};
ghost use Rattle.zv_forms.specs.Maps.{AreColumnsOf, inserted, map_in, map_written, members_in};
ghost use Rattle.zv_forms.specs.Maps.{members_written};
ghost use Rattle.zv_forms.specs.Maps.{object_in, pair_written, pairs_in, put_last, refusal_of};
ghost use Rattle.zv_forms.specs.Tables.{pushed};
ghost use Rattle.zv_json.specs.Arrays.{array_written};
ghost use Rattle.zv_json.specs.Json.{UnlessMemory, or_wide};
ghost use Rattle.zv_map.specs.Iters.{left_of};
ghost use Rattle.zv_map1.specs.Fits.{fits, rule_of};
ghost use Rattle.zv_map1.specs.Room.{IsOwned, KeepsOwned};
ghost use Rattle.zv_map1.specs.Views.{insert_entry};
ghost use Rattle.zv_ule.specs.Views.{element_of};

use crate::form::{JsonForm, ToJson, parse};
use serde_json::{Map, Value, put};
use std::alloc::Global;
use zv_json::{JsonError, JsonKind, items_in};
use zv_map::{MapError, MutableZeroVecLike, ZeroMapIter, ZvContainer, container_of};
use zv_map1::MapOver;
use zv_ule::{VarBox, VarRef, ZvKind, ZvOrd};

// ---- writing

/// The object of pairs whose keys have names.
pub(crate) fn members_to_json<K: JsonKind, V: JsonKind>(
    alloc: Global,
    pairs: ZeroMapIter<'_, K, V>,
) -> Result<Value, JsonError>
    requires named { (left_of pairs ≡ []) ⊎ (K.KEY ≡ true) }
    ensures { UnlessMemory view (or_wide (option_map object
        (members_written K.to_name V.to_data no_members (left_of pairs.entry)))) result }
{
    let mut members = Map::new(alloc);
    for (key, value) in pairs {
        let Some(name) = K::key_to_text(alloc, key.as_bytes())? else {
            unreachable!();
        };
        let value = V::element_to_json(alloc, value.as_bytes())?;
        put(&mut members, alloc, name.as_str(), value)?;
    }
    Ok(Value::Object(members))
}

/// The array of a key and its value.
fn pair_to_json<K: JsonKind, V: JsonKind>(
    alloc: Global,
    key: VarRef<'_, K>,
    value: VarRef<'_, V>,
) -> Result<Value, JsonError>
    ensures { UnlessMemory view (or_wide (pair_written K.to_data V.to_data
        (element_of key.entry, element_of value.entry))) result }
{
    let pair = vec![in alloc;
        K::element_to_json(alloc, key.as_bytes())?,
        V::element_to_json(alloc, value.as_bytes())?,
    ]?;
    Ok(Value::Array(pair))
}

/// The array of pairs.
fn pairs_to_json<K: JsonKind, V: JsonKind>(
    alloc: Global,
    pairs: ZeroMapIter<'_, K, V>,
) -> Result<Value, JsonError>
    ensures { UnlessMemory view (or_wide (array_written
        (map (pair_written K.to_data V.to_data) (left_of pairs.entry)))) result }
{
    let mut items = Vec::new(alloc);
    for (key, value) in pairs {
        items.push(pair_to_json(alloc, key, value)?)?;
    }
    Ok(Value::Array(items))
}

// ---- reading

/// Why a pair is refused.
pub(crate) fn refusal_of(error: MapError) -> JsonError
    ensures { result ≡ refusal_of error }
{
    match error {
        MapError::TooLarge => JsonError::TooLarge,
        MapError::Memory => JsonError::Memory,
    }
}

/// Gives a key a value.
///
/// # Errors
/// `TooLarge` where the pair does not fit; else `Memory`.
fn insert<
    'a,
    K: JsonKind + ZvOrd,
    V: JsonKind,
    C: MutableZeroVecLike<'a, K> + Drop,
    D: MutableZeroVecLike<'a, V> + Drop,
>(
    alloc: Global,
    map: &mut MapOver<K, V, C, D>,
    key: &VarBox<K>,
    value: &VarBox<V>,
) -> Result<(), JsonError>
    ensures owned { OnOk result (KeepsOwned map.old map.new) }
    ensures pairs { UnlessMemory (λ _. map.new.pairs) (inserted
        (fits (rule_of C.takes_insert D.takes_insert D.takes_replace) K.cmp map.old.pairs key.now
        value.now) (insert_entry K.cmp map.old.pairs key.now value.now)) result }
{
    let _ = (key.as_bytes().len(), value.as_bytes().len());
    map.append_or_insert(alloc, key, value).map_err(refusal_of)?;
    Ok(())
}

/// Puts a pair at the end.
///
/// # Errors
/// `KeyOrder` where its key is not above all; else as [`insert`].
fn append<
    'a,
    K: JsonKind + ZvOrd,
    V: JsonKind,
    C: MutableZeroVecLike<'a, K> + Drop,
    D: MutableZeroVecLike<'a, V> + Drop,
>(
    alloc: Global,
    map: &mut MapOver<K, V, C, D>,
    key: &VarBox<K>,
    value: &VarBox<V>,
) -> Result<(), JsonError>
    ensures owned { OnOk result (KeepsOwned map.old map.new) }
    ensures pairs { UnlessMemory (λ _. map.new.pairs) (put_last
        (rule_of C.takes_insert D.takes_insert D.takes_replace) K.cmp map.old.pairs key.now
        value.now) result }
{
    let _ = (key.as_bytes().len(), value.as_bytes().len());
    match map.try_append(alloc, key, value).map_err(refusal_of)? {
        Some(_) => Err(JsonError::KeyOrder),
        None => Ok(()),
    }
}

/// Whether the key is above the last of the keys, or there is none.
fn is_next<K: JsonKind + ZvOrd>(keys: &[VarBox<K>], key: &VarBox<K>) -> bool
    ensures { result ≡ option_map_or (λ last. is_lt (K.cmp last key.now))
        (slice_get keys.now (length keys.now - 1)) true }
{
    match keys.get(keys.len().saturating_sub(1)) {
        Some(last) => last.as_ref().order(key.as_ref()).is_lt(),
        None => true,
    }
}

/// Reads the keys and the values of the members of an object whose keys ascend.
///
/// # Errors
/// Any, as soon as a key or a value is refused or a key is not above the last one.
fn ascending_columns<K: JsonKind + ZvOrd, V: JsonKind>(
    alloc: Global,
    members: &Map<String, Value>,
) -> Result<(Vec<VarBox<K>>, Vec<VarBox<V>>), JsonError>
    requires keys { IsTrue K.usable }
    requires values { IsTrue V.usable }
    ensures { IfOk result (λ r. AreColumnsOf K.cmp K.of_name K.of_data V.of_data
        (members_view members.now.entries) r.0.items r.1.items) }
{
    let mut keys = Vec::with_capacity(alloc, members.len())?;
    let mut values = Vec::with_capacity(alloc, members.len())?;
    for (name, value) in members.iter() {
        let name = name.as_str();
        let key = K::key_from_text(alloc, name)?;
        if !is_next(&keys, &key) {
            return Err(JsonError::KeyOrder);
        }
        keys.push(key)?;
        values.push(V::element_from_json(alloc, value)?)?;
    }
    Ok((keys, values))
}

/// The container of elements, which owns its bytes. They are written at once where it can do that.
///
/// # Errors
/// `TooLarge` where the container does not take the elements one after another; else `Memory`.
pub(crate) fn container_of_boxes<'a, T: ZvKind, C: MutableZeroVecLike<'a, T>>(
    alloc: Global,
    elements: &[VarBox<T>],
) -> Result<C, JsonError>
    requires { IsTrue T.usable }
    ensures owned { IfOk result (λ c. C.owned c ≡ true) }
    ensures list { UnlessMemory C.list (pushed C.takes_insert elements.now) result }
{
    let mut views = Vec::with_capacity(alloc, elements.len())?;
    for element in elements {
        views.push(element.as_ref())?;
    }
    container_of(alloc, &views).map_err(refusal_of)
}

/// Reads a map from the members of an object whose keys ascend, each of its lists being written at
/// once.
///
/// # Errors
/// Any, where the members have to be inserted one after another; else `Memory`.
fn map_of_ascending<
    'a,
    K: JsonKind + ZvOrd,
    V: JsonKind,
    C: MutableZeroVecLike<'a, K> + Drop,
    D: MutableZeroVecLike<'a, V> + Drop,
>(alloc: Global, members: &Map<String, Value>) -> Result<MapOver<K, V, C, D>, JsonError>
    requires keys { IsTrue K.usable }
    requires values { IsTrue V.usable }
    ensures owned { IfOk result IsOwned }
    ensures pairs { IfOk result (λ m. members_in
        (rule_of C.takes_insert D.takes_insert D.takes_replace) K.cmp K.of_name K.of_data V.of_data
        [] (members_view members.now.entries) ≡ Ok m.pairs) }
{
    let (keys, values) = ascending_columns(alloc, members)?;
    let keys = container_of_boxes(alloc, &keys)?;
    let values = container_of_boxes(alloc, &values)?;
    MapOver::from_vecs(keys, values).map_err(|_| JsonError::KeyOrder)
}

/// Reads a map from the members of an object. They are inserted one after another where their keys
/// don't ascend or one of them is refused, to find the first fault in reading order.
#[tactic(auto, using(crate::proofs::Lists::unnamed))]
fn map_of_members<
    'a,
    K: JsonKind + ZvOrd,
    V: JsonKind,
    C: MutableZeroVecLike<'a, K> + Drop,
    D: MutableZeroVecLike<'a, V> + Drop,
>(alloc: Global, members: &Map<String, Value>) -> Result<MapOver<K, V, C, D>, JsonError>
    requires keys { IsTrue K.usable }
    requires values { IsTrue V.usable }
    ensures owned { IfOk result IsOwned }
    ensures pairs { UnlessMemory (λ m. m.pairs) (object_in
        (rule_of C.takes_insert D.takes_insert D.takes_replace) K.cmp K.of_name K.of_data V.of_data
        K.KEY (members_view members.now.entries)) result }
{
    if !K::KEY && !members.is_empty() {
        return Err(JsonError::Shape);
    }
    match map_of_ascending(alloc, members) {
        Ok(map) => return Ok(map),
        Err(JsonError::Memory) => return Err(JsonError::Memory),
        Err(_) => {}
    }
    let mut map = MapOver::with_capacity(alloc, members.len())?;
    for (name, value) in members.iter() {
        let key = K::key_from_text(alloc, name.as_str())?;
        let value = V::element_from_json(alloc, value)?;
        insert(alloc, &mut map, &key, &value)?;
    }
    Ok(map)
}

/// Reads a map from the pairs of an array.
fn map_of_pairs<
    'a,
    K: JsonKind + ZvOrd,
    V: JsonKind,
    C: MutableZeroVecLike<'a, K> + Drop,
    D: MutableZeroVecLike<'a, V> + Drop,
>(alloc: Global, items: &[Value]) -> Result<MapOver<K, V, C, D>, JsonError>
    requires keys { IsTrue K.usable }
    requires values { IsTrue V.usable }
    ensures owned { IfOk result IsOwned }
    ensures pairs { UnlessMemory (λ m. m.pairs) (pairs_in
        (rule_of C.takes_insert D.takes_insert D.takes_replace) K.cmp K.of_name K.of_data V.of_data
        [] (map view items.now)) result }
{
    let mut map = MapOver::with_capacity(alloc, items.len())?;
    for item in items {
        let [key, value] = items_in(item)? else {
            return Err(JsonError::Shape);
        };
        let key = K::element_from_json(alloc, key)?;
        let value = V::element_from_json(alloc, value)?;
        append(alloc, &mut map, &key, &value)?;
    }
    Ok(map)
}

impl<K: JsonKind + ZvOrd, V: JsonKind, C: ZvContainer<K>, D: ZvContainer<V>> ToJson
    for MapOver<K, V, C, D> {
    ghost usable = { K.usable && V.usable };

    ghost json = { λ m. map_written K.KEY K.to_name K.to_data V.to_data m.pairs };

    ghost reads = { λ d r. UnlessMemory (λ m. m.pairs) (map_in
        (rule_of C.takes_insert D.takes_insert D.takes_replace) K.cmp K.of_name K.of_data V.of_data
        K.KEY d) r × IfOk r IsOwned };

    fn to_json(&self, alloc: Global) -> Result<Value, JsonError> {
        if K::KEY || self.is_empty() {
            members_to_json(alloc, self.as_borrowed().iter())
        } else {
            pairs_to_json(alloc, self.as_borrowed().iter())
        }
    }
}

impl<
    'a,
    K: JsonKind + ZvOrd,
    V: JsonKind,
    C: MutableZeroVecLike<'a, K> + Drop,
    D: MutableZeroVecLike<'a, V> + Drop,
> JsonForm<'a> for MapOver<K, V, C, D> {
    fn from_json(alloc: Global, value: &Value) -> Result<MapOver<K, V, C, D>, JsonError> {
        match value.as_object() {
            Some(members) => map_of_members(alloc, members),
            None => map_of_pairs(alloc, items_in(value)?),
        }
    }

    fn from_json_text(alloc: Global, text: &str) -> Result<MapOver<K, V, C, D>, JsonError> {
        Self::from_json(alloc, &parse(alloc, text)?)
    }
}
