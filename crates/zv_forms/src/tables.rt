// Hash tables as JSON.
ghost use Rattle.std.specs.Prelude.{◌≡◌, ◌&&◌, IfOk, IsTrue, true, length, map, ◌<◌};
ghost use Rattle.serde_json.specs.View.{view};
ghost use Rattle.zv_forms.specs.Tables.{container_in, table_in, table_written};
ghost use Rattle.zv_json.specs.Arrays.{array_written, list_in};
ghost use Rattle.zv_json.specs.Json.{UnlessMemory, or_wide};
ghost use Rattle.zv_fixed.specs.Views.{values_in};
ghost use Rattle.zv_map.specs.Views.{list_of};

use crate::form::{JsonForm, ToJson, parse};
use crate::maps::container_of_boxes;
use serde_json::Value;
use std::alloc::Global;
use zv_fixed::{ZeroSlice, ZeroVec};
use zv_hashmap::{HashBytes, HashMapOver};
use zv_json::{JsonError, JsonKind, JsonValue, elements_from_json, items_in, values_to_json};
use zv_map::{KvSlice, MutableZeroVecLike, ZvContainer};

/// The array of the elements of a container.
fn container_to_json<T: JsonKind>(alloc: Global, list: KvSlice<'_, T>) -> Result<Value, JsonError>
    ensures { UnlessMemory view (or_wide (array_written (map T.to_data (list_of list.entry))))
        result }
{
    let mut items = Vec::with_capacity(alloc, list.len())?;
    for element in list.iter() {
        items.push(T::element_to_json(alloc, element.as_bytes())?)?;
    }
    Ok(Value::Array(items))
}

/// The array of three vectors.
#[tactic(auto, using(crate::proofs::Lists::three_vectors))]
fn vectors_to_json<T: JsonValue, K: JsonKind, V: JsonKind>(
    alloc: Global,
    displacements: ZeroSlice<'_, T>,
    keys: KvSlice<'_, K>,
    values: KvSlice<'_, V>,
) -> Result<Value, JsonError>
    ensures { UnlessMemory view (or_wide (table_written T.value_data K.to_data V.to_data
        (values_in displacements.entry) (list_of keys.entry) (list_of values.entry))) result }
{
    let vectors = vec![in alloc;
        values_to_json(alloc, displacements)?,
        container_to_json(alloc, keys)?,
        container_to_json(alloc, values)?,
    ]?;
    Ok(Value::Array(vectors))
}

/// Reads a container.
fn container_from_json<'a, T: JsonKind, C: MutableZeroVecLike<'a, T>>(
    alloc: Global,
    value: &Value,
) -> Result<C, JsonError>
    requires { IsTrue T.usable }
    ensures owned { IfOk result (λ c. 0 < length (C.list c) → C.owned c ≡ true) }
    ensures list { UnlessMemory C.list (container_in C.takes_insert T.of_data (view value.now))
        result }
{
    let elements = elements_from_json::<T>(alloc, value)?;
    container_of_boxes(alloc, &elements)
}

impl<'a, K: JsonKind + HashBytes, V: JsonKind, C: ZvContainer<K>, D: ZvContainer<V>> ToJson
    for HashMapOver<'a, K, V, C, D> {
    ghost usable = { K.usable && V.usable };

    ghost json = { λ t. table_written ⟦<(u32, u32) as JsonValue>⟧.value_data K.to_data V.to_data
        t.displacements t.keys t.values };

    ghost reads = { λ d r. UnlessMemory (λ t. (t.displacements, t.keys, t.values))
        (table_in (list_in ⟦<(u32, u32) as JsonValue>⟧.value_in)
        (container_in C.takes_insert K.of_data) (container_in D.takes_insert V.of_data) d) r
        × IfOk r (λ t. 0 < length t.keys → (t.displacement_vector.owned ≡ true)
        × (t.key_vector.owned ≡ true) × (t.value_vector.owned ≡ true)) };

    fn to_json(&self, alloc: Global) -> Result<Value, JsonError> {
        vectors_to_json(alloc, self.displacements(), self.keys(), self.values())
    }
}

impl<
    'a,
    K: JsonKind + HashBytes,
    V: JsonKind,
    C: MutableZeroVecLike<'a, K> + Drop,
    D: MutableZeroVecLike<'a, V> + Drop,
> JsonForm<'a> for HashMapOver<'a, K, V, C, D> {
    fn from_json(alloc: Global, value: &Value) -> Result<HashMapOver<'a, K, V, C, D>, JsonError> {
        let [displacements, keys, values] = items_in(value)? else {
            return Err(JsonError::Shape);
        };
        let displacements = ZeroVec::from_json(alloc, displacements)?;
        let keys = container_from_json(alloc, keys)?;
        let values = container_from_json(alloc, values)?;
        HashMapOver::from_parts(displacements, keys, values).map_err(|_| JsonError::Shape)
    }

    fn from_json_text(alloc: Global, text: &str) -> Result<HashMapOver<'a, K, V, C, D>, JsonError> {
        Self::from_json(alloc, &parse(alloc, text)?)
    }
}
