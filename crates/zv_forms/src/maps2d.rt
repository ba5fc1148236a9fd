// Maps in two levels as JSON.
ghost use Rattle.std.specs.Prelude.{◌≡◌, ◌&&◌, [], IfOk, IsTrue, OnOk, true};
ghost use Rattle.std.specs.Result.{result_map_both};
ghost use Rattle.serde_json.specs.View.{members_view, view};
ghost use Rattle.zv_forms.specs.Maps2d.{object_in, put_in, refusal_of, row_in, rows_in};
ghost use Rattle.zv_forms.specs.Maps2d.{rows_written};
ghost use Rattle.zv_json.specs.Json.{UnlessMemory, and_then, or_wide};
ghost use Rattle.zv_map2d.specs.Fits.{rule_of};
ghost use Rattle.zv_map2d.specs.Room.{IsOwned, KeepsOwned};

use crate::form::{JsonForm, ToJson, parse};
use crate::maps::members_to_json;
use serde_json::{Map, Value, put};
use std::alloc::Global;
use zv_json::{JsonError, JsonKey, JsonKind};
use zv_map::{MutableZeroVecLike, ZvContainer};
use zv_map2d::{Map2dError, Map2dOver, ZeroMap2dCursor};
use zv_ule::{VarBox, ZvOrd};

/// The members of a value that is to be an object.
fn object_in(value: &Value) -> Result<&Map<String, Value>, JsonError>
    ensures { result_map_both (λ m. members_view m.now.entries) (λ e. e) result
        ≡ object_in (view value.now) }
{
    value.as_object().ok_or(JsonError::Shape)
}

/// Why a pair is refused.
fn refusal_of(error: Map2dError) -> JsonError
    ensures { result ≡ refusal_of error }
{
    match error {
        Map2dError::TooLarge | Map2dError::TooMany => JsonError::TooLarge,
        Map2dError::Memory => JsonError::Memory,
    }
}

/// Gives a pair of keys a value.
///
/// # Errors
/// `TooLarge` where it does not fit, or would be one pair too many; else `Memory`.
#[tactic(auto, using(crate::proofs::Refused::refused))]
fn insert<
    'a,
    K0: JsonKey + ZvOrd,
    K1: JsonKey + ZvOrd,
    V: JsonKind,
    C0: MutableZeroVecLike<'a, K0> + Drop,
    C1: MutableZeroVecLike<'a, K1> + Drop,
    D: MutableZeroVecLike<'a, V> + Drop,
>(
    alloc: Global,
    map: &mut Map2dOver<'a, K0, K1, V, C0, C1, D>,
    key0: &VarBox<K0>,
    key1: &VarBox<K1>,
    value: &VarBox<V>,
) -> Result<(), JsonError>
    ensures owned { OnOk result (KeepsOwned map.old map.new) }
    ensures rows { UnlessMemory (λ _. map.new.rows) (put_in
        (rule_of C0.takes_insert C1.takes_insert D.takes_insert D.takes_replace) K0.cmp K1.cmp
        map.old.rows key0.now key1.now value.now) result }
{
    let _ = (
        key0.as_bytes().len(),
        key1.as_bytes().len(),
        value.as_bytes().len(),
    );
    map.insert(alloc, key0, key1, value).map_err(refusal_of)?;
    Ok(())
}

/// Puts the pairs of a row into a map.
fn insert_row<
    'a,
    K0: JsonKey + ZvOrd,
    K1: JsonKey + ZvOrd,
    V: JsonKind,
    C0: MutableZeroVecLike<'a, K0> + Drop,
    C1: MutableZeroVecLike<'a, K1> + Drop,
    D: MutableZeroVecLike<'a, V> + Drop,
>(
    alloc: Global,
    map: &mut Map2dOver<'a, K0, K1, V, C0, C1, D>,
    key0: &VarBox<K0>,
    row: &Map<String, Value>,
) -> Result<(), JsonError>
    requires key1 { IsTrue K1.usable }
    requires value { IsTrue V.usable }
    ensures owned { OnOk result (KeepsOwned map.old map.new) }
    ensures rows { UnlessMemory (λ _. map.new.rows) (row_in
        (rule_of C0.takes_insert C1.takes_insert D.takes_insert D.takes_replace) K0.cmp K1.cmp
        K0.of_name K1.of_name V.of_data key0.now map.old.rows (members_view row.now.entries))
        result }
{
    for (name, value) in row.iter() {
        let key1 = K1::key_from_text(alloc, name.as_str())?;
        let value = V::element_from_json(alloc, value)?;
        insert(alloc, map, key0, &key1, &value)?;
    }
    Ok(())
}

/// Reads a map from the members of an object.
fn map_of_rows<
    'a,
    K0: JsonKey + ZvOrd,
    K1: JsonKey + ZvOrd,
    V: JsonKind,
    C0: MutableZeroVecLike<'a, K0> + Drop,
    C1: MutableZeroVecLike<'a, K1> + Drop,
    D: MutableZeroVecLike<'a, V> + Drop,
>(
    alloc: Global,
    rows: &Map<String, Value>,
) -> Result<Map2dOver<'a, K0, K1, V, C0, C1, D>, JsonError>
    requires key0 { IsTrue K0.usable }
    requires key1 { IsTrue K1.usable }
    requires value { IsTrue V.usable }
    ensures owned { IfOk result IsOwned }
    ensures rows { UnlessMemory (λ m. m.rows) (rows_in
        (rule_of C0.takes_insert C1.takes_insert D.takes_insert D.takes_replace) K0.cmp K1.cmp
        K0.of_name K1.of_name V.of_data [] (members_view rows.now.entries)) result }
{
    let mut map = Map2dOver::with_capacity(alloc, rows.len())?;
    for (name, row) in rows.iter() {
        let key0 = K0::key_from_text(alloc, name.as_str())?;
        insert_row(alloc, &mut map, &key0, object_in(row)?)?;
    }
    Ok(map)
}

impl<
    'a,
    K0: JsonKey + ZvOrd,
    K1: JsonKey + ZvOrd,
    V: JsonKind,
    C0: ZvContainer<K0>,
    C1: ZvContainer<K1>,
    D: ZvContainer<V>,
> ToJson for Map2dOver<'a, K0, K1, V, C0, C1, D> {
    ghost usable = { K0.usable && (K1.usable && V.usable) };

    ghost json = { λ m. rows_written K0.to_name K1.to_name V.to_data m.rows };

    ghost reads = { λ d r. UnlessMemory (λ m. m.rows) (and_then (object_in d) (rows_in
        (rule_of C0.takes_insert C1.takes_insert D.takes_insert D.takes_replace) K0.cmp K1.cmp
        K0.of_name K1.of_name V.of_data [])) r × IfOk r IsOwned };

    fn to_json(&self, alloc: Global) -> Result<Value, JsonError> {
        let mut members = Map::new(alloc);
        for row in self.iter0() {
            let Some(name) = K0::key_to_text(alloc, row.key0().as_bytes())? else {
                unreachable!();
            };
            let pairs = members_to_json(alloc, row.iter1())?;
            put(&mut members, alloc, name.as_str(), pairs)?;
        }
        Ok(Value::Object(members))
    }
}

impl<
    'a,
    K0: JsonKey + ZvOrd,
    K1: JsonKey + ZvOrd,
    V: JsonKind,
    C0: MutableZeroVecLike<'a, K0> + Drop,
    C1: MutableZeroVecLike<'a, K1> + Drop,
    D: MutableZeroVecLike<'a, V> + Drop,
> JsonForm<'a> for Map2dOver<'a, K0, K1, V, C0, C1, D> {
    fn from_json(
        alloc: Global,
        value: &Value,
    ) -> Result<Map2dOver<'a, K0, K1, V, C0, C1, D>, JsonError> {
        map_of_rows(alloc, object_in(value)?)
    }

    fn from_json_text(
        alloc: Global,
        text: &str,
    ) -> Result<Map2dOver<'a, K0, K1, V, C0, C1, D>, JsonError> {
        Self::from_json(alloc, &parse(alloc, text)?)
    }
}
