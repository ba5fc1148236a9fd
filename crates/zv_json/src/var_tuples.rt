// Values with an element behind them as JSON: objects of the members `sized` and `variable`.
ghost use Rattle.std.specs.Prelude.{◌≡◌, None, Ok, false, drop, take, ◌++◌, IsTrue};
ghost use Rattle.std.specs.Result.{result_map_both};
ghost use Rattle.serde_json.specs.Data.{Data};
ghost use Rattle.serde_json.specs.View.{view};
ghost use Rattle.zv_json.specs.Json.{UnlessMemory, and_then, or_wide};
ghost use Rattle.zv_json.specs.Records.{parts_in, parts_written};

use crate::error::JsonError;
use crate::kind::JsonKind;
use crate::value::JsonValue;
use serde_json::{Map, Value, put};
use std::alloc::Global;
use zv_multi::{VarTuple, VarTupleULE};
use zv_ule::{AsULE, EncodeAsVarULE, ULE, VarBox, VarULE, encode_varule_to_box, load};

/// The values of the two members of an object.
fn parts_in(value: &Value) -> Result<(&Value, &Value), JsonError>
    ensures { result_map_both (λ p. (view p.0.now, view p.1.now)) (λ e. e) result
        ≡ parts_in (view value.now) }
{
    let members = value.as_object().ok_or(JsonError::Shape)?;
    let mut members = members.iter();
    let (Some((first, sized)), Some((second, variable)), None) = (
        members.next(),
        members.next(),
        members.next(),
    ) else {
        return Err(JsonError::Shape);
    };
    if first.as_str() == "sized" && second.as_str() == "variable" {
        Ok((sized, variable))
    } else {
        Err(JsonError::Shape)
    }
}

/// The object of two members.
fn object_of(alloc: Global, sized: Value, variable: Value) -> Result<Value, JsonError>
    ensures { UnlessMemory view (or_wide (parts_written (Some (view sized)) (Some (view variable))))
        result }
{
    let mut members = Map::new(alloc);
    put(&mut members, alloc, "sized", sized)?;
    put(&mut members, alloc, "variable", variable)?;
    Ok(Value::Object(members))
}

/// The element of a value and an element behind it.
fn pair_box<A: AsULE, V: VarULE>(
    alloc: Global,
    sized: A,
    variable: VarBox<V>,
) -> Result<VarBox<VarTupleULE<A, V>>, JsonError>
    requires sized { IsTrue A.usable }
    requires variable { IsTrue V.usable }
    ensures { UnlessMemory (λ b. b) (Ok (A.ULE.chunk (A.stored sized) ++ variable)) result }
{
    let pair = VarTuple { sized, variable };
    if !EncodeAsVarULE::<VarTupleULE<A, V>>::encode_var_ule_fits(&pair) {
        return Err(JsonError::Memory);
    }
    Ok(encode_varule_to_box(alloc, &pair)?)
}

impl<A: JsonValue, V: JsonKind + VarULE> JsonKind for VarTupleULE<A, V> {
    const KEY: bool = false;

    ghost KEY = { false };

    ghost to_data = { λ e. parts_written
        (A.value_data (A.loaded (A.ULE.value (take A.ULE.width e))))
        (V.to_data (drop A.ULE.width e)) };

    ghost of_data = { λ d. and_then (parts_in d) (λ p. and_then (A.value_in p.0) (λ a.
        and_then (V.of_data p.1) (λ b. Ok (A.ULE.chunk (A.stored a) ++ b)))) };

    ghost to_name = { λ _. None };

    ghost of_name = { λ _. None };

    fn element_to_json(alloc: Global, element: &[u8]) -> Result<Value, JsonError> {
        let (sized, variable) = element.split_at(<A::ULE as ULE>::size());
        let sized = load::<A>(sized).to_value(alloc)?;
        let variable = V::element_to_json(alloc, variable)?;
        object_of(alloc, sized, variable)
    }

    fn element_from_json(
        alloc: Global,
        value: &Value,
    ) -> Result<VarBox<VarTupleULE<A, V>>, JsonError> {
        let (sized, variable) = parts_in(value)?;
        let sized = A::from_value(sized)?;
        let variable = V::element_from_json(alloc, variable)?;
        pair_box(alloc, sized, variable)
    }

    fn key_to_text(_alloc: Global, _element: &[u8]) -> Result<Option<String>, JsonError> {
        Ok(None)
    }

    fn key_from_text(_alloc: Global, _text: &str) -> Result<VarBox<VarTupleULE<A, V>>, JsonError> {
        Err(JsonError::BadKey)
    }
}
