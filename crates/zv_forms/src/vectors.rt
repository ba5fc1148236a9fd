// Lists as JSON: arrays of their elements.
ghost use Rattle.std.specs.Prelude.{◌≡◌, IfOk, IsTrue, Ok, length, map, not, true, ◌==◌};
ghost use Rattle.zv_json.specs.Arrays.{array_written, list_in};
ghost use Rattle.zv_json.specs.Json.{UnlessMemory, and_then};
ghost use Rattle.zv_forms.specs.Vectors.{list_taken};
ghost use Rattle.zv_owned.specs.Vectors.{vector_list, vector_owned};

use crate::form::{JsonForm, ToJson, parse};
use serde_json::Value;
use std::alloc::Global;
use zv_fixed::ZeroVec;
use zv_json::{
    JsonError, JsonKind, JsonValue, elements_from_json, elements_to_json, values_from_json,
    values_to_json,
};
use zv_owned::{VarZeroVec, VecError};
use zv_ule::{VarBox, VarULE, VarZeroVecFormat};

impl<'a, T: JsonValue> ToJson for ZeroVec<'a, T> {
    ghost usable = { T.usable };

    ghost json = { λ v. array_written (map T.value_data v.values) };

    ghost reads = { λ d r. UnlessMemory (λ v. v.values) (list_in T.value_in d) r
        × IfOk r (λ v. v.owned ≡ true) };

    fn to_json(&self, alloc: Global) -> Result<Value, JsonError> {
        values_to_json(alloc, self.as_slice())
    }
}

impl<'a, T: JsonValue> JsonForm<'a> for ZeroVec<'a, T> {
    fn from_json(alloc: Global, value: &Value) -> Result<ZeroVec<'a, T>, JsonError> {
        let values = values_from_json::<T>(alloc, value)?;
        Ok(ZeroVec::alloc_from_slice(alloc, &values)?)
    }

    fn from_json_text(alloc: Global, text: &str) -> Result<ZeroVec<'a, T>, JsonError> {
        Self::from_json(alloc, &parse(alloc, text)?)
    }
}

/// The list of some elements.
///
/// # Errors
/// `TooLarge` where the format can't hold them; else `Memory`.
#[tactic(auto, using(crate::proofs::Lists::themselves))]
fn list_of<T: JsonKind + VarULE, F: VarZeroVecFormat>(
    alloc: Global,
    elements: &[VarBox<T>],
) -> Result<VarZeroVec<'static, T, F>, JsonError>
    requires { IsTrue T.usable }
    ensures owned { IfOk result (λ v. vector_owned v ≡ not (length (vector_list v) == 0)) }
    ensures list { UnlessMemory vector_list (list_taken F.W elements.now) result }
{
    match VarZeroVec::try_from_elements(alloc, elements) {
        Ok(list) => Ok(list),
        Err(VecError::TooLarge) => Err(JsonError::TooLarge),
        Err(VecError::Memory) => Err(JsonError::Memory),
    }
}

impl<'a, T: JsonKind + VarULE, F: VarZeroVecFormat> ToJson for VarZeroVec<'a, T, F> {
    ghost usable = { T.usable };

    ghost json = { λ v. array_written (map T.to_data (vector_list v)) };

    ghost reads = { λ d r. UnlessMemory vector_list
        (and_then (list_in T.of_data d) (list_taken F.W)) r
        × IfOk r (λ v. vector_owned v ≡ not (length (vector_list v) == 0)) };

    fn to_json(&self, alloc: Global) -> Result<Value, JsonError> {
        elements_to_json(alloc, self.as_slice())
    }
}

impl<'a, T: JsonKind + VarULE, F: VarZeroVecFormat> JsonForm<'a> for VarZeroVec<'a, T, F> {
    fn from_json(alloc: Global, value: &Value) -> Result<VarZeroVec<'a, T, F>, JsonError> {
        let elements = elements_from_json::<T>(alloc, value)?;
        list_of(alloc, &elements)
    }

    fn from_json_text(alloc: Global, text: &str) -> Result<VarZeroVec<'a, T, F>, JsonError> {
        Self::from_json(alloc, &parse(alloc, text)?)
    }
}
