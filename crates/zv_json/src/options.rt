// Values that may be missing, as JSON: `null`, or the value.
ghost use Rattle.std.specs.Prelude.{◌≡◌, [], ◌∷◌, None, Ok, Some, false, map, refl};
ghost use Rattle.std.specs.Char.{encode_utf8};
ghost use Rattle.serde_json.specs.Data.{null};
ghost use Rattle.zv_json.specs.Back.{nothing_named, option_back, then_ok};
ghost use Rattle.zv_json.specs.Json.{and_then};
ghost use Rattle.zv_json.specs.Laws.{array_not_null, boolean_not_null, number_not_null};
ghost use Rattle.zv_json.specs.Laws.{string_not_null};
ghost use Rattle.zv_json.specs.Options.{option_data, option_in};

use crate::error::JsonError;
use crate::number::JsonNumber;
use crate::value::JsonValue;
use serde_json::Value;
use std::alloc::Global;
use zv_ule::{NicheBytes, NichedOption};

/// A type of which no value is `null`, so that a value that may be missing has a form: every type
/// but options.
pub trait JsonPlain: JsonValue {
    ghost plain: { (v : Self) → Self.value_data v ≡ Some null → ⊥ };
}

impl<T: JsonNumber> JsonPlain for T {
    ghost plain = { λ v. number_not_null (T.integer v) };
}

impl JsonPlain for char {
    ghost plain = { λ c e. string_not_null (encode_utf8 c) e };
}

impl JsonPlain for bool {
    ghost plain = { λ b e. boolean_not_null b e };
}

impl<T: JsonPlain> JsonValue for Option<T> {
    const KEY: bool = false;

    ghost KEY = { false };

    ghost value_data = { option_data T.value_data };

    ghost value_in = { option_in T.value_in };

    ghost value_name = { λ _. None };

    ghost named = { λ _. None };

    ghost back = { option_back T.is_value T.value_data T.value_in T.back T.plain };

    ghost named_back = { λ v name _. nothing_named v name };

    fn to_value(self, alloc: Global) -> Result<Value, JsonError> {
        match self {
            Some(value) => value.to_value(alloc),
            None => Ok(Value::Null),
        }
    }

    fn from_value(value: &Value) -> Result<Option<T>, JsonError> {
        if value.is_null() {
            Ok(None)
        } else {
            Ok(Some(T::from_value(value)?))
        }
    }

    fn to_name(self, _alloc: Global) -> Result<Option<String>, JsonError> {
        Ok(None)
    }

    fn from_name(_name: &str) -> Option<Option<T>> {
        None
    }
}

impl<T: JsonPlain, const N: usize> JsonValue for NichedOption<T, N>
where
    T::ULE: NicheBytes<N>,
{
    const KEY: bool = false;

    ghost KEY = { false };

    ghost value_data = { λ v. option_data T.value_data v.0 };

    ghost value_in = { λ d. and_then (option_in T.value_in d) (λ v. Ok (record { 0 = v })) };

    ghost value_name = { λ _. None };

    ghost named = { λ _. None };

    ghost back = { λ v d h e. then_ok _
        (option_back T.is_value T.value_data T.value_in T.back T.plain v.0 d h e) refl };

    ghost named_back = { λ v name _. nothing_named v name };

    fn to_value(self, alloc: Global) -> Result<Value, JsonError> {
        self.0.to_value(alloc)
    }

    fn from_value(value: &Value) -> Result<NichedOption<T, N>, JsonError> {
        Ok(NichedOption(Option::<T>::from_value(value)?))
    }

    fn to_name(self, _alloc: Global) -> Result<Option<String>, JsonError> {
        Ok(None)
    }

    fn from_name(_name: &str) -> Option<NichedOption<T, N>> {
        None
    }
}

impl<A: JsonValue, B: JsonValue> JsonPlain for (A, B) {
    ghost plain = { λ v e. array_not_null (A.value_data v.0 ∷ B.value_data v.1 ∷ []) e };
}

impl<A: JsonValue, B: JsonValue, C: JsonValue> JsonPlain for (A, B, C) {
    ghost plain = { λ v e. array_not_null (A.value_data v.0 ∷ B.value_data v.1 ∷ C.value_data v.2 ∷
        []) e };
}

impl<A: JsonValue, B: JsonValue, C: JsonValue, D: JsonValue> JsonPlain for (A, B, C, D) {
    ghost plain = { λ v e. array_not_null (A.value_data v.0 ∷ B.value_data v.1 ∷ C.value_data v.2 ∷
        D.value_data v.3 ∷ []) e };
}

impl<A: JsonValue, B: JsonValue, C: JsonValue, D: JsonValue, E: JsonValue> JsonPlain
    for (A, B, C, D, E) {
    ghost plain = { λ v e. array_not_null (A.value_data v.0 ∷ B.value_data v.1 ∷ C.value_data v.2 ∷
        D.value_data v.3 ∷ E.value_data v.4 ∷ []) e };
}

impl<A: JsonValue, B: JsonValue, C: JsonValue, D: JsonValue, E: JsonValue, F: JsonValue> JsonPlain
    for (A, B, C, D, E, F) {
    ghost plain = { λ v e. array_not_null (A.value_data v.0 ∷ B.value_data v.1 ∷ C.value_data v.2 ∷
        D.value_data v.3 ∷ E.value_data v.4 ∷ F.value_data v.5 ∷ []) e };
}

impl<const N: usize> JsonPlain for [u8; N] {
    ghost plain = { λ vs e. array_not_null (map ⟦<u8 as JsonValue>⟧.value_data vs) e };
}

impl<const N: usize> JsonPlain for [u16; N] {
    ghost plain = { λ vs e. array_not_null (map ⟦<u16 as JsonValue>⟧.value_data vs) e };
}

impl<const N: usize> JsonPlain for [u32; N] {
    ghost plain = { λ vs e. array_not_null (map ⟦<u32 as JsonValue>⟧.value_data vs) e };
}

impl<const N: usize> JsonPlain for [u64; N] {
    ghost plain = { λ vs e. array_not_null (map ⟦<u64 as JsonValue>⟧.value_data vs) e };
}

impl<const N: usize> JsonPlain for [char; N] {
    ghost plain = { λ vs e. array_not_null (map ⟦<char as JsonValue>⟧.value_data vs) e };
}
