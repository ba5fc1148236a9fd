// Tuples as JSON: arrays of their parts.
ghost use Rattle.std.specs.Prelude.{◌≡◌, [], ◌∷◌, None, false, refl};
ghost use Rattle.std.specs.Prelude.{Ok};
ghost use Rattle.zv_json.specs.Arrays.{array_written, of_five, of_four, of_six, of_three, of_two};
ghost use Rattle.zv_json.specs.Back.{no_item, nothing_named, of_items, one_item, then_ok};
ghost use Rattle.zv_json.specs.Json.{and_then, items_in};

use crate::arrays::items_in;
use crate::error::JsonError;
use crate::value::JsonValue;
use serde_json::Value;
use std::alloc::Global;

impl<A: JsonValue, B: JsonValue> JsonValue for (A, B) {
    const KEY: bool = false;

    ghost KEY = { false };

    ghost value_data = { λ v. array_written (A.value_data v.0 ∷ B.value_data v.1 ∷ []) };

    ghost value_in = { λ j. and_then (items_in j) (of_two (λ a b. and_then (A.value_in a) (λ va.
        and_then (B.value_in b) (λ vb. Ok (va, vb))))) };

    ghost value_name = { λ _. None };

    ghost named = { λ _. None };

    ghost back = { λ v j h. of_items (A.value_data v.0 ∷ B.value_data v.1 ∷ []) _
        (one_item _ (λ a ra. one_item _ (λ b rb. no_item _ (then_ok _ (A.back v.0 a h.0 ra)
        (then_ok _ (B.back v.1 b h.1 rb) refl))))) j };

    ghost named_back = { λ v name _. nothing_named v name };

    fn to_value(self, alloc: Global) -> Result<Value, JsonError> {
        let parts = vec![in alloc; self.0.to_value(alloc)?, self.1.to_value(alloc)?]?;
        Ok(Value::Array(parts))
    }

    fn from_value(value: &Value) -> Result<(A, B), JsonError> {
        let [a, b] = items_in(value)? else {
            return Err(JsonError::Shape);
        };
        Ok((A::from_value(a)?, B::from_value(b)?))
    }

    fn to_name(self, _alloc: Global) -> Result<Option<String>, JsonError> {
        Ok(None)
    }

    fn from_name(_name: &str) -> Option<(A, B)> {
        None
    }
}

impl<A: JsonValue, B: JsonValue, C: JsonValue> JsonValue for (A, B, C) {
    const KEY: bool = false;

    ghost KEY = { false };

    ghost value_data = { λ v. array_written (A.value_data v.0 ∷ B.value_data v.1 ∷
        C.value_data v.2 ∷ []) };

    ghost value_in = { λ j. and_then (items_in j) (of_three (λ a b c. and_then (A.value_in a) (λ va.
        and_then (B.value_in b) (λ vb. and_then (C.value_in c) (λ vc. Ok (va, vb, vc)))))) };

    ghost value_name = { λ _. None };

    ghost named = { λ _. None };

    ghost back = { λ v j h. of_items (A.value_data v.0 ∷ B.value_data v.1 ∷ C.value_data v.2 ∷ []) _
        (one_item _ (λ a ra. one_item _ (λ b rb. one_item _ (λ c rc. no_item _
        (then_ok _ (A.back v.0 a h.0 ra) (then_ok _ (B.back v.1 b h.1.0 rb)
        (then_ok _ (C.back v.2 c h.1.1 rc) refl))))))) j };

    ghost named_back = { λ v name _. nothing_named v name };

    fn to_value(self, alloc: Global) -> Result<Value, JsonError> {
        let parts = vec![in alloc;
            self.0.to_value(alloc)?,
            self.1.to_value(alloc)?,
            self.2.to_value(alloc)?,
        ]?;
        Ok(Value::Array(parts))
    }

    fn from_value(value: &Value) -> Result<(A, B, C), JsonError> {
        let [a, b, c] = items_in(value)? else {
            return Err(JsonError::Shape);
        };
        Ok((A::from_value(a)?, B::from_value(b)?, C::from_value(c)?))
    }

    fn to_name(self, _alloc: Global) -> Result<Option<String>, JsonError> {
        Ok(None)
    }

    fn from_name(_name: &str) -> Option<(A, B, C)> {
        None
    }
}

impl<A: JsonValue, B: JsonValue, C: JsonValue, D: JsonValue> JsonValue for (A, B, C, D) {
    const KEY: bool = false;

    ghost KEY = { false };

    ghost value_data = { λ v. array_written (A.value_data v.0 ∷ B.value_data v.1 ∷
        C.value_data v.2 ∷ D.value_data v.3 ∷ []) };

    ghost value_in = { λ j. and_then (items_in j) (of_four (λ a b c d.
        and_then (A.value_in a) (λ va. and_then (B.value_in b) (λ vb. and_then (C.value_in c) (λ vc.
        and_then (D.value_in d) (λ vd. Ok (va, vb, vc, vd))))))) };

    ghost value_name = { λ _. None };

    ghost named = { λ _. None };

    ghost back = { λ v j h. of_items (A.value_data v.0 ∷ B.value_data v.1 ∷ C.value_data v.2 ∷
        D.value_data v.3 ∷ []) _ (one_item _ (λ a ra. one_item _ (λ b rb. one_item _ (λ c rc.
        one_item _ (λ d rd. no_item _ (then_ok _ (A.back v.0 a h.0 ra)
        (then_ok _ (B.back v.1 b h.1.0 rb) (then_ok _ (C.back v.2 c h.1.1.0 rc)
        (then_ok _ (D.back v.3 d h.1.1.1 rd) refl))))))))) j };

    ghost named_back = { λ v name _. nothing_named v name };

    fn to_value(self, alloc: Global) -> Result<Value, JsonError> {
        let parts = vec![in alloc;
            self.0.to_value(alloc)?,
            self.1.to_value(alloc)?,
            self.2.to_value(alloc)?,
            self.3.to_value(alloc)?,
        ]?;
        Ok(Value::Array(parts))
    }

    fn from_value(value: &Value) -> Result<(A, B, C, D), JsonError> {
        let [a, b, c, d] = items_in(value)? else {
            return Err(JsonError::Shape);
        };
        Ok((
            A::from_value(a)?,
            B::from_value(b)?,
            C::from_value(c)?,
            D::from_value(d)?,
        ))
    }

    fn to_name(self, _alloc: Global) -> Result<Option<String>, JsonError> {
        Ok(None)
    }

    fn from_name(_name: &str) -> Option<(A, B, C, D)> {
        None
    }
}

impl<A: JsonValue, B: JsonValue, C: JsonValue, D: JsonValue, E: JsonValue> JsonValue
    for (A, B, C, D, E) {
    const KEY: bool = false;

    ghost KEY = { false };

    ghost value_data = { λ v. array_written (A.value_data v.0 ∷ B.value_data v.1 ∷
        C.value_data v.2 ∷ D.value_data v.3 ∷ E.value_data v.4 ∷ []) };

    ghost value_in = { λ j. and_then (items_in j) (of_five (λ a b c d e.
        and_then (A.value_in a) (λ va. and_then (B.value_in b) (λ vb. and_then (C.value_in c) (λ vc.
        and_then (D.value_in d) (λ vd. and_then (E.value_in e) (λ ve.
        Ok (va, vb, vc, vd, ve)))))))) };

    ghost value_name = { λ _. None };

    ghost named = { λ _. None };

    ghost back = { λ v j h. of_items (A.value_data v.0 ∷ B.value_data v.1 ∷ C.value_data v.2 ∷
        D.value_data v.3 ∷ E.value_data v.4 ∷ []) _ (one_item _ (λ a ra. one_item _ (λ b rb.
        one_item _ (λ c rc. one_item _ (λ d rd. one_item _ (λ e re. no_item _
        (then_ok _ (A.back v.0 a h.0 ra) (then_ok _ (B.back v.1 b h.1.0 rb)
        (then_ok _ (C.back v.2 c h.1.1.0 rc) (then_ok _ (D.back v.3 d h.1.1.1.0 rd)
        (then_ok _ (E.back v.4 e h.1.1.1.1 re) refl))))))))))) j };

    ghost named_back = { λ v name _. nothing_named v name };

    fn to_value(self, alloc: Global) -> Result<Value, JsonError> {
        let parts = vec![in alloc;
            self.0.to_value(alloc)?,
            self.1.to_value(alloc)?,
            self.2.to_value(alloc)?,
            self.3.to_value(alloc)?,
            self.4.to_value(alloc)?,
        ]?;
        Ok(Value::Array(parts))
    }

    fn from_value(value: &Value) -> Result<(A, B, C, D, E), JsonError> {
        let [a, b, c, d, e] = items_in(value)? else {
            return Err(JsonError::Shape);
        };
        Ok((
            A::from_value(a)?,
            B::from_value(b)?,
            C::from_value(c)?,
            D::from_value(d)?,
            E::from_value(e)?,
        ))
    }

    fn to_name(self, _alloc: Global) -> Result<Option<String>, JsonError> {
        Ok(None)
    }

    fn from_name(_name: &str) -> Option<(A, B, C, D, E)> {
        None
    }
}

impl<A: JsonValue, B: JsonValue, C: JsonValue, D: JsonValue, E: JsonValue, F: JsonValue> JsonValue
    for (A, B, C, D, E, F) {
    const KEY: bool = false;

    ghost KEY = { false };

    ghost value_data = { λ v. array_written (A.value_data v.0 ∷ B.value_data v.1 ∷
        C.value_data v.2 ∷ D.value_data v.3 ∷ E.value_data v.4 ∷ F.value_data v.5 ∷ []) };

    ghost value_in = { λ j. and_then (items_in j) (of_six (λ a b c d e f.
        and_then (A.value_in a) (λ va. and_then (B.value_in b) (λ vb. and_then (C.value_in c) (λ vc.
        and_then (D.value_in d) (λ vd. and_then (E.value_in e) (λ ve. and_then (F.value_in f) (λ vf.
        Ok (va, vb, vc, vd, ve, vf))))))))) };

    ghost value_name = { λ _. None };

    ghost named = { λ _. None };

    ghost back = { λ v j h. of_items (A.value_data v.0 ∷ B.value_data v.1 ∷ C.value_data v.2 ∷
        D.value_data v.3 ∷ E.value_data v.4 ∷ F.value_data v.5 ∷ []) _ (one_item _ (λ a ra.
        one_item _ (λ b rb. one_item _ (λ c rc. one_item _ (λ d rd. one_item _ (λ e re.
        one_item _ (λ f rf. no_item _ (then_ok _ (A.back v.0 a h.0 ra)
        (then_ok _ (B.back v.1 b h.1.0 rb) (then_ok _ (C.back v.2 c h.1.1.0 rc)
        (then_ok _ (D.back v.3 d h.1.1.1.0 rd) (then_ok _ (E.back v.4 e h.1.1.1.1.0 re)
        (then_ok _ (F.back v.5 f h.1.1.1.1.1 rf) refl))))))))))))) j };

    ghost named_back = { λ v name _. nothing_named v name };

    fn to_value(self, alloc: Global) -> Result<Value, JsonError> {
        let parts = vec![in alloc;
            self.0.to_value(alloc)?,
            self.1.to_value(alloc)?,
            self.2.to_value(alloc)?,
            self.3.to_value(alloc)?,
            self.4.to_value(alloc)?,
            self.5.to_value(alloc)?,
        ]?;
        Ok(Value::Array(parts))
    }

    fn from_value(value: &Value) -> Result<(A, B, C, D, E, F), JsonError> {
        let [a, b, c, d, e, f] = items_in(value)? else {
            return Err(JsonError::Shape);
        };
        Ok((
            A::from_value(a)?,
            B::from_value(b)?,
            C::from_value(c)?,
            D::from_value(d)?,
            E::from_value(e)?,
            F::from_value(f)?,
        ))
    }

    fn to_name(self, _alloc: Global) -> Result<Option<String>, JsonError> {
        Ok(None)
    }

    fn from_name(_name: &str) -> Option<(A, B, C, D, E, F)> {
        None
    }
}
