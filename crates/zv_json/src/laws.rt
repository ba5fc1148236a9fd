// The laws of JSON, each the contract of a function that does nothing.
ghost use Rattle.std.specs.Prelude.{◌≡◌, List, ℕ, IsTrue, None, Ok, Some, map};
ghost use Rattle.std.specs.List.{AllByRecursion};
ghost use Rattle.serde_json.specs.Data.{Data};
ghost use Rattle.zv_json.specs.Again.{AreElements, EachAlike, IsAgain};
ghost use Rattle.zv_json.specs.Arrays.{array_written, list_in};
ghost use Rattle.zv_ule.specs.Bytes.{IsBytes};

use crate::again::JsonAgain;
use crate::value::JsonValue;

/// What is written of values of fixed width is read as these values:
///
/// - `value`, `list`: of one, and of a list of them;
/// - `name`: and the name of a key as the key.
pub fn values_are_read_back<T: JsonValue>()
    ensures value { (v : T) (d : Data) → T.is_value v → T.value_data v ≡ Some d →
        T.value_in d ≡ Ok v }
    ensures list { (vs : List T) (d : Data) → AllByRecursion T.is_value vs →
        array_written (map T.value_data vs) ≡ Some d → list_in T.value_in d ≡ Ok vs }
    ensures name { (v : T) (name : List ℕ) → T.is_value v → T.value_name v ≡ Some name →
        T.named name ≡ Some v }
{}

/// What is written of elements is read as elements alike, or is too large for a format:
///
/// - `element`, `list`: of one, and of a list of them;
/// - `name`: and the name of a key as the key.
pub fn elements_are_read_again<T: JsonAgain>()
    requires { IsTrue T.usable }
    ensures element { (e : List ℕ) (d : Data) → IsBytes e → T.fault e ≡ None →
        T.to_data e ≡ Some d → IsAgain (T.Alike e) (T.of_data d) }
    ensures list { (xs : List (List ℕ)) (d : Data) → AreElements T.fault xs →
        array_written (map T.to_data xs) ≡ Some d →
        IsAgain (EachAlike T.Alike xs) (list_in T.of_data d) }
    ensures name { (e name : List ℕ) → IsBytes e → T.fault e ≡ None → T.to_name e ≡ Some name →
        T.of_name name ≡ Some e }
{}
