// Kinds whose elements are read as they were written.
ghost use Rattle.std.specs.Prelude.{◌≡◌, List, [], ℕ, ◌+◌, Some, None, IsTrue};
ghost use Rattle.std.proofs.Common.{sym};
ghost use Rattle.zv_json.specs.Again.{AlikeBehind, EachAlike, ReadsAgain, bytes_again};
ghost use Rattle.zv_json.specs.Again.{nested_again, second_usable, text_again, tuple_again};
ghost use Rattle.zv_json.specs.Again.{value_again, value_named, values_again};
ghost use Rattle.zv_json.specs.Back.{nothing_named};
ghost use Rattle.zv_json.specs.RecordsAgain.{FieldsAgain, FirstAlike, field_again, first_usable};
ghost use Rattle.zv_json.specs.RecordsAgain.{no_fields_again, record_again};
ghost use Rattle.zv_multi.specs.Records.{field_at};
ghost use Rattle.zv_ule.specs.Bytes.{IsBytes};
ghost use Rattle.zv_var.specs.Format.{elements, elements_after};

use crate::kind::JsonKind;
use crate::records::JsonFields;
use crate::value::JsonValue;
use zv_fixed::ZeroSliceULE;
use zv_multi::{End, Field, RecordULE, VarTupleULE};
use zv_ule::{SliceULE, StrULE, VarULE, VarZeroVecFormat, ZvKind};
use zv_var::VarZeroSliceULE;

/// A kind whose elements are read as they were written, but for how lists of no elements in them
/// are spelled.
pub trait JsonAgain: JsonKind {
    /// Holds of two elements that are the same but for that.
    ghost Alike: { List ℕ → List ℕ → Type 0 };

    /// What an element is written as is read as an element alike, or is too large for a format.
    ghost again: { IsTrue Self.usable → ReadsAgain Self.fault Alike Self.to_data Self.of_data };

    /// The name of a key is read as the key.
    ghost named_again: { (e name : List ℕ) → IsBytes e → Self.fault e ≡ None →
        Self.to_name e ≡ Some name → Self.of_name name ≡ Some e };
}

impl<T: JsonValue> JsonAgain for T {
    ghost Alike = { λ e x. e ≡ x };

    ghost again = { λ _. value_again T.kind T.ULE.spelling T.twin T.value_data T.value_in T.back };

    ghost named_again = { value_named T.kind T.ULE.spelling T.twin T.value_data T.value_in T.back
        T.value_name T.named T.named_back };
}

impl JsonAgain for StrULE {
    ghost Alike = { λ e x. e ≡ x };

    ghost again = { λ _. text_again ⟦<StrULE as ZvKind>⟧.fault };

    ghost named_again = { λ e name _ _ is. sym is };
}

impl<T: JsonValue> JsonAgain for ZeroSliceULE<T> {
    ghost Alike = { λ e x. e ≡ x };

    ghost again = { λ _. values_again T.kind T.ULE.spelling T.twin T.value_data T.value_in T.back };

    ghost named_again = { λ e name _ _. nothing_named e name };
}

impl JsonAgain for SliceULE<u8> {
    ghost Alike = { λ e x. e ≡ x };

    ghost again = { λ _. bytes_again ⟦<SliceULE<u8> as ZvKind>⟧.fault };

    ghost named_again = { λ e name _ _. nothing_named e name };
}

impl<T: JsonAgain + VarULE, F: VarZeroVecFormat> JsonAgain for VarZeroSliceULE<T, F> {
    ghost Alike = { λ e x. EachAlike T.Alike (elements F.W e) (elements F.W x) };

    ghost again = { λ usable. nested_again F.W T.fault T.Alike T.to_data T.of_data F.width_positive
        F.field_small (T.again usable) };

    ghost named_again = { λ e name _ _. nothing_named e name };
}

impl<A: JsonValue, V: JsonAgain + VarULE> JsonAgain for VarTupleULE<A, V> {
    ghost Alike = { AlikeBehind A.ULE.width V.Alike };

    ghost again = { λ usable. tuple_again A.kind A.ULE.spelling A.twin A.value_data A.value_in
        A.back V.fault V.Alike V.to_data V.of_data
        (V.again (second_usable A.usable V.usable usable)) };

    ghost named_again = { λ e name _ _. nothing_named e name };
}

/// The kinds of fields, one after another, each of which is read as it was written.
pub trait JsonFieldsAgain: JsonFields {
    /// Holds of fields, from a place on, and others that are alike.
    ghost AlikeFrom: { ℕ → List (List ℕ) → List (List ℕ) → Type 0 };

    /// What fields are written as is read as fields alike, or one is too large for a format.
    ghost fields_again: { IsTrue Self.usable →
        FieldsAgain Self.faults AlikeFrom Self.data_from Self.read };
}

impl JsonFieldsAgain for End {
    ghost AlikeFrom = { λ _ _ ys. ys ≡ [] };

    ghost fields_again = { λ _. no_fields_again };
}

impl<A: JsonAgain, R: JsonFieldsAgain> JsonFieldsAgain for Field<A, R> {
    ghost AlikeFrom = { λ i xs. FirstAlike (A.Alike (field_at xs i)) (R.AlikeFrom (i + 1) xs) };

    ghost fields_again = { λ usable. field_again A.fault A.Alike A.to_data A.of_data
        (A.again (first_usable A.usable R.usable usable)) R.faults R.AlikeFrom R.data_from R.read
        (R.fields_again (second_usable A.usable R.usable usable)) };
}

impl<const LEN: usize, K: JsonFieldsAgain, F: VarZeroVecFormat> JsonAgain for RecordULE<LEN, K, F> {
    ghost Alike = { λ e x. K.AlikeFrom 0 (elements_after F.W LEN e) (elements_after F.W LEN x) };

    ghost again = { λ usable. record_again F.W LEN K.faults K.AlikeFrom K.data_from K.read
        F.field_small (second_usable K.usable _ usable)
        (K.fields_again (first_usable K.usable _ usable)) };

    ghost named_again = { λ e name _ _. nothing_named e name };
}
