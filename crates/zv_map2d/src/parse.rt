// Reading a map from the bytes of its vectors.
ghost use Rattle.std.specs.Prelude.{◌≡◌, ℕ, false, Some, IfOk, IfErr, IsTrue, length};
ghost use Rattle.std.specs.List.{list_all};
ghost use Rattle.std.specs.Option.{option_map};
ghost use Rattle.std.specs.Result.{result_err};
ghost use Rattle.zv_fixed.specs.Views.{values_in};
ghost use Rattle.zv_var.specs.Format.{pieces};
ghost use Rattle.zv_map.specs.Vectors.{fixed_vector, vector_of};
ghost use Rattle.zv_map2d.specs.Causes.{Lists, is_parts_cause, joiner_fault, last_ascending};
ghost use Rattle.zv_map2d.specs.Causes.{lists_fault, numbers, read_fault, reading, readings};
ghost use Rattle.zv_map2d.specs.Causes.{rows_read};
ghost use Rattle.zv_map2d.specs.Frame.{Parts as PartsSeen};
ghost use Rattle.zv_map2d.specs.Keys.{ascends};
ghost use Rattle.zv_map2d.specs.Rows.{IsWell, rows_of};
ghost use Rattle.zv_map2d.specs.Views.{IsBorrowed, parts_of};
ghost use Rattle.zv_map2d.specs.declared.error.EditError.TheVariants.{Ule};

use crate::error::EditError;
use crate::map::Map2dOver;
use std::marker::PhantomData;
use zv_fixed::{ZeroSlice, ZeroVec};
use zv_map::{MutableZeroVecLike, ZeroVecLike, ZeroVecSearch};
use zv_ule::{ZvKind, ZvOrd};

/// The numbers of a joiner.
pub(crate) fn read_joiner<'a>(bytes: &'a [u8]) -> Result<ZeroVec<'a, u32>, EditError>
    ensures error { result_err result ≡ option_map Ule (joiner_fault bytes.now) }
    ensures bytes { IfOk result (λ joiner. joiner.bytes ≡ bytes.now) }
    ensures values { IfOk result (λ joiner. joiner.values ≡ numbers bytes.now) }
    ensures borrowed { IfOk result (λ joiner. joiner.owned ≡ false) }
    ensures cause { IfErr result (λ e. IsTrue (is_parts_cause e)) }
{
    ZeroVec::parse_bytes(bytes).map_err(EditError::Ule)
}

/// The list of elements of one kind, in its container.
fn read_list<'a, K: ZvKind, C: MutableZeroVecLike<'a, K>>(bytes: &'a [u8]) -> Result<C, EditError>
    requires { IsTrue K.usable }
    ensures error { result_err result ≡ option_map Ule (C.parse_fault bytes.now) }
    ensures bytes { IfOk result (λ list. C.bytes list ≡ bytes.now) }
    ensures list { IfOk result (λ list. C.list list ≡ C.parse_list bytes.now) }
    ensures borrowed { IfOk result (λ list. C.owned list ≡ false) }
    ensures cause { IfErr result (λ e. IsTrue (is_parts_cause e)) }
{
    C::zvl_parse(bytes).map_err(EditError::Ule)
}

/// The last end, or 0 where there is none, if the ends ascend from above 0, else `None`.
fn last_ascending_end(joiner: ZeroSlice<'_, u32>) -> Option<u32>
    ensures { result ≡ last_ascending 0 (values_in joiner.entry) }
{
    let mut last = 0;
    for end in joiner.iter() {
        if end <= last {
            return None;
        }
        last = end;
    }
    Some(last)
}

/// Whether the keys ascend in each row.
fn rows_ascend<K: ZvOrd, C: ZeroVecLike<K>>(keys: &C, joiner: ZeroSlice<'_, u32>) -> bool
    requires { last_ascending 0 (values_in joiner) ≡ Some (length (C.list keys.now)) }
    ensures { result
        ≡ list_all (ascends K.cmp) (pieces (C.list keys.now) 0 (values_in joiner.entry)) }
{
    let mut start = 0;
    for end in joiner.iter() {
        let end = end as usize;
        if !keys.zvl_is_ascending_between(start, end) {
            return false;
        }
        start = end;
    }
    true
}

/// The first cause that lies in the lists.
fn check_lists<
    K0: ZvOrd,
    K1: ZvOrd,
    V: ZvKind,
    C0: ZeroVecLike<K0>,
    C1: ZeroVecLike<K1>,
    D: ZeroVecLike<V>,
>(keys0: &C0, joiner: &ZeroVec<'_, u32>, keys1: &C1, values: &D) -> Result<(), EditError>
    ensures error { result_err result ≡ lists_fault K0.cmp K1.cmp (record {
      keys0 = C0.list keys0.now;
      joiner = joiner.now.values;
      keys1 = C1.list keys1.now;
      values = D.list values.now;
    }) }
    ensures cause { IfErr result (λ e. IsTrue (is_parts_cause e)) }
{
    let joiner = joiner.as_slice();
    let pairs = keys1.zvl_len();
    if keys0.zvl_len() != joiner.len() {
        return Err(EditError::Keys0Joiner);
    }
    if pairs != values.zvl_len() {
        return Err(EditError::Keys1Values);
    }
    let Some(end) = last_ascending_end(joiner) else {
        return Err(EditError::JoinerOrder);
    };
    if end as usize != pairs {
        return Err(EditError::JoinerEnd);
    }
    if !(keys0.zvl_is_ascending() && rows_ascend::<K1, C1>(keys1, joiner)) {
        return Err(EditError::KeyOrder);
    }
    Ok(())
}

impl<
    'a,
    K0: ZvOrd,
    K1: ZvOrd,
    V: ZvKind,
    C0: MutableZeroVecLike<'a, K0> + Drop,
    C1: MutableZeroVecLike<'a, K1> + Drop,
    D: MutableZeroVecLike<'a, V> + Drop,
> Map2dOver<'a, K0, K1, V, C0, C1, D> {
    /// The map of four vectors.
    ///
    /// `joiner` has for each row the number of pairs up to its end.
    ///
    /// # Errors
    /// The first cause in the order of [`EditError`]'s variants from `Keys0Joiner` to `KeyOrder`.
    /// The vectors are dropped then.
    ///
    /// # Cost
    /// Each key is looked at once for its order. It takes no memory.
    pub fn from_vecs(
        keys0: C0,
        joiner: ZeroVec<'a, u32>,
        keys1: C1,
        values: D,
    ) -> Result<Self, EditError>
        requires keys0 { IsTrue K0.usable }
        requires keys1 { IsTrue K1.usable }
        requires values { IsTrue V.usable }
        ensures error { result_err result ≡ lists_fault K0.cmp K1.cmp (record {
          keys0 = C0.list keys0;
          joiner = joiner.entry.values;
          keys1 = C1.list keys1;
          values = D.list values;
        }) }
        ensures rows { IfOk result (λ m. m.rows
            ≡ rows_of (C0.list keys0) joiner.entry.values (C1.list keys1) (D.list values)) }
        ensures well { IfOk result (λ m. IsWell K0.cmp K1.cmp m.rows) }
        ensures keys0 { IfOk result (λ m. m.keys0
            ≡ vector_of C0.bytes C0.layout C0.spare C0.owned C0.ready keys0) }
        ensures joiner { IfOk result (λ m. m.joiner
            ≡ fixed_vector 4 joiner.entry.bytes joiner.entry.spare joiner.entry.owned) }
        ensures keys1 { IfOk result (λ m. m.keys1
            ≡ vector_of C1.bytes C1.layout C1.spare C1.owned C1.ready keys1) }
        ensures values { IfOk result (λ m. m.values
            ≡ vector_of D.bytes D.layout D.spare D.owned D.ready values) }
        ensures cause { IfErr result (λ e. IsTrue (is_parts_cause e)) }
    {
        check_lists::<K0, K1, V, C0, C1, D>(&keys0, &joiner, &keys1, &values)?;
        Ok(Map2dOver {
            keys0,
            joiner,
            keys1,
            values,
            kinds: PhantomData,
        })
    }

    /// The map of four vectors, each given as its bytes, which the map keeps.
    ///
    /// `joiner` has for each row the number of pairs up to its end, as four bytes, the lowest
    /// first. The other vectors are in the layouts of their containers.
    ///
    /// # Errors
    /// The first of these: the joiner's bytes are no numbers; a vector's own error, the first keys'
    /// before the second keys' before the values'; then the first cause in the order of
    /// [`EditError`]'s variants from `Keys0Joiner` on. It is never `Frame`, `Memory` or `Write`.
    ///
    /// # Cost
    /// Each element is looked at once for its kind, and each key once more for its order. It takes
    /// no memory.
    pub fn parse_parts(
        keys0: &'a [u8],
        joiner: &'a [u8],
        keys1: &'a [u8],
        values: &'a [u8],
    ) -> Result<Self, EditError>
        requires keys0 { IsTrue K0.usable }
        requires keys1 { IsTrue K1.usable }
        requires values { IsTrue V.usable }
        ensures error { result_err result ≡ read_fault (readings
            (reading C0.parse_fault C0.parse_list)
            (reading C1.parse_fault C1.parse_list)
            (reading D.parse_fault D.parse_list)
            K0.cmp K1.cmp)
            (record {
              keys0 = keys0.now;
              joiner = joiner.now;
              keys1 = keys1.now;
              values = values.now;
            }) }
        ensures rows { IfOk result (λ m. m.rows ≡ rows_read (readings
            (reading C0.parse_fault C0.parse_list)
            (reading C1.parse_fault C1.parse_list)
            (reading D.parse_fault D.parse_list)
            K0.cmp K1.cmp)
            (record {
              keys0 = keys0.now;
              joiner = joiner.now;
              keys1 = keys1.now;
              values = values.now;
            })) }
        ensures well { IfOk result (λ m. IsWell K0.cmp K1.cmp m.rows) }
        ensures parts { IfOk result (λ m. parts_of m ≡ record {
          keys0 = keys0.now;
          joiner = joiner.now;
          keys1 = keys1.now;
          values = values.now;
        }) }
        ensures borrowed { IfOk result IsBorrowed }
        ensures cause { IfErr result (λ e. IsTrue (is_parts_cause e)) }
    {
        let joiner = read_joiner(joiner)?;
        let keys0 = read_list::<K0, C0>(keys0)?;
        let keys1 = read_list::<K1, C1>(keys1)?;
        let values = read_list::<V, D>(values)?;
        Self::from_vecs(keys0, joiner, keys1, values)
    }
}
