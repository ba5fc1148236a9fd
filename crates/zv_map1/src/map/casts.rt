// Maps whose keys or values are taken as those of another kind, in the same bytes.
ghost use Rattle.std.specs.Prelude.{◌≡◌, Bool, IfOk, IsTrue, None, true};
ghost use Rattle.std.specs.Result.{result_err};
ghost use Rattle.zv_map.specs.Maps.{IsMap};

use crate::map::MapOver;
use std::marker::PhantomData;
use zv_fixed::ZeroVec;
use zv_map::ZvContainer;
use zv_ule::{AsULE, ULE, UleError, ZvKind, ZvOrd};

/// A container that can be taken as one of another kind, in the same bytes: kinds whose values are
/// stored alike, each in a [`ZeroVec`].
pub trait CastInto<T: ZvKind, P: ZvKind, E: ZvContainer<P>>: ZvContainer<T> {
    /// The same list as one of the other kind. The bytes stay where they are.
    fn zvl_cast(self) -> E
        ensures list { E.list result ≡ Self.list self }
        ensures bytes { E.bytes result ≡ Self.bytes self }
        ensures layout { E.layout result ≡ Self.layout self }
        ensures spare { E.spare result ≡ Self.spare self }
        ensures owned { E.owned result ≡ Self.owned self }
        ensures ready { E.ready result ≡ Self.ready self }
        ensures usable { IsTrue T.usable → IsTrue P.usable };
}

/// A container whose bytes can be taken as those of another kind, if they are all of it: kinds of
/// one width, each in a [`ZeroVec`].
pub trait ConvertInto<T: ZvKind, P: ZvKind, E: ZvContainer<P>>: ZvContainer<T> {
    /// Whether elements of the two kinds are equally wide.
    ghost same_width: { Bool };

    /// The list of the other kind that the bytes are, which stay where they are.
    ///
    /// # Errors
    /// The error of the bytes as a list of the kind. The container is dropped then.
    fn zvl_try_convert(self) -> Result<E, UleError>
        requires widths { same_width ≡ true }
        requires usable { IsTrue T.usable }
        ensures error { result_err result ≡ E.parse_fault (Self.bytes self) }
        ensures list { IfOk result (λ c. E.list c ≡ Self.list self) }
        ensures bytes { IfOk result (λ c. E.bytes c ≡ Self.bytes self) }
        ensures layout { IfOk result (λ c. E.layout c ≡ Self.layout self) }
        ensures spare { IfOk result (λ c. E.spare c ≡ Self.spare self) }
        ensures owned { IfOk result (λ c. E.owned c ≡ Self.owned self) }
        ensures ready { IfOk result (λ c. E.ready c ≡ Self.ready self) }
        ensures usable { IsTrue P.usable };
}

impl<'a, T: AsULE, P: AsULE<ULE = T::ULE>> CastInto<T, P, ZeroVec<'a, P>> for ZeroVec<'a, T> {
    #[inline]
    fn zvl_cast(self) -> ZeroVec<'a, P> {
        self.cast::<P>()
    }
}

impl<'a, T: AsULE, P: AsULE> ConvertInto<T, P, ZeroVec<'a, P>> for ZeroVec<'a, T> {
    ghost use Rattle.std.specs.Prelude.{◌==◌};

    ghost same_width = { P.ULE.width == T.ULE.width };

    #[inline]
    fn zvl_try_convert(self) -> Result<ZeroVec<'a, P>, UleError> {
        self.try_into_converted::<P>()
    }
}

impl<K: ZvOrd, V: ZvKind, C: ZvContainer<K> + Drop, D: ZvContainer<V> + Drop> MapOver<K, V, C, D> {
    /// The same pairs with keys of a kind whose values are stored alike, and by whose order the
    /// keys ascend too. The bytes stay where they are.
    #[tactic(auto, using(crate::proofs::Zipped::parts))]
    pub fn cast_zv_k_unchecked<P: ZvOrd, E: ZvContainer<P> + Drop>(self) -> MapOver<P, V, E, D>
    where
        C: CastInto<K, P, E>,
        requires { IsMap P.cmp self.pairs }
        ensures pairs { result.pairs ≡ self.pairs }
        ensures keys { result.keys ≡ self.keys }
        ensures values { result.values ≡ self.values }
    {
        let MapOver {
            keys,
            values,
            kinds: _,
        } = self;
        MapOver {
            keys: keys.zvl_cast(),
            values,
            kinds: PhantomData,
        }
    }

    /// The same pairs with keys of a kind of the same width, by whose order the keys ascend if they
    /// are all of it. The bytes stay where they are.
    ///
    /// # Errors
    /// The error of the keys' bytes as a list of the kind. The map is dropped then.
    #[tactic(auto, using(crate::proofs::Zipped::parts))]
    pub fn try_convert_zv_k_unchecked<P: ZvOrd, E: ZvContainer<P> + Drop>(
        self,
    ) -> Result<MapOver<P, V, E, D>, UleError>
    where
        C: ConvertInto<K, P, E>,
        requires widths { C.ConvertInto.same_width ≡ true }
        requires ascending { E.parse_fault self.keys.bytes ≡ None → IsMap P.cmp self.pairs }
        ensures error { result_err result ≡ E.parse_fault self.keys.bytes }
        ensures pairs { IfOk result (λ m. m.pairs ≡ self.pairs) }
        ensures keys { IfOk result (λ m. m.keys ≡ self.keys) }
        ensures values { IfOk result (λ m. m.values ≡ self.values) }
    {
        let MapOver {
            keys,
            values,
            kinds: _,
        } = self;
        Ok(MapOver {
            keys: keys.zvl_try_convert()?,
            values,
            kinds: PhantomData,
        })
    }

    /// The same pairs with values of a kind whose values are stored alike. The bytes stay where
    /// they are.
    pub fn cast_zv_v_unchecked<P: ZvKind, E: ZvContainer<P> + Drop>(self) -> MapOver<K, P, C, E>
    where
        D: CastInto<V, P, E>,
        ensures pairs { result.pairs ≡ self.pairs }
        ensures keys { result.keys ≡ self.keys }
        ensures values { result.values ≡ self.values }
    {
        let MapOver {
            keys,
            values,
            kinds: _,
        } = self;
        MapOver {
            keys,
            values: values.zvl_cast(),
            kinds: PhantomData,
        }
    }

    /// The same pairs with values of a kind of the same width. The bytes stay where they are.
    ///
    /// # Errors
    /// The error of the values' bytes as a list of the kind. The map is dropped then.
    pub fn try_convert_zv_v_unchecked<P: ZvKind, E: ZvContainer<P> + Drop>(
        self,
    ) -> Result<MapOver<K, P, C, E>, UleError>
    where
        D: ConvertInto<V, P, E>,
        requires { D.ConvertInto.same_width ≡ true }
        ensures error { result_err result ≡ E.parse_fault self.values.bytes }
        ensures pairs { IfOk result (λ m. m.pairs ≡ self.pairs) }
        ensures keys { IfOk result (λ m. m.keys ≡ self.keys) }
        ensures values { IfOk result (λ m. m.values ≡ self.values) }
    {
        let MapOver {
            keys,
            values,
            kinds: _,
        } = self;
        Ok(MapOver {
            keys,
            values: values.zvl_try_convert()?,
            kinds: PhantomData,
        })
    }
}
