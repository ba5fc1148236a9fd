// Composed kinds that are usable by their types alone, as their parts are.
ghost use Rattle.std.specs.Prelude.{refl};
ghost use Rattle.zv_multi.specs.Usable.{both};

use crate::option::OptionVarULE;
use crate::record::{Tuple2VarULE, Tuple3VarULE, Tuple4VarULE, Tuple5VarULE, Tuple6VarULE};
use crate::var_tuple::VarTupleULE;
use zv_ule::{AsULE, UsableKind, VarULE, VarZeroVecFormat};

impl<U: VarULE + UsableKind> UsableKind for OptionVarULE<U> {
    ghost is_usable = { U.is_usable };
}

impl<A: AsULE + UsableKind, V: VarULE + UsableKind> UsableKind for VarTupleULE<A, V> {
    ghost is_usable = { both A.is_usable V.is_usable };
}

impl<A: UsableKind, B: UsableKind, F: VarZeroVecFormat> UsableKind for Tuple2VarULE<A, B, F> {
    ghost is_usable = { both (both A.is_usable (both B.is_usable refl)) refl };
}

impl<A: UsableKind, B: UsableKind, C: UsableKind, F: VarZeroVecFormat> UsableKind
    for Tuple3VarULE<A, B, C, F> {
    ghost is_usable = { both (both A.is_usable (both B.is_usable (both C.is_usable refl))) refl };
}

impl<A: UsableKind, B: UsableKind, C: UsableKind, D: UsableKind, F: VarZeroVecFormat> UsableKind
    for Tuple4VarULE<A, B, C, D, F> {
    ghost is_usable = { both (both A.is_usable (both B.is_usable
        (both C.is_usable (both D.is_usable refl)))) refl };
}

impl<
    A: UsableKind,
    B: UsableKind,
    C: UsableKind,
    D: UsableKind,
    E: UsableKind,
    F: VarZeroVecFormat,
> UsableKind for Tuple5VarULE<A, B, C, D, E, F> {
    ghost is_usable = { both (both A.is_usable (both B.is_usable
        (both C.is_usable (both D.is_usable (both E.is_usable refl))))) refl };
}

impl<
    A: UsableKind,
    B: UsableKind,
    C: UsableKind,
    D: UsableKind,
    E: UsableKind,
    G: UsableKind,
    F: VarZeroVecFormat,
> UsableKind for Tuple6VarULE<A, B, C, D, E, G, F> {
    ghost is_usable = { both (both A.is_usable (both B.is_usable
        (both C.is_usable (both D.is_usable (both E.is_usable (both G.is_usable refl)))))) refl };
}
