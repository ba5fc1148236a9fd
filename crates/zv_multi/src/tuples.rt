// Tuples of values that are written as records.
ghost use Rattle.std.specs.Prelude.{[], ◌∷◌, is_some};
ghost use Rattle.zv_multi.specs.Records.{record_len};
ghost use Rattle.zv_var.specs.Serialize.{lengthless};

use crate::record::{Tuple2VarULE, Tuple3VarULE, Tuple4VarULE, Tuple5VarULE, Tuple6VarULE};
use crate::values::{fitting_len, record_len, write_record};
use zv_ule::{EncodeAsVarULE, VarULE, VarZeroVecFormat};

impl<
    A: VarULE,
    B: VarULE,
    F: VarZeroVecFormat,
    X: EncodeAsVarULE<A>,
    Y: EncodeAsVarULE<B>,
> EncodeAsVarULE<Tuple2VarULE<A, B, F>> for (X, Y) {
    ghost fits = { λ v. is_some (record_len F.W (X.fits v.0 ∷ Y.fits v.1 ∷ [])
        (X.spelling v.0 ∷ Y.spelling v.1 ∷ [])) };

    ghost spelling = { λ v. lengthless F.W (X.spelling v.0 ∷ Y.spelling v.1 ∷ []) };

    #[inline]
    fn encode_var_ule_fits(&self) -> bool {
        record_len::<2, _, _, F>(&(&self.0, (&self.1, ()))).is_some()
    }

    #[inline]
    fn encode_var_ule_len(&self) -> usize {
        fitting_len::<2, _, _, F>(&(&self.0, (&self.1, ())))
    }

    #[inline]
    fn encode_var_ule_write(&self, dst: &mut [u8]) {
        write_record::<2, _, _, F>(&(&self.0, (&self.1, ())), dst);
    }
}

impl<
    A: VarULE,
    B: VarULE,
    C: VarULE,
    F: VarZeroVecFormat,
    X: EncodeAsVarULE<A>,
    Y: EncodeAsVarULE<B>,
    Z: EncodeAsVarULE<C>,
> EncodeAsVarULE<Tuple3VarULE<A, B, C, F>> for (X, Y, Z) {
    ghost fits = { λ v. is_some (record_len F.W (X.fits v.0 ∷ Y.fits v.1 ∷ Z.fits v.2 ∷ [])
        (X.spelling v.0 ∷ Y.spelling v.1 ∷ Z.spelling v.2 ∷ [])) };

    ghost spelling = { λ v. lengthless F.W (X.spelling v.0 ∷ Y.spelling v.1 ∷
        Z.spelling v.2 ∷ []) };

    #[inline]
    fn encode_var_ule_fits(&self) -> bool {
        record_len::<3, _, _, F>(&(&self.0, (&self.1, (&self.2, ())))).is_some()
    }

    #[inline]
    fn encode_var_ule_len(&self) -> usize {
        fitting_len::<3, _, _, F>(&(&self.0, (&self.1, (&self.2, ()))))
    }

    #[inline]
    fn encode_var_ule_write(&self, dst: &mut [u8]) {
        write_record::<3, _, _, F>(&(&self.0, (&self.1, (&self.2, ()))), dst);
    }
}

impl<
    A: VarULE,
    B: VarULE,
    C: VarULE,
    D: VarULE,
    F: VarZeroVecFormat,
    X: EncodeAsVarULE<A>,
    Y: EncodeAsVarULE<B>,
    Z: EncodeAsVarULE<C>,
    U: EncodeAsVarULE<D>,
> EncodeAsVarULE<Tuple4VarULE<A, B, C, D, F>> for (X, Y, Z, U) {
    ghost fits = { λ v. is_some (record_len F.W (X.fits v.0 ∷ Y.fits v.1 ∷ Z.fits v.2 ∷
        U.fits v.3 ∷ [])
        (X.spelling v.0 ∷ Y.spelling v.1 ∷ Z.spelling v.2 ∷ U.spelling v.3 ∷ [])) };

    ghost spelling = { λ v. lengthless F.W (X.spelling v.0 ∷ Y.spelling v.1 ∷ Z.spelling v.2 ∷
        U.spelling v.3 ∷ []) };

    #[inline]
    fn encode_var_ule_fits(&self) -> bool {
        record_len::<4, _, _, F>(&(&self.0, (&self.1, (&self.2, (&self.3, ()))))).is_some()
    }

    #[inline]
    fn encode_var_ule_len(&self) -> usize {
        fitting_len::<4, _, _, F>(&(&self.0, (&self.1, (&self.2, (&self.3, ())))))
    }

    #[inline]
    fn encode_var_ule_write(&self, dst: &mut [u8]) {
        write_record::<4, _, _, F>(&(&self.0, (&self.1, (&self.2, (&self.3, ())))), dst);
    }
}

impl<
    A: VarULE,
    B: VarULE,
    C: VarULE,
    D: VarULE,
    E: VarULE,
    F: VarZeroVecFormat,
    X: EncodeAsVarULE<A>,
    Y: EncodeAsVarULE<B>,
    Z: EncodeAsVarULE<C>,
    U: EncodeAsVarULE<D>,
    V: EncodeAsVarULE<E>,
> EncodeAsVarULE<Tuple5VarULE<A, B, C, D, E, F>> for (X, Y, Z, U, V) {
    ghost fits = { λ v. is_some (record_len F.W (X.fits v.0 ∷ Y.fits v.1 ∷ Z.fits v.2 ∷
        U.fits v.3 ∷ V.fits v.4 ∷ [])
        (X.spelling v.0 ∷ Y.spelling v.1 ∷ Z.spelling v.2 ∷ U.spelling v.3 ∷
        V.spelling v.4 ∷ [])) };

    ghost spelling = { λ v. lengthless F.W (X.spelling v.0 ∷ Y.spelling v.1 ∷ Z.spelling v.2 ∷
        U.spelling v.3 ∷ V.spelling v.4 ∷ []) };

    #[inline]
    fn encode_var_ule_fits(&self) -> bool {
        record_len::<5, _, _, F>(&(
            &self.0,
            (&self.1, (&self.2, (&self.3, (&self.4, ())))),
        )).is_some()
    }

    #[inline]
    fn encode_var_ule_len(&self) -> usize {
        fitting_len::<5, _, _, F>(&(&self.0, (&self.1, (&self.2, (&self.3, (&self.4, ()))))))
    }

    #[inline]
    fn encode_var_ule_write(&self, dst: &mut [u8]) {
        write_record::<5, _, _, F>(
            &(&self.0, (&self.1, (&self.2, (&self.3, (&self.4, ()))))),
            dst,
        );
    }
}

impl<
    A: VarULE,
    B: VarULE,
    C: VarULE,
    D: VarULE,
    E: VarULE,
    G: VarULE,
    F: VarZeroVecFormat,
    X: EncodeAsVarULE<A>,
    Y: EncodeAsVarULE<B>,
    Z: EncodeAsVarULE<C>,
    U: EncodeAsVarULE<D>,
    V: EncodeAsVarULE<E>,
    W: EncodeAsVarULE<G>,
> EncodeAsVarULE<Tuple6VarULE<A, B, C, D, E, G, F>> for (X, Y, Z, U, V, W) {
    ghost fits = { λ v. is_some (record_len F.W (X.fits v.0 ∷ Y.fits v.1 ∷ Z.fits v.2 ∷
        U.fits v.3 ∷ V.fits v.4 ∷ W.fits v.5 ∷ [])
        (X.spelling v.0 ∷ Y.spelling v.1 ∷ Z.spelling v.2 ∷ U.spelling v.3 ∷ V.spelling v.4 ∷
        W.spelling v.5 ∷ [])) };

    ghost spelling = { λ v. lengthless F.W (X.spelling v.0 ∷ Y.spelling v.1 ∷ Z.spelling v.2 ∷
        U.spelling v.3 ∷ V.spelling v.4 ∷ W.spelling v.5 ∷ []) };

    #[inline]
    fn encode_var_ule_fits(&self) -> bool {
        record_len::<6, _, _, F>(&(
            &self.0,
            (&self.1, (&self.2, (&self.3, (&self.4, (&self.5, ()))))),
        ))
        .is_some()
    }

    #[inline]
    fn encode_var_ule_len(&self) -> usize {
        fitting_len::<6, _, _, F>(&(
            &self.0,
            (&self.1, (&self.2, (&self.3, (&self.4, (&self.5, ()))))),
        ))
    }

    #[inline]
    fn encode_var_ule_write(&self, dst: &mut [u8]) {
        write_record::<6, _, _, F>(
            &(
                &self.0,
                (&self.1, (&self.2, (&self.3, (&self.4, (&self.5, ()))))),
            ),
            dst,
        );
    }
}
