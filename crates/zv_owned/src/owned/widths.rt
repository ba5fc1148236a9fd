// An owned list in the other width of its fields.
ghost use Rattle.std.specs.Prelude.{◌≡◌, ◌+◌, ◌*◌, ◌<◌, ◌≤◌, length, IfOk, IfErr, IsOk, OnErr, not};
ghost use Rattle.std.specs.Prelude.{is_ok};
ghost use Rattle.zv_var.specs.Format.{enc};
ghost use Rattle.zv_owned.specs.Owned.{KeepsMemory};
ghost use Rattle.zv_owned.specs.Widths.{wide};

use super::VarZeroVecOwned;
use crate::widths::{narrow, widen};
use std::marker::{Brand, PhantomData};
use std::sync::ledger::{Blank, Ledger};
use zv_ule::{Index16, Index32, NoMemory, Steps, ZvKind};

impl<T: ZvKind> VarZeroVecOwned<T, Index16> {
    /// The list with fields of four bytes, in the memory that it lies in. Each byte that is
    /// written, moved or added is a step.
    ///
    /// # Errors
    /// The list as it was, at most where that memory doesn't hold the wider fields.
    pub fn widen_counted<L: Ledger>(
        self,
        steps: &mut Steps<L>,
    ) -> Result<VarZeroVecOwned<T, Index32>, VarZeroVecOwned<T, Index16>>
        ensures list { IfOk result (λ v. v.list ≡ self.list) }
        ensures bytes { IfOk result (λ v. v.bytes ≡ enc 4 self.list) }
        // where it is refused
        ensures err { IfErr result (λ v. v ≡ self) }
        ensures succeeds { OnErr result
            (length self.bytes + self.spare < length (enc 4 self.list)) }
        ensures reserved { 2 * length self.list ≤ self.spare → IsOk result }
        // what it takes
        ensures memory { IfOk result (λ v. KeepsMemory self v) }
        ensures keeps_room { IfOk result (λ v. self.spare ≤ v.spare + 2 * length self.list) }
        ensures steps { IfOk result (λ v.
            steps.new ≤ steps.old + length v.bytes + 2 * length self.list) }
    {
        let VarZeroVecOwned { mut shelf, of: _ } = self;
        match widen::<T, L>(&mut shelf, steps) {
            Ok(()) => Ok(VarZeroVecOwned {
                shelf,
                of: PhantomData,
            }),
            Err(NoMemory) => Err(VarZeroVecOwned {
                shelf,
                of: PhantomData,
            }),
        }
    }

    /// The same, uncounted.
    #[inline]
    fn widen_from<L: Ledger>(
        self,
        blank: Blank,
    ) -> Result<VarZeroVecOwned<T, Index32>, VarZeroVecOwned<T, Index16>>
        requires name { blank.name ≡ L.name }
        requires parts { blank.parts ≡ L.parts }
        requires some { 0 < blank.parts }
        ensures list { IfOk result (λ v. v.list ≡ self.list) }
        ensures bytes { IfOk result (λ v. v.bytes ≡ enc 4 self.list) }
        // where it is refused
        ensures err { IfErr result (λ v. v ≡ self) }
        ensures succeeds { OnErr result
            (length self.bytes + self.spare < length (enc 4 self.list)) }
        ensures reserved { 2 * length self.list ≤ self.spare → IsOk result }
        // what it takes
        ensures memory { IfOk result (λ v. KeepsMemory self v) }
        ensures keeps_room { IfOk result (λ v. self.spare ≤ v.spare + 2 * length self.list) }
    {
        let mut steps = Steps::<L>::start(blank);
        self.widen_counted(&mut steps)
    }

    /// The list with fields of four bytes, as [`widen_counted`](Self::widen_counted), where nobody
    /// counts.
    #[inline]
    pub fn widen(self) -> Result<VarZeroVecOwned<T, Index32>, VarZeroVecOwned<T, Index16>>
        ensures list { IfOk result (λ v. v.list ≡ self.list) }
        ensures bytes { IfOk result (λ v. v.bytes ≡ enc 4 self.list) }
        // where it is refused
        ensures err { IfErr result (λ v. v ≡ self) }
        ensures succeeds { OnErr result
            (length self.bytes + self.spare < length (enc 4 self.list)) }
        ensures reserved { 2 * length self.list ≤ self.spare → IsOk result }
        // what it takes
        ensures memory { IfOk result (λ v. KeepsMemory self v) }
        ensures keeps_room { IfOk result (λ v. self.spare ≤ v.spare + 2 * length self.list) }
    {
        self.widen_from::<Brand>(Blank::new(1))
    }
}

impl<T: ZvKind> VarZeroVecOwned<T, Index32> {
    /// The list with fields of two bytes, in the memory that it lies in. Each byte that is written
    /// or moved is a step.
    ///
    /// # Errors
    /// The list as it was, exactly where it would be longer than 65,535 bytes.
    pub fn narrow_counted<L: Ledger>(
        self,
        steps: &mut Steps<L>,
    ) -> Result<VarZeroVecOwned<T, Index16>, VarZeroVecOwned<T, Index32>>
        ensures list { IfOk result (λ v. v.list ≡ self.list) }
        ensures bytes { IfOk result (λ v. v.bytes ≡ enc 2 self.list) }
        // where it is refused
        ensures err { IfErr result (λ v. v ≡ self) }
        ensures refused { is_ok result ≡ not (wide self.list) }
        // what it takes
        ensures memory { IfOk result (λ v. KeepsMemory self v) }
        ensures keeps_room { IfOk result (λ v. self.spare ≤ v.spare) }
        ensures steps { IfOk result (λ v. steps.new ≤ steps.old + length v.bytes) }
    {
        let VarZeroVecOwned { mut shelf, of: _ } = self;
        if narrow::<T, L>(&mut shelf, steps) {
            Ok(VarZeroVecOwned {
                shelf,
                of: PhantomData,
            })
        } else {
            Err(VarZeroVecOwned {
                shelf,
                of: PhantomData,
            })
        }
    }

    /// The same, uncounted.
    #[inline]
    fn narrow_from<L: Ledger>(
        self,
        blank: Blank,
    ) -> Result<VarZeroVecOwned<T, Index16>, VarZeroVecOwned<T, Index32>>
        requires name { blank.name ≡ L.name }
        requires parts { blank.parts ≡ L.parts }
        requires some { 0 < blank.parts }
        ensures list { IfOk result (λ v. v.list ≡ self.list) }
        ensures bytes { IfOk result (λ v. v.bytes ≡ enc 2 self.list) }
        // where it is refused
        ensures err { IfErr result (λ v. v ≡ self) }
        ensures refused { is_ok result ≡ not (wide self.list) }
        // what it takes
        ensures memory { IfOk result (λ v. KeepsMemory self v) }
        ensures keeps_room { IfOk result (λ v. self.spare ≤ v.spare) }
    {
        let mut steps = Steps::<L>::start(blank);
        self.narrow_counted(&mut steps)
    }

    /// The list with fields of two bytes, as [`narrow_counted`](Self::narrow_counted), where nobody
    /// counts.
    #[inline]
    pub fn narrow(self) -> Result<VarZeroVecOwned<T, Index16>, VarZeroVecOwned<T, Index32>>
        ensures list { IfOk result (λ v. v.list ≡ self.list) }
        ensures bytes { IfOk result (λ v. v.bytes ≡ enc 2 self.list) }
        // where it is refused
        ensures err { IfErr result (λ v. v ≡ self) }
        ensures refused { is_ok result ≡ not (wide self.list) }
        // what it takes
        ensures memory { IfOk result (λ v. KeepsMemory self v) }
        ensures keeps_room { IfOk result (λ v. self.spare ≤ v.spare) }
    {
        self.narrow_from::<Brand>(Blank::new(1))
    }
}
