// Changes of an owned list, with their steps counted.
ghost use Rattle.std.specs.Prelude.{◌≡◌, ◌&&◌, ◌+◌, ◌<◌, ◌≤◌, length, OnOk, OnErr, IsOk};
ghost use Rattle.zv_var.specs.Format.{enc};
ghost use Rattle.zv_owned.specs.Changes.{HasPlace, IsBelow, OnMemory, change_steps, changed};
ghost use Rattle.zv_owned.specs.Changes.{fits_change, takes_change};
ghost use Rattle.zv_owned.specs.declared.change.Change.TheVariants.{Remove};
ghost use Rattle.zv_owned.specs.Owned.{KeepsMemory, TooLargeUnless};

use super::VarZeroVecOwned;
use crate::change::Change;
use crate::encoded::Encoded;
use crate::error::VecError;
use crate::size::growth_of;
use crate::splice::splice;
use std::sync::ledger::Ledger;
use zv_ule::{EncodeAsVarULE, Steps, VarRef, VarZeroVecFormat, ZvArg, ZvKind};

impl<T: ZvKind, F: VarZeroVecFormat> VarZeroVecOwned<T, F> {
    /// Makes a change at a place, and counts each byte that is written, moved or added as a step.
    ///
    /// # Errors
    /// As [`insert`](Self::insert) and [`replace`](Self::replace). A removal is never refused.
    fn splice_arg_counted<Q: ZvArg<T>, L: Ledger>(
        &mut self,
        index: usize,
        change: Change<'_, Q>,
        steps: &mut Steps<L>,
    ) -> Result<(), VecError>
        requires place { HasPlace Q.bytes change (length self.old.list) index }
        requires below { IsBelow Q.bytes change }
        ensures ok { OnOk result (self.new.list ≡
            changed Q.bytes change.entry self.old.list index) }
        ensures bytes { OnOk result (self.new.bytes ≡ enc F.W self.new.list) }
        // where it is refused
        ensures err { OnErr result (self.new ≡ self.old) }
        ensures refused { TooLargeUnless
            (takes_change Q.bytes F.W change.entry self.old.list index) result }
        ensures removed { change.entry ≡ Remove → IsOk result }
        ensures succeeds { OnMemory result (length self.old.bytes + self.old.spare <
            length (enc F.W (changed Q.bytes change.entry self.old.list index))) }
        // what it takes
        ensures memory { OnOk result (KeepsMemory self.old self.new) }
        ensures steps { OnOk result (steps.new ≤ steps.old + change_steps Q.bytes F.W
            change.entry self.old.list (length self.old.bytes) index) }
    {
        if growth_of(self.as_slice(), index, &change).is_none() {
            return Err(VecError::TooLarge);
        }
        splice::<T, F, Q, L>(&mut self.shelf, index, change, steps)?;
        Ok(())
    }

    /// Makes a change by a value's spelling at a place, and counts each byte that is written, moved
    /// or added as a step.
    ///
    /// # Errors
    /// As [`insert`](Self::insert) and [`replace`](Self::replace). A removal is never refused.
    pub fn splice_counted<A: EncodeAsVarULE<T>, L: Ledger>(
        &mut self,
        index: usize,
        change: Change<'_, A>,
        steps: &mut Steps<L>,
    ) -> Result<(), VecError>
        requires place { HasPlace A.spelling change (length self.old.list) index }
        ensures ok { OnOk result (self.new.list ≡
            changed A.spelling change.entry self.old.list index) }
        ensures bytes { OnOk result (self.new.bytes ≡ enc F.W self.new.list) }
        // where it is refused
        ensures err { OnErr result (self.new ≡ self.old) }
        ensures refused { TooLargeUnless (fits_change A.fits change.entry &&
            takes_change A.spelling F.W change.entry self.old.list index) result }
        ensures removed { change.entry ≡ Remove → IsOk result }
        ensures succeeds { OnMemory result (length self.old.bytes + self.old.spare <
            length (enc F.W (changed A.spelling change.entry self.old.list index))) }
        // what it takes
        ensures memory { OnOk result (KeepsMemory self.old self.new) }
        ensures steps { OnOk result (steps.new ≤ steps.old + change_steps A.spelling F.W
            change.entry self.old.list (length self.old.bytes) index) }
    {
        match change {
            Change::Insert(element) => {
                let value = Encoded::for_list(self.as_slice(), element).ok_or(VecError::TooLarge)?;
                self.splice_arg_counted(index, Change::Insert(&value), steps)
            }
            Change::Replace(element) => {
                let value = Encoded::for_list(self.as_slice(), element).ok_or(VecError::TooLarge)?;
                self.splice_arg_counted(index, Change::Replace(&value), steps)
            }
            Change::Remove => {
                self.splice_arg_counted::<VarRef<'_, T>, L>(index, Change::Remove, steps)
            }
        }
    }
}
