// The owned list of a vector, if it has one.
ghost use Rattle.std.specs.Prelude.{◌≡◌, ◌≤◌, Option, None, Some, IfOk, OnOk, OnErr, IsOk, true};
ghost use Rattle.std.specs.Prelude.{is_some};
ghost use Rattle.std.specs.Option.{option_map};
ghost use Rattle.zv_var.specs.Views.{bytes_of, list_of};
ghost use Rattle.zv_owned.specs.Vectors.{bytes_in, list_in, spare_in};

use crate::owned::VarZeroVecOwned;
use std::alloc::Global;
use std::marker::Model;
use zv_ule::{NoMemory, VarZeroVecFormat, ZvKind};
use zv_var::slice::VarZeroSlice;

/// An owned list, or none.
#[derive(Drop)]
pub(super) struct Slot<T: ZvKind, F: VarZeroVecFormat> {
    pub(super) owned: Option<VarZeroVecOwned<T, F>>,
}

impl<T: ZvKind, F: VarZeroVecFormat> Model for Slot<T, F> {
    ghost use Rattle.std.specs.Prelude.{Option};
    ghost use Rattle.zv_owned.specs.Owned.{Owned};

    ghost Value = { Option Owned };

    ghost view = { λ s. s.owned };
}

impl<T: ZvKind, F: VarZeroVecFormat> Slot<T, F> {
    ghost use Rattle.std.specs.Borrow.{sem};
    ghost use Rattle.zv_owned.specs.Lending.{LendsSlot};

    /// The owned list, to be changed.
    #[inline]
    pub(super) fn as_owned(&mut self) -> Option<&mut VarZeroVecOwned<T, F>>
        ensures* lends { sem 𝓛 (LendsSlot T.row F.row F.Index.row F.Len.row
            T.ZvKind F.VarZeroVecFormat F.Index.IntegerULE.own F.Index.ULE
            F.Len.IntegerULE.own F.Len.ULE self.entry result) }
        ensures value { option_map (λ v. v.now) result ≡ self.old }
    {
        self.owned.as_mut()
    }

    /// The owned list, or a copy of the list where there is none.
    #[inline]
    pub(super) fn into_list(
        self,
        alloc: Global,
        list: VarZeroSlice<'_, T, F>,
    ) -> Result<VarZeroVecOwned<T, F>, NoMemory>
        ensures list { IfOk result (λ v. v.list ≡ list_in self (list_of list.entry)) }
        ensures bytes { IfOk result (λ v. v.bytes ≡ bytes_in self (bytes_of list.entry)) }
        ensures keeps_room { IfOk result (λ v. spare_in self ≤ v.spare) }
        ensures in_place { is_some self ≡ true → IfOk result (λ v. v.spare ≡ spare_in self) }
        ensures succeeds { is_some self ≡ true → IsOk result }
    {
        match self.owned {
            Some(owned) => Ok(owned),
            None => VarZeroVecOwned::from_slice(alloc, list),
        }
    }

    /// Makes room for `n` bytes more in the owned list, which is a copy of the list where there was
    /// none.
    pub(super) fn reserve(
        &mut self,
        alloc: Global,
        list: VarZeroSlice<'_, T, F>,
        n: usize,
    ) -> Result<(), NoMemory>
        ensures list { list_in self.new (list_of list.entry) ≡
            list_in self.old (list_of list.entry) }
        ensures bytes { bytes_in self.new (bytes_of list.entry) ≡
            bytes_in self.old (bytes_of list.entry) }
        ensures owned { OnOk result (is_some self.new ≡ true) }
        ensures ok { OnOk result (n ≤ spare_in self.new) }
        // where it is refused
        ensures err { OnErr result (self.new ≡ self.old) }
        ensures succeeds { is_some self.old ≡ true → n ≤ spare_in self.old → IsOk result }
        ensures keeps_room { spare_in self.old ≤ spare_in self.new }
        ensures in_place { is_some self.old ≡ true → n ≤ spare_in self.old →
            spare_in self.new ≡ spare_in self.old }
    {
        match self.as_owned() {
            Some(owned) => owned.reserve_bytes(n),
            None => {
                self.owned = Some(VarZeroVecOwned::with_copy(alloc, list, n)?);
                Ok(())
            }
        }
    }
}
