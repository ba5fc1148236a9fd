// What records mean, and which composed elements compare Equal. Each call does nothing, and its
// contract is what it is for.
ghost use Rattle.std.specs.Prelude.{IsTrue};
ghost use Rattle.zv_multi.specs.Laws.{AreExact, ReadsBack, SoundExactly, WrittenStands};
ghost use Rattle.zv_ule.specs.Kinds.{EqualIsSame};

use crate::kinds::FieldOrders;
use crate::option::OptionVarULE;
use crate::record::RecordULE;
use crate::var_tuple::VarTupleULE;
use zv_ule::{AsULE, VarULE, VarZeroVecFormat, ZvKind, ZvOrd};

/// In every format, bytes and fields determine each other, bytes are refused exactly where they are
/// the record of no fields of the kinds, and values are written as the record of their spellings.
pub fn one_reading()
    ensures sound_exactly { SoundExactly }
    ensures reads_back { ReadsBack }
    ensures written_stands { WrittenStands }
{}

/// Records that compare Equal are the same bytes, where fields that compare Equal are the same.
pub fn exact_order_of_records<const LEN: usize, K: FieldOrders, F: VarZeroVecFormat>()
    requires usable { IsTrue ⟦<RecordULE<LEN, K, F> as ZvKind>⟧.usable }
    requires fields { AreExact K.faults K.orders }
    ensures { EqualIsSame ⟦<RecordULE<LEN, K, F> as ZvKind>⟧.fault
        ⟦<RecordULE<LEN, K, F> as ZvOrd>⟧.cmp }
{}

/// Values with an element behind them that compare Equal are the same bytes, where both parts are.
pub fn exact_order_of_var_tuples<A: AsULE + ZvOrd, V: VarULE + ZvOrd>()
    requires sized { EqualIsSame A.fault A.cmp }
    requires variable { EqualIsSame V.fault V.cmp }
    ensures { EqualIsSame ⟦<VarTupleULE<A, V> as ZvKind>⟧.fault
        ⟦<VarTupleULE<A, V> as ZvOrd>⟧.cmp }
{}

/// Elements that may be missing and compare Equal are the same bytes, where elements are.
pub fn exact_order_of_options<U: VarULE + ZvOrd>()
    requires { EqualIsSame U.fault U.cmp }
    ensures { EqualIsSame ⟦<OptionVarULE<U> as ZvKind>⟧.fault
        ⟦<OptionVarULE<U> as ZvOrd>⟧.cmp }
{}
