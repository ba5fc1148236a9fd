// What the size rule and the count of steps mean: worked examples, and laws. A call but the last
// two does nothing, and its contract is what it is for.
ghost use Rattle.std.specs.Prelude.{◌≡◌, ◌+◌, ◌≤◌, ◌∷◌, [], true, IfOk, OnOk};
ghost use Rattle.zv_owned.specs.Examples.{EmptyRefusesMost, EmptyTakesBelowMost, FullTakesNone};
ghost use Rattle.zv_owned.specs.Examples.{FullTakesSameSize, LongerSecondIsRefused};
ghost use Rattle.zv_owned.specs.Examples.{NotTakenIsTooLarge, OnlyGivesWay, OnlyStays};
ghost use Rattle.zv_owned.specs.Examples.{SecondIsTaken, ShortRefusesMost, ShortTakesBelowMost};
ghost use Rattle.zv_owned.specs.Examples.{TakenIsOk, TakenMayWantMemory, ThirdIsRefused};
ghost use Rattle.zv_owned.specs.Examples.{FirstTakesTen, FrontTakesThirtyEight, OnlyGoesInNone};
ghost use Rattle.zv_owned.specs.Examples.{SecondGoesInTwentyTwo, ThreeAreTaken};
ghost use Rattle.zv_owned.specs.Laws.{AnyOrder, InsertKeeps, RemoveKeeps, ReplaceKeeps};
ghost use Rattle.zv_owned.specs.Laws.{ShorterIsTaken};
ghost use Rattle.zv_owned.specs.Owned.{TooLargeUnless};

use crate::change::Change;
use crate::error::VecError;
use crate::owned::VarZeroVecOwned;
use crate::shelf::Shelf;
use std::alloc::Global;
use std::sync::ledger::Ledger;
use zv_ule::{Index16, NoMemory, Steps, StrULE};

/// Elements at the edge of what a list takes, and what is answered where one is taken or not.
pub fn sizes_by_hand()
    ensures empty_takes_below_most { EmptyTakesBelowMost }
    ensures empty_refuses_most { EmptyRefusesMost }
    ensures second_taken { SecondIsTaken }
    ensures longer_second_refused { LongerSecondIsRefused }
    ensures only_gives_way { OnlyGivesWay }
    ensures only_stays { OnlyStays }
    ensures short_takes_below_most { ShortTakesBelowMost }
    ensures short_refuses_most { ShortRefusesMost }
    ensures full_takes_none { FullTakesNone }
    ensures full_takes_same_size { FullTakesSameSize }
    ensures three_taken { ThreeAreTaken }
    ensures third_refused { ThirdIsRefused }
    ensures taken_ok { TakenIsOk }
    ensures taken_wants_memory { TakenMayWantMemory }
    ensures not_taken_too_large { NotTakenIsTooLarge }
{}

pub fn steps_by_hand()
    ensures first_takes_ten { FirstTakesTen }
    ensures front_takes_thirty_eight { FrontTakesThirtyEight }
    ensures second_goes_in_twenty_two { SecondGoesInTwentyTwo }
    ensures only_goes_in_none { OnlyGoesInNone }
{}

pub fn size_rule()
    ensures insert { InsertKeeps }
    ensures replace { ReplaceKeeps }
    ensures remove { RemoveKeeps }
    ensures shorter { ShorterIsTaken }
    ensures any_order { AnyOrder }
{}

pub fn splice_by_hand<L: Ledger>(
    list: &mut VarZeroVecOwned<StrULE, Index16>,
    steps: &mut Steps<L>,
) -> Result<(), VecError>
    requires { list.old.list ≡ (97 ∷ []) ∷ (98 ∷ []) ∷ [] }
    ensures bytes { OnOk result (list.new.bytes ≡ 2 ∷ 0 ∷ 1 ∷ 0 ∷ 97 ∷ 99 ∷ []) }
    ensures taken { TooLargeUnless true result }
    // what it takes
    ensures steps { OnOk result (steps.new ≤ steps.old + 1) }
{
    list.splice_counted(1, Change::Replace(&"c"), steps)
}

/// A buffer that takes in the bytes 1, 2 and 3 and grows by two. The last two move to the end, 7
/// and 8 are written in their place, and the last byte is cut: nine steps.
pub fn shelf_by_hand<L: Ledger>(alloc: Global, steps: &mut Steps<L>) -> Result<Shelf, NoMemory>
    ensures bytes { IfOk result (λ s. s.bytes ≡ 1 ∷ 7 ∷ 8 ∷ 2 ∷ []) }
    ensures steps { OnOk result (steps.new ≡ steps.old + 9) }
{
    let mut shelf = Shelf::new(alloc);
    shelf.take_in(&[1, 2, 3], steps)?;
    shelf.grow(2, steps)?;
    shelf.move_bytes(1..3, 3, steps);
    shelf.write(1, &[7, 8], steps);
    shelf.cut(4);
    Ok(shelf)
}
