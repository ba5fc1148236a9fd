//! Worked rows of definitions that clauses cite, at their edges.
//!
//! Each function does nothing, and its contract is what it says.
#![tactic(auto)]

ghost use Rattle.zv_worked.specs.Faults.{CountStays, HighestStays, LastBelowHighest, NoneMore};
ghost use Rattle.zv_worked.specs.Faults.{NotTheHighest, OneMore, OneMoreOfMany, SeveralMore};
ghost use Rattle.zv_worked.specs.Lengths.{CountOfNone, CountOfOne, LargestOfTwoBytes};
ghost use Rattle.zv_worked.specs.Lengths.{LargestWithCount, MostIsRefused, NoneHaveNoLength};
ghost use Rattle.zv_worked.specs.Lengths.{OneBelowMost, StartsCount, StartsFill};
ghost use Rattle.zv_worked.specs.Lengths.{TooLargeOfTwoBytes, TooLargeWithCount, UnfitIsRefused};
ghost use Rattle.zv_worked.specs.NoPlacements.{AlikeHaveNoPlace, DifferentAreNotRepeated};
ghost use Rattle.zv_worked.specs.NoPlacements.{DifferentHavePlaces, EqualHaveNoPlace};
ghost use Rattle.zv_worked.specs.NoPlacements.{FitTableIsNotTooLarge, HashesAreNotRepeated};
ghost use Rattle.zv_worked.specs.NoPlacements.{HashesAreNotTooLarge, LaterIsNotFirst};
ghost use Rattle.zv_worked.specs.NoPlacements.{LaterIsNotNamed, ManyAreTooMany, ManyBeforeRepeated};
ghost use Rattle.zv_worked.specs.NoPlacements.{ManyBeforeStuck, ManyBeforeTooLarge};
ghost use Rattle.zv_worked.specs.NoPlacements.{ManyPairsAreTooMany, ManyPairsBeforeStuck};
ghost use Rattle.zv_worked.specs.NoPlacements.{ManyWantNoMemory, MostAreNotTooMany};
ghost use Rattle.zv_worked.specs.NoPlacements.{MostMayWantMemory, MostPairsAreNotTooMany};
ghost use Rattle.zv_worked.specs.NoPlacements.{MostPairsMayBeTooLarge, OneHasPlace};
ghost use Rattle.zv_worked.specs.NoPlacements.{OtherBucketIsNotStuck, RepeatedBeforeStuck};
ghost use Rattle.zv_worked.specs.NoPlacements.{TableMayWantMemory, TwiceIsRepeated};
ghost use Rattle.zv_worked.specs.NoPlacements.{UnfitBeforeStuck, UnfitTableIsNotRepeated};
ghost use Rattle.zv_worked.specs.NoPlacements.{UnfitTableIsTooLarge};
ghost use Rattle.zv_worked.specs.Puts.{FullIsNotDone, FullIsNotTooLarge, FullIsTooMany};
ghost use Rattle.zv_worked.specs.Puts.{FullWantsNoMemory, PutIsDone, PutIsNotTooLarge};
ghost use Rattle.zv_worked.specs.Puts.{PutIsNotTooMany, PutMayWantMemory, UnfitPutIsNotDone};
ghost use Rattle.zv_worked.specs.Puts.{UnfitPutIsNotTooMany, UnfitPutIsTooLarge};
ghost use Rattle.zv_worked.specs.Puts.{UnfitPutWantsNoMemory};
ghost use Rattle.zv_worked.specs.Refusals.{FitsIsDone, FitsIsNotTooLarge, FitsMayWantMemory};
ghost use Rattle.zv_worked.specs.Refusals.{UnfitIsNotDone, UnfitIsTooLarge, UnfitWantsNoMemory};

/// What a container answers where its size rule takes an element and where it does not. It does
/// nothing.
pub fn refusals_by_hand()
    ensures done { FitsIsDone }
    ensures wants_memory { FitsMayWantMemory }
    ensures not_too_large { FitsIsNotTooLarge }
    ensures too_large { UnfitIsTooLarge }
    ensures not_done { UnfitIsNotDone }
    ensures wants_no_memory { UnfitWantsNoMemory }
{}

/// How many bytes values are written as, without their count and with it, and where they are too
/// many. It does nothing.
pub fn lengths_by_hand()
    ensures none { NoneHaveNoLength }
    ensures one_below_most { OneBelowMost }
    ensures most { MostIsRefused }
    ensures starts { StartsCount }
    ensures starts_fill { StartsFill }
    ensures unfit { UnfitIsRefused }
    ensures two_bytes { LargestOfTwoBytes }
    ensures too_large { TooLargeOfTwoBytes }
    ensures count_of_none { CountOfNone }
    ensures count_of_one { CountOfOne }
    ensures largest_with_count { LargestWithCount }
    ensures too_large_with_count { TooLargeWithCount }
{}

/// How a count of faults rises, and where it stays. It does nothing.
pub fn faults_by_hand()
    ensures one_more { OneMore }
    ensures one_more_of_many { OneMoreOfMany }
    ensures several_more { SeveralMore }
    ensures none_more { NoneMore }
    ensures count_stays { CountStays }
    ensures last_below_highest { LastBelowHighest }
    ensures not_the_highest { NotTheHighest }
    ensures highest_stays { HighestStays }
{}

/// What a map in two levels answers to a put, by whether its size rule takes it and whether the map
/// is full. It does nothing.
pub fn puts_by_hand()
    ensures done { PutIsDone }
    ensures wants_memory { PutMayWantMemory }
    ensures not_too_large { PutIsNotTooLarge }
    ensures not_too_many { PutIsNotTooMany }
    ensures too_large { UnfitPutIsTooLarge }
    ensures unfit_not_too_many { UnfitPutIsNotTooMany }
    ensures unfit_not_done { UnfitPutIsNotDone }
    ensures unfit_wants_no_memory { UnfitPutWantsNoMemory }
    ensures too_many { FullIsTooMany }
    ensures full_not_too_large { FullIsNotTooLarge }
    ensures full_not_done { FullIsNotDone }
    ensures full_wants_no_memory { FullWantsNoMemory }
{}

/// Why hashes have no placement, and why not. It does nothing.
pub fn no_placements_by_hand()
    ensures equal { EqualHaveNoPlace }
    ensures other_bucket { OtherBucketIsNotStuck }
    ensures one { OneHasPlace }
    ensures too_many { ManyAreTooMany }
    ensures too_many_before_stuck { ManyBeforeStuck }
    ensures too_many_want_no_memory { ManyWantNoMemory }
    ensures most { MostAreNotTooMany }
    ensures most_want_memory { MostMayWantMemory }
    ensures not_too_large { HashesAreNotTooLarge }
    ensures not_repeated { HashesAreNotRepeated }
{
    zv_hash::laws::worked_placements();
    zv_hash::laws::stuck_bucket();
}

/// Why pairs have no table, and which cause is named first. It does nothing.
pub fn no_tables_by_hand()
    ensures repeated { TwiceIsRepeated }
    ensures later_not_first { LaterIsNotFirst }
    ensures later_not_named { LaterIsNotNamed }
    ensures different { DifferentAreNotRepeated }
    ensures too_large { UnfitTableIsTooLarge }
    ensures too_large_before_repeated { UnfitTableIsNotRepeated }
    ensures not_too_large { FitTableIsNotTooLarge }
    ensures repeated_before_stuck { RepeatedBeforeStuck }
    ensures stuck { AlikeHaveNoPlace }
    ensures too_large_before_stuck { UnfitBeforeStuck }
    ensures not_stuck { DifferentHavePlaces }
    ensures too_many { ManyPairsAreTooMany }
    ensures too_many_before_too_large { ManyBeforeTooLarge }
    ensures too_many_before_repeated { ManyBeforeRepeated }
    ensures too_many_before_stuck { ManyPairsBeforeStuck }
    ensures most { MostPairsAreNotTooMany }
    ensures most_too_large { MostPairsMayBeTooLarge }
    ensures wants_memory { TableMayWantMemory }
{
    zv_hash::laws::stuck_bucket();
}
