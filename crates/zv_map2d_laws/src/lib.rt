//! What maps in two levels and their images mean: worked ones, and laws.
//!
//! Each function does nothing, and its contract is what it says.
#![tactic(auto)]

ghost use Rattle.zv_map2d_laws.specs.Changes.{FirstPair, KeysThere, LongValues, MissingPair};
ghost use Rattle.zv_map2d_laws.specs.Changes.{NewFirstRow, NewPair, OneOfTwo, OnlyPair, OtherValue};
ghost use Rattle.zv_map2d_laws.specs.FiniteMap.{DelIsGone, DelIsWell, DelLeavesOthers, FoundAlike};
ghost use Rattle.zv_map2d_laws.specs.FiniteMap.{FoundInRow, KeepsLast, PutIsFound, PutIsWell};
ghost use Rattle.zv_map2d_laws.specs.FiniteMap.{PutLeavesOthers, TextsAreExact};
ghost use Rattle.zv_map2d_laws.specs.HeadRows.{CutHeads, Heads, Names, WideCanon, WideErrors};
ghost use Rattle.zv_map2d_laws.specs.ImageRows.{Alone, Counts, Empty, Ends, Finds, Lengths};
ghost use Rattle.zv_map2d_laws.specs.ImageRows.{Neighbours, NoFrame, OnePair, OtherSpellings};
ghost use Rattle.zv_map2d_laws.specs.ImageRows.{OwnErrors, Prefixes, Texts, TwoRows};
ghost use Rattle.zv_map2d_laws.specs.Laws.{CanonAgain, CanonBounded, CanonStands, DelCodable};
ghost use Rattle.zv_map2d_laws.specs.Laws.{DelKeeps, EmptyStands, FitsAlike, FrameExactly};
ghost use Rattle.zv_map2d_laws.specs.Laws.{IsReadExactly, OneSpelling, PutCodable, PutKeeps};
ghost use Rattle.zv_map2d_laws.specs.Laws.{ReadsAsRows, SameCanon, StandsForOne};
ghost use Rattle.zv_map2d_laws.specs.Locales.{Locales};
ghost use Rattle.zv_map2d_laws.specs.Overlays.{Associative, EmptyOver, EmptyUnder, FoundInUpper};
ghost use Rattle.zv_map2d_laws.specs.Overlays.{OnlyOverlay, OverItself, OverlayInOrder};
ghost use Rattle.zv_map2d_laws.specs.Sizes.{DelShrinks, ImageHolds, PutGrows, SmallFits};

/// Worked images. It does nothing.
pub fn worked_images()
    ensures empty { Empty }
    ensures one_pair { OnePair }
    ensures other_spellings { OtherSpellings }
    ensures two_rows { TwoRows }
    ensures no_frame { NoFrame }
    ensures lengths { Lengths }
    ensures ends { Ends }
    ensures texts { Texts }
    ensures counts { Counts }
    ensures own_errors { OwnErrors }
    ensures alone { Alone }
    ensures neighbours { Neighbours }
    ensures prefixes { Prefixes }
    ensures finds { Finds }
    ensures locales { Locales }
{}

/// Worked images with heads. It does nothing.
pub fn worked_heads()
    ensures heads { Heads }
    ensures cut { CutHeads }
    ensures names { Names }
    ensures errors { WideErrors }
    ensures canon { WideCanon }
{}

/// Images and the maps that they stand for. It does nothing.
pub fn laws()
    ensures read { IsReadExactly }
    ensures one { StandsForOne }
    ensures rows { ReadsAsRows }
    ensures canon { CanonStands }
    ensures spelling { OneSpelling }
    ensures bounded { CanonBounded }
    ensures frame { FrameExactly }
{}

/// Changes of a map, and the images of the maps that they leave. It does nothing.
pub fn changes()
    ensures empty { EmptyStands }
    ensures put { PutKeeps }
    ensures del { DelKeeps }
    ensures put_codable { PutCodable }
    ensures del_codable { DelCodable }
    ensures fits { FitsAlike }
    ensures again { CanonAgain }
    ensures same { SameCanon }
{}

/// The lists of an image's map, and what changes add to them: a value fits while they are short. It
/// does nothing.
pub fn growth()
    ensures put { PutGrows }
    ensures del { DelShrinks }
    ensures image { ImageHolds }
    ensures fits { SmallFits }
{}

/// A map in two levels is a finite map: what a pair has is what its second key has in the row of
/// its first, after a put the pair has that value, after puts the last that was given, after a
/// removal it has none, any other pair has what it had, and maps in which the same is found are the
/// same. It does nothing.
pub fn finite_map()
    ensures row { FoundInRow }
    ensures put { PutIsFound }
    ensures put_others { PutLeavesOthers }
    ensures put_well { PutIsWell }
    ensures last { KeepsLast }
    ensures del { DelIsGone }
    ensures del_others { DelLeavesOthers }
    ensures del_well { DelIsWell }
    ensures alike { FoundAlike }
    ensures exact { TextsAreExact }
{}

/// One map laid over another is the only one that has for each pair of keys what the upper map has,
/// or else what the lower one has. Of three it is the same which two are laid over one another
/// first; a map over itself is itself, and so is one over or under the empty one. It does nothing.
pub fn overlays()
    ensures found { FoundInUpper }
    ensures in_order { OverlayInOrder }
    ensures only { OnlyOverlay }
    ensures associative { Associative }
    ensures itself { OverItself }
    ensures empty_under { EmptyUnder }
    ensures empty_over { EmptyOver }
{}

/// Worked changes. It does nothing.
pub fn worked_changes()
    ensures first_pair { FirstPair }
    ensures new_first_row { NewFirstRow }
    ensures new_pair { NewPair }
    ensures other_value { OtherValue }
    ensures one_of_two { OneOfTwo }
    ensures only_pair { OnlyPair }
    ensures missing_pair { MissingPair }
    ensures long_values { LongValues }
    ensures keys_there { KeysThere }
{}
