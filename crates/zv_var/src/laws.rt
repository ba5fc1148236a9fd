// What the format means: worked examples, and laws. Each call does nothing, and its contract is
// what it is for.
ghost use Rattle.std.specs.Prelude.{◌≡◌, ◌↔◌};
ghost use Rattle.std.specs.Cmp.Lexicographic.{slice_cmp};
ghost use Rattle.std.specs.declared.cmp.Ordering.TheVariants.{Equal};
ghost use Rattle.zv_ule.specs.Kinds.{EqualIsSame};
ghost use Rattle.zv_var.specs.Views.{list_of};
ghost use Rattle.zv_var.specs.Laws.{FramedIsTaken, LengthlessIsSound, LengthlessReadsBack};
ghost use Rattle.zv_var.specs.Laws.{NamesLeast, NoneWrong, OneEncoding, OneList, ReadsBack};
ghost use Rattle.zv_var.specs.Laws.{ShortHasStarts, SoundExactly, WrittenStands};
ghost use Rattle.zv_var.specs.Examples.{CountOfZeroIsEmpty, CountOfZeroIsSound, CutCountIsRefused};
ghost use Rattle.zv_var.specs.Examples.{CutLengthIsNoPart, CutPartIsNoPart, CutStartsAreRefused};
ghost use Rattle.zv_var.specs.Examples.{EarlierFaultIsNamed, FallingStartIsRefused};
ghost use Rattle.zv_var.specs.Examples.{FourTextsAreEncoded, FourTextsAreRead, FourTextsAreSound};
ghost use Rattle.zv_var.specs.Examples.{FramedPartIsTaken, LargeCountIsRefused, LargestOfTwoBytes};
ghost use Rattle.zv_var.specs.Examples.{NoBytesAreSound, NoElementsAreNoBytes, PartIsFramed};
ghost use Rattle.zv_var.specs.Examples.{StartPastEndIsRefused, TwoTextsInFourByteFields};
ghost use Rattle.zv_var.specs.Examples.{TwoTextsInOneByteFields, TwoTextsInTwoByteFields};

use crate::slice::VarZeroSlice;
use zv_ule::{VarZeroVecFormat, ZvOrd};

/// Small lists, and their encodings byte for byte.
pub fn lists_by_hand()
    ensures four_texts_written { FourTextsAreEncoded }
    ensures four_texts_read { FourTextsAreRead }
    ensures four_texts_sound { FourTextsAreSound }
    ensures two_texts_in_one_byte_fields { TwoTextsInOneByteFields }
    ensures two_texts_in_two_byte_fields { TwoTextsInTwoByteFields }
    ensures two_texts_in_four_byte_fields { TwoTextsInFourByteFields }
    ensures largest_of_two_bytes { LargestOfTwoBytes }
    ensures no_elements { NoElementsAreNoBytes }
{}

/// Bytes at the edges of the format, and their faults.
pub fn faults_by_hand()
    ensures no_bytes { NoBytesAreSound }
    ensures count_of_zero_sound { CountOfZeroIsSound }
    ensures count_of_zero_empty { CountOfZeroIsEmpty }
    ensures cut_count { CutCountIsRefused }
    ensures cut_starts { CutStartsAreRefused }
    ensures large_count { LargeCountIsRefused }
    ensures start_past_end { StartPastEndIsRefused }
    ensures falling_start { FallingStartIsRefused }
    ensures earlier_fault { EarlierFaultIsNamed }
{}

/// A small part in its frame, and bytes that are no whole part.
pub fn frames_by_hand()
    ensures part_framed { PartIsFramed }
    ensures part_taken { FramedPartIsTaken }
    ensures cut_length { CutLengthIsNoPart }
    ensures cut_part { CutPartIsNoPart }
{}

/// In every format, bytes and lists determine each other, bytes are refused exactly where they are
/// the form of no list of valid elements, what is written stands for its list, and the fault that
/// is named is that of the least place.
pub fn one_reading()
    ensures one_list { OneList }
    ensures one_encoding { OneEncoding }
    ensures sound_exactly { SoundExactly }
    ensures reads_back { ReadsBack }
    ensures written_stands { WrittenStands }
    ensures none_wrong { NoneWrong }
    ensures names_least { NamesLeast }
{}

/// A list that is written without its count is read again by its length.
pub fn lengthless_reading()
    ensures short_has_starts { ShortHasStarts }
    ensures reads_back { LengthlessReadsBack }
    ensures sound { LengthlessIsSound }
{}

/// Parts that were framed are taken again, one after another.
#[tactic(auto, using(crate::proofs::Frames::first_part_of_framed))]
pub fn framed_is_taken()
    ensures { FramedIsTaken }
{}

/// Two lists compare Equal exactly where their elements are the same, in a kind whose elements do.
pub fn exact_order_of_lists<T: ZvOrd, F: VarZeroVecFormat>(
    left: VarZeroSlice<'_, T, F>,
    right: VarZeroSlice<'_, T, F>,
)
    requires { EqualIsSame T.fault T.cmp }
    ensures { (slice_cmp T.cmp (list_of left.entry) (list_of right.entry) ≡ Equal)
        ↔ (list_of left.entry ≡ list_of right.entry) }
{}
