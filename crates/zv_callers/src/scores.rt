// Scores by number, in bytes that are borrowed until the first change.
ghost use Rattle.std.specs.Prelude.{◌≡◌, ◌<◌, IfOk, OnErr, OnOk, Some, length, slice_set};
ghost use Rattle.std.specs.List.{slice_get};

use std::alloc::Global;
use zv_fixed::ZeroVec;
use zv_ule::NoMemory;

/// The score of each number below their count.
pub type Scores<'a> = ZeroVec<'a, u32>;

/// Gives a number another score, and tells the one that it had. A number without a score is left
/// without.
pub fn set_score(
    scores: &mut Scores<'_>,
    alloc: Global,
    number: usize,
    score: u32,
) -> Result<Option<u32>, NoMemory>
    ensures scores { OnOk result (scores.new.values ≡ slice_set scores.old.values number score) }
    ensures old { IfOk result (λ old. old ≡ slice_get scores.old.values number) }
    ensures found { OnOk result (number < length scores.old.values →
        slice_get scores.new.values number ≡ Some score) }
    ensures err { OnErr result (scores.new ≡ scores.old) }
{
    let old = scores.get(number);
    if old.is_some() {
        scores.set(alloc, number, score)?;
    }
    Ok(old)
}
