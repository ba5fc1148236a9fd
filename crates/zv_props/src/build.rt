// Tables from ranges.
ghost use Rattle.std.specs.Prelude.{◌≡◌, ℕ, ◌↔◌, None, Some, IfOk, IsErrOf, position, reverse};
ghost use Rattle.zv_props.specs.Sets.{is_bad};
ghost use Rattle.zv_props.specs.Tables.{AnswerAlike, IsProper};
ghost use Rattle.zv_props.specs.declared.error.BuildError.{BuildError};

use crate::error::BuildError;
use crate::table::{MAX_CODE_POINT, Props};
use std::alloc::Global;
use zv_ule::NoMemory;

/// The place of the first range that has no code point or ends above the largest one.
fn first_bad(sets: &[(u32, u32, u16)]) -> Option<usize>
    ensures { result ≡ position is_bad sets.now }
{
    sets.iter().position(|(first, last, _)| !(*first <= *last && *last <= MAX_CODE_POINT))
}

/// The table that ranges leave, one set after another.
#[tactic(auto, using(crate::proofs::Sets::good_sets))]
fn build_good(alloc: Global, sets: &[(u32, u32, u16)]) -> Result<Props<'static>, NoMemory>
    requires { position is_bad sets.now ≡ None }
    ensures { IfOk result (λ t. AnswerAlike t (reverse sets.now)) }
{
    let mut table = Props::new();
    for (first, last, value) in sets {
        table.set(alloc, *first, *last, *value)?;
    }
    Ok(table)
}

impl Props<'_> {
    /// The table that ranges with their values leave, set one after another: each code point has
    /// the value of the last range that has it.
    ///
    /// # Errors
    /// `BadSet` names the first range that has no code point or ends above 1,114,111. Else
    /// `Memory`.
    ///
    /// # Cost
    /// That of the sets. Ranges that ascend move no bytes.
    pub fn build(alloc: Global, sets: &[(u32, u32, u16)]) -> Result<Props<'static>, BuildError>
        ensures ok { IfOk result (λ t. AnswerAlike t (reverse sets.now)) }
        ensures proper { IfOk result IsProper }
        ensures bad { (index : ℕ) →
            IsErrOf result (BuildError.BadSet index) ↔ (position is_bad sets.now ≡ Some index) }
    {
        if let Some(index) = first_bad(sets) {
            return Err(BuildError::BadSet { index });
        }
        Ok(build_good(alloc, sets)?)
    }
}
