// Titles in the order in which they were given, in bytes that are borrowed until the first change.
ghost use Rattle.std.specs.Prelude.{◌≡◌, ◌++◌, ◌∷◌, [], IfOk, OnErr, OnOk, Some, option_map};
ghost use Rattle.std.specs.List.{slice_get};
ghost use Rattle.std.specs.Result.{result_err};
ghost use Rattle.zv_ule.specs.Kinds.{text_fault};
ghost use Rattle.zv_ule.specs.Views.{element_of};
ghost use Rattle.zv_var.specs.Format.{elements, list_fault};
ghost use Rattle.zv_var.specs.Nested.{slice_fault};
ghost use Rattle.zv_owned.specs.Vectors.{vector_list};

use std::alloc::Global;
use zv_owned::{VarZeroVec, VecError};
use zv_ule::{Index16, StrULE, UleError, VarRef};

/// Titles, each at the place where it was added.
pub type Titles<'a> = VarZeroVec<'a, StrULE, Index16>;

/// The titles that the bytes stand for, or the first fault. Nothing is copied.
pub fn read_titles(bytes: &[u8]) -> Result<Titles<'_>, UleError>
    ensures error { result_err result ≡ slice_fault (list_fault 2 text_fault bytes.now) }
    ensures titles { IfOk result (λ titles. vector_list titles ≡ elements 2 bytes.now) }
{
    VarZeroVec::parse_bytes(bytes)
}

/// The title at a place.
pub fn title<'t>(titles: &'t Titles<'_>, place: usize) -> Option<VarRef<'t, StrULE>>
    ensures { option_map element_of result ≡ slice_get (vector_list titles.now) place }
{
    titles.get(place)
}

/// Adds a title behind all others, and gives its place.
pub fn add_title(titles: &mut Titles<'_>, alloc: Global, title: &str) -> Result<usize, VecError>
    ensures titles { OnOk result
        (vector_list titles.new ≡ vector_list titles.old ++ title.now ∷ []) }
    ensures place { IfOk result (λ place.
        slice_get (vector_list titles.new) place ≡ Some title.now) }
    ensures err { OnErr result (titles.new ≡ titles.old) }
{
    let place = titles.len();
    titles.insert_arg(alloc, place, &title)?;
    Ok(place)
}
