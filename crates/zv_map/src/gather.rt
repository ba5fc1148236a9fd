// Containers that are written of their elements at once.
ghost use Rattle.std.specs.Prelude.{◌≡◌, [], IfErr, IfOk, IsTrue, false, map, true};
ghost use Rattle.zv_ule.specs.Views.{element_of};
ghost use Rattle.zv_owned.specs.Size.{takes_pushes};
ghost use Rattle.zv_map.specs.declared.error.MapError.{MapError};

use crate::error::MapError;
use crate::vecs::MutableZeroVecLike;
use std::alloc::Global;
use zv_ule::{VarRef, ZvKind};

/// The container of elements, in their order, which owns its bytes. They are written at once where
/// the container can do that, so that none is moved, and are else pushed one after another.
///
/// # Errors
/// `TooLarge` only where pushing the elements into an empty container would be refused; else
/// `Memory`, also of elements that are too many.
pub fn container_of<'a, T: ZvKind, C: MutableZeroVecLike<'a, T>>(
    alloc: Global,
    elements: &[VarRef<'_, T>],
) -> Result<C, MapError>
    requires { IsTrue T.usable }
    ensures list { IfOk result (λ c. C.list c ≡ map element_of elements.now) }
    ensures owned { IfOk result (λ c. C.owned c ≡ true) }
    ensures taken { IfOk result (λ _. takes_pushes C.takes_insert []
        (map element_of elements.now) ≡ true) }
    ensures refused { IfErr result (λ e. e ≡ MapError.TooLarge →
        takes_pushes C.takes_insert [] (map element_of elements.now) ≡ false) }
{
    let mut list = C::zvl_new();
    if list.zvl_write_elements(alloc, elements)? {
        return if list.zvl_takes_elements() {
            Ok(list)
        } else {
            Err(MapError::TooLarge)
        };
    }
    list.zvl_reserve(alloc, elements.len())?;
    for element in elements {
        let _len = element.as_bytes().len();
        list.zvl_push(alloc, element)?;
    }
    Ok(list)
}
