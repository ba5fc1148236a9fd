// What has a framed form.
ghost use Rattle.std.specs.Prelude.{◌≡◌, ℕ, Bool, List, Option, None, IfOk, IsTrue};
ghost use Rattle.std.specs.Result.{result_err};
ghost use Rattle.zv_framed.specs.Frames.{IsReadFrom, form_fault, frame_of};
ghost use Rattle.zv_framed.specs.declared.error.FormError.{FormError};

use crate::error::FormError;
use std::alloc::Global;
use zv_ule::NoMemory;

/// What the framed form of a container is, for the contracts of [`Framed`]: a trait with a lifetime
/// can't say it.
pub trait FramedForm: Sized {
    /// How many parts the form has: one for each vector.
    ghost count: { ℕ };

    /// Whether the kinds of the elements are usable.
    ghost usable: { Bool };

    /// The part that each vector is written as.
    ghost parts: { Self → List (List ℕ) };

    /// Why parts are no container, or nothing where they are one.
    ghost fault: { List (List ℕ) → Option FormError };

    /// A container is the one that parts are read as.
    ghost IsRead: { List (List ℕ) → Self → Type 0 };

    /// Two containers have the same lists.
    ghost IsSame: { Self → Self → Type 0 };
}

/// A container that is written as bytes which hold all of it, and read back from them: its vectors
/// one after another, each after its length as eight bytes, the lowest first.
pub trait Framed<'a>: FramedForm {
    /// The framed form. Which list each part is, is known from the type alone, so it is read back
    /// by that type. A list of elements of any length is written with no bytes where it is empty.
    ///
    /// # Cost
    /// One allocation, of just as many bytes, and one copy.
    fn to_framed_bytes(&self, alloc: Global) -> Result<Vec<u8>, NoMemory>
        ensures bytes { IfOk result (λ v. v.items ≡ frame_of (Self.parts self.now)) }
        // What was written is read back as the same lists.
        ensures sound { IfOk result (λ v. form_fault Self.count Self.fault v.items ≡ None) }
        ensures same { IfOk result (λ v. (other : Self) →
            IsReadFrom Self.count Self.IsRead v.items other → Self.IsSame self.now other) };

    /// The container whose framed form the bytes are. It borrows them.
    ///
    /// # Errors
    /// The first cause in the order of [`FormError`]'s variants.
    ///
    /// # Cost
    /// Each element is looked at once for its kind, and each key once more for its order. It takes
    /// no memory.
    fn parse_framed(bytes: &'a [u8]) -> Result<Self, FormError>
        requires { IsTrue Self.usable }
        ensures error { result_err result ≡ form_fault Self.count Self.fault bytes.now }
        ensures value { IfOk result (IsReadFrom Self.count Self.IsRead bytes.now) };
}
