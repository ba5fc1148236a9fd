// Elements of any length that may be missing.
ghost use Rattle.std.specs.Prelude.{◌≡◌, ◌+◌, ◌<◌, ◌∷◌, [], List, ℕ, length, None, option_map};
ghost use Rattle.std.specs.Prelude.{IsTrue};
ghost use Rattle.std.specs.Cmp.{on_total};
ghost use Rattle.std.specs.Cmp.Lexicographic.{options_total};
ghost use Rattle.std.specs.Option.{option_cmp};
ghost use Rattle.std.specs.Ordering.{on};
ghost use Rattle.zv_multi.specs.Options.{option_fault, option_fits, option_of, option_spelling};
ghost use Rattle.zv_ule.specs.Views.{element_of};
ghost use Rattle.zv_ule.specs.declared.error.TyName.TheVariants.{OptionVar};

use std::cmp::Ordering;
use std::marker::PhantomData;
use std::sync::ledger::Ledger;
use zv_ule::{EncodeAsVarULE, Steps, TyName, UleError, VarRef, VarULE, ZvKind, ZvOrd};

/// The kind of elements of kind `U` that may be missing: the byte 1 and then the element, or the
/// byte 0 alone. A missing element is below all others.
pub struct OptionVarULE<U: VarULE> {
    of: PhantomData<U>,
}

impl<U: VarULE> ZvKind for OptionVarULE<U> {
    const TY: TyName = TyName::OptionVar;

    ghost TY = { OptionVar };

    ghost usable = { U.usable };

    ghost fault = { option_fault U.fault };

    fn check(bytes: &[u8]) -> Result<(), UleError> {
        match bytes {
            [0] => Ok(()),
            [] | [0, ..] => Err(UleError::length(TyName::OptionVar, bytes.len())),
            [1, element @ ..] => U::check(element),
            _ => Err(UleError::parse(TyName::OptionVar)),
        }
    }
}

impl<U: VarULE> VarULE for OptionVarULE<U> {}

/// The element that valid bytes hold, if any.
#[inline]
fn content<'b, U: VarULE>(bytes: &'b [u8]) -> Option<VarRef<'b, U>>
    requires usable { IsTrue U.usable }
    requires spells { option_fault U.fault bytes.now ≡ None }
    ensures { option_map element_of result ≡ option_of bytes.now }
{
    match bytes {
        [1, element @ ..] => Some(VarRef::of_valid(element)),
        _ => None,
    }
}

impl<U: VarULE + ZvOrd> ZvOrd for OptionVarULE<U> {
    ghost cmp = { on option_of (option_cmp U.cmp) };

    #[inline]
    fn compare<L: Ledger>(a: &[u8], b: &[u8], steps: &mut Steps<L>) -> Ordering {
        steps.tick();
        match (content::<U>(a), content::<U>(b)) {
            (Some(left), Some(right)) => left.order(right),
            (Some(_), None) => Ordering::Greater,
            (None, Some(_)) => Ordering::Less,
            (None, None) => Ordering::Equal,
        }
    }

    ghost total = { on_total option_of (options_total U.total) };
}

impl<U: VarULE> OptionVarULE<U> {
    /// The element, unless it is missing. It checks nothing.
    #[inline]
    pub fn as_ref<'b>(view: VarRef<'b, Self>) -> Option<VarRef<'b, U>>
        ensures { option_map element_of result ≡ option_of (element_of view.entry) }
    {
        content(view.as_bytes())
    }
}

impl<U: VarULE, E: EncodeAsVarULE<U>> EncodeAsVarULE<OptionVarULE<U>> for Option<E> {
    ghost fits = { option_fits E.fits E.spelling };

    ghost spelling = { option_spelling E.fits E.spelling };

    #[inline]
    fn encode_var_ule_fits(&self) -> bool {
        match self {
            Some(value) => value.encode_var_ule_fits()
                && value.encode_var_ule_len().checked_add(1).is_some(),
            None => true,
        }
    }

    #[inline]
    fn encode_var_ule_len(&self) -> usize {
        match self {
            Some(value) => 1 + value.encode_var_ule_len(),
            None => 1,
        }
    }

    #[inline]
    fn encode_var_ule_write(&self, dst: &mut [u8]) {
        let (tag, element) = dst.split_at_mut(1);
        match self {
            Some(value) => {
                tag[0] = 1;
                value.encode_var_ule_write(element);
            }
            None => tag[0] = 0,
        }
    }
}
