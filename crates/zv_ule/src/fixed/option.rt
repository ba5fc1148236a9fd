// Options of values of fixed width, with a tag byte.
ghost use Rattle.std.specs.Prelude.{◌≡◌, ◌+◌, ◌<◌, refl, Option, None, Some, IfSome, option_map};
ghost use Rattle.std.specs.Prelude.{◌==◌};
ghost use Rattle.std.specs.List.{list_all};
ghost use Rattle.std.specs.Cmp.{on_total};
ghost use Rattle.std.specs.Cmp.Lexicographic.{options_total};
ghost use Rattle.std.specs.Ordering.{on};
ghost use Rattle.zv_ule.specs.Fixed.{is_width};
ghost use Rattle.zv_ule.specs.Kinds.{one_fault};
ghost use Rattle.zv_ule.specs.Options.{option_of, option_fault, option_chunk, option_value};
ghost use Rattle.zv_ule.specs.Options.{read_option};
ghost use Rattle.zv_ule.specs.laws.OptionSpellings.{option_spelling, option_twin};
ghost use Rattle.zv_ule.specs.laws.Spellings.{held_spelling, held_twins};
ghost use Rattle.zv_ule.specs.declared.error.TyName.TheVariants.{Opt};

use crate::element::{AsULE, ULE, check_one};
use crate::error::{TyName, UleError};
use crate::kind::{ZvKind, ZvOrd, compare_stored, compare_with};
use crate::kinds::argument::ZvOrdArg;
use crate::steps::Steps;
use std::cmp::Ordering;
use std::sync::ledger::Ledger;

/// A stored value or none: a byte 1 and the value, or a byte 0 and as many zeros as a value has
/// bytes. Any other bytes are `ParseError` of `Opt`, or after 1 the value's own error.
#[derive(Clone, Copy, Debug, PartialEq, Eq)]
pub struct OptionULE<U> {
    value: Option<U>,
}

impl<U: Copy> OptionULE<U> {
    /// What the option is stored as.
    #[inline]
    pub fn new(opt: Option<U>) -> Self
        ensures { option_of result ≡ opt }
    {
        OptionULE { value: opt }
    }

    /// The option.
    #[inline]
    pub fn get(self) -> Option<U>
        ensures { result ≡ option_of self }
    {
        self.value
    }
}

/// Whether each byte is 0. It looks at all of them, with no early exit.
#[inline]
fn is_zeros(bytes: &[u8]) -> bool
    ensures { result ≡ list_all (λ x. x == 0) bytes.now }
{
    let mut zeros = true;
    for byte in bytes {
        zeros = zeros & (*byte == 0);
    }
    zeros
}

impl<U: ULE> ULE for OptionULE<U> {
    const TY: TyName = TyName::Opt;

    ghost TY = { Opt };

    ghost width = { 1 + U.width };

    ghost chunk_fault = { option_fault U.chunk_fault };

    ghost is_value = { λ v. IfSome v.value U.is_value };

    ghost chunk = { λ v. option_chunk U.width U.chunk v.value };

    ghost value = { λ b. record { value = option_value U.value b } };

    #[inline]
    fn known(self) {
        if let Some(value) = self.value {
            value.known();
        }
    }

    #[inline]
    fn size() -> usize {
        1 + U::size()
    }

    #[inline]
    fn check_chunk(bytes: &[u8]) -> Result<(), UleError> {
        match bytes[0] {
            0 => {
                if is_zeros(&bytes[1..]) {
                    Ok(())
                } else {
                    Err(UleError::parse(TyName::Opt))
                }
            }
            1 => U::check_chunk(&bytes[1..]),
            _ => Err(UleError::parse(TyName::Opt)),
        }
    }

    #[inline]
    fn is_good_chunk(bytes: &[u8]) -> bool {
        let tag = bytes[0];
        let rest = &bytes[1..];
        ((tag == 0) & is_zeros(rest)) | ((tag == 1) & U::is_good_chunk(rest))
    }

    #[inline]
    fn read_chunk(bytes: &[u8]) -> Self {
        let value = if bytes[0] == 0 {
            None
        } else {
            Some(U::read_chunk(&bytes[1..]))
        };
        OptionULE { value }
    }

    #[inline]
    fn write_chunk(self, out: &mut [u8]) {
        match self.value {
            None => out.fill(0),
            Some(value) => {
                let (tag, rest) = out.split_at_mut(1);
                tag[0] = 1;
                value.write_chunk(rest);
            }
        }
    }

    ghost spelling = { held_spelling (option_spelling U.spelling) (λ v. v.value)
        (λ o. record { value = o }) (λ _. refl) (λ _. refl) };
}

impl<U: AsULE> ZvKind for Option<U> {
    const TY: TyName = TyName::Opt;

    ghost TY = { Opt };

    ghost usable = { is_width (1 + U.ULE.width) };

    ghost fault = { one_fault Opt (1 + U.ULE.width) (option_fault U.ULE.chunk_fault) };

    #[inline]
    fn check(bytes: &[u8]) -> Result<(), UleError> {
        check_one::<OptionULE<U::ULE>>(bytes)
    }
}

impl<U: AsULE> AsULE for Option<U> {
    type ULE = OptionULE<U::ULE>;

    ghost is_value = { λ v. IfSome v U.is_value };

    ghost stored = { λ v. record { value = option_map U.stored v } };

    ghost loaded = { λ u. option_map U.loaded u.value };

    #[inline]
    fn to_unaligned(self) -> OptionULE<U::ULE> {
        match self {
            None => OptionULE { value: None },
            Some(value) => OptionULE {
                value: Some(value.to_unaligned()),
            },
        }
    }

    #[inline]
    fn from_unaligned(unaligned: OptionULE<U::ULE>) -> Self {
        match unaligned.value {
            None => None,
            Some(value) => Some(U::from_unaligned(value)),
        }
    }

    ghost kind = { record { widths = refl; errors = λ _. refl } };

    ghost name = { refl };

    ghost twin = { held_twins (option_twin U.twin) (λ v. v) (λ o. o) (λ _. refl) (λ _. refl)
        (λ u. u.value) (λ o. record { value = o }) (λ _. refl) (λ _. refl) };
}

impl<U: AsULE + Ord> ZvOrd for Option<U> {
    ghost cmp = { on (read_option U.loaded U.ULE.value) ⟦<Option<U> as Ord>⟧.cmp };

    #[inline]
    fn compare<L: Ledger>(a: &[u8], b: &[u8], steps: &mut Steps<L>) -> Ordering {
        compare_stored::<Option<U>, L>(a, b, steps)
    }

    ghost total = { on_total (read_option U.loaded U.ULE.value) (options_total U.total) };
}

impl<U: AsULE + Ord> ZvOrdArg<Option<U>> for Option<U> {
    #[inline]
    fn arg_compare<L: Ledger>(&self, element: &[u8], steps: &mut Steps<L>) -> Ordering {
        compare_with::<Option<U>, L>(element, self, steps)
    }
}
