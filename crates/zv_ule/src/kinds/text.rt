// Texts.
ghost use Rattle.std.specs.Prelude.{◌≡◌, ◌<◌, true, None};
ghost use Rattle.std.specs.Cmp.Lexicographic.{slice_cmp};
ghost use Rattle.std.specs.Ordering.{nat_cmp};
ghost use Rattle.std.proofs.lemmas.Cmp.{nat_list_cmp_total};
ghost use Rattle.zv_ule.specs.Kinds.{text_boundary, text_fault};
ghost use Rattle.zv_ule.specs.declared.error.TyName.TheVariants.{Str};

use crate::compare::compare_texts;
use crate::error::{TyName, UleError};
use crate::kind::{ZvKind, ZvOrd};
use crate::steps::Steps;
use std::cmp::Ordering;
use std::sync::ledger::Ledger;

/// The kind of texts: the elements are the byte strings that are UTF-8 (RFC 3629), ordered byte by
/// byte, which is the order of `str`. The error of any other is `ParseError` of `Str`.
///
/// Texts that stand one after another are tested at one look: where all bytes are ASCII any piece
/// is a text, and where all together are UTF-8 any piece between two starts of characters is.
pub struct StrULE;

impl ZvKind for StrULE {
    const TY: TyName = TyName::Str;

    ghost TY = { Str };

    ghost usable = { true };

    ghost fault = { text_fault };

    #[inline]
    #[tactic(auto, using(crate::proofs::Texts::text_good, crate::proofs::Texts::text_bad))]
    fn check(bytes: &[u8]) -> Result<(), UleError> {
        match str::from_utf8(bytes) {
            Ok(_) => Ok(()),
            Err(_) => Err(UleError::parse(TyName::Str)),
        }
    }

    ghost boundary = { text_boundary };

    #[inline]
    #[tactic(auto, using(crate::proofs::Boundaries::ascii_between))]
    fn is_sound_everywhere(bytes: &[u8]) -> bool {
        bytes.is_ascii()
    }

    #[inline]
    #[tactic(auto, using(crate::proofs::Boundaries::text_between))]
    fn is_sound_between_boundaries(bytes: &[u8]) -> bool {
        simdutf8::is_utf8(bytes)
    }

    #[inline]
    fn is_boundary(bytes: &[u8], at: usize) -> bool {
        match bytes.get(at) {
            Some(byte) => (*byte < 0x80) | (*byte >= 0xC0),
            None => true,
        }
    }
}

/// The text that an element is, with no copy and no check.
#[inline(always)]
#[tactic(auto, using(crate::proofs::Texts::text_is))]
pub(crate) fn text_of(bytes: &[u8]) -> &str
    requires { text_fault bytes.now ≡ None }
    ensures { result.now ≡ bytes.now }
{
    unsafe { str::from_utf8_unchecked(bytes) }
}

impl ZvOrd for StrULE {
    ghost cmp = { slice_cmp nat_cmp };

    #[inline]
    fn compare<L: Ledger>(a: &[u8], b: &[u8], steps: &mut Steps<L>) -> Ordering {
        steps.tick();
        compare_texts(text_of(a), text_of(b))
    }

    ghost total = { nat_list_cmp_total };
}
