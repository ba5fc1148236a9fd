// Elements of which nothing is asked.
ghost use Rattle.std.specs.Prelude.{true};
ghost use Rattle.zv_multi.specs.Records.{no_fault};
ghost use Rattle.zv_ule.specs.declared.error.TyName.TheVariants.{MultiFields};

use zv_ule::{TyName, UleError, ZvKind};

/// The kind of all byte strings: what the fields of a record are before their own kinds are asked.
pub struct AnyBytes;

impl ZvKind for AnyBytes {
    const TY: TyName = TyName::MultiFields;

    ghost TY = { MultiFields };

    ghost usable = { true };

    ghost fault = { no_fault };

    #[inline]
    fn check(_bytes: &[u8]) -> Result<(), UleError> {
        Ok(())
    }

    #[inline]
    fn is_sound_everywhere(_bytes: &[u8]) -> bool {
        true
    }
}
