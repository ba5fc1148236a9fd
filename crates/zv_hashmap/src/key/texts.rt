// Texts as keys: their bytes, and 0xFF behind them, which no text has.
ghost use Rattle.std.specs.Prelude.{◌≡◌, ℕ, List};
ghost use Rattle.std.proofs.lemmas.Map.Lookups.{exact_bytes};
ghost use Rattle.zv_hashmap.specs.Hashed.{Writes, hashed_text, key_hash};
ghost use Rattle.zv_hashmap.specs.Laws.{alike_by};

use crate::key::{HashArg, HashBytes, SEED};
use zv_ule::StrULE;
use zv_xxhash::{XxHash64, digest_with_last};

/// The byte behind a text.
const TAIL: u8 = 0xff;

/// Writes a text to a hasher, from where it lies.
#[inline]
fn hash_text(text: &[u8], hasher: &mut XxHash64)
    ensures { Writes hasher.old hasher.new (hashed_text text.now) }
{
    hasher.write(text);
    hasher.write(&[TAIL]);
}

/// The hash of a text, from where it lies.
#[inline]
fn text_hash(text: &[u8]) -> u64
    ensures { result ≡ key_hash hashed_text text.now }
{
    digest_with_last(SEED, text, TAIL)
}

impl HashBytes for StrULE {
    ghost hashed = { hashed_text };

    #[inline]
    fn hash_element(element: &[u8], hasher: &mut XxHash64) {
        hash_text(element, hasher);
    }

    #[inline]
    fn element_hash(element: &[u8]) -> u64 {
        text_hash(element)
    }

    ghost alike = { alike_by (λ b. b) hashed_text exact_bytes };
}

impl HashArg<StrULE> for &str {
    #[inline]
    fn hash_arg(&self, hasher: &mut XxHash64) {
        hash_text(self.as_bytes(), hasher);
    }

    #[inline]
    fn arg_hash(&self) -> u64 {
        text_hash(self.as_bytes())
    }
}

impl HashArg<StrULE> for String {
    #[inline]
    fn hash_arg(&self, hasher: &mut XxHash64) {
        hash_text(self.as_bytes(), hasher);
    }

    #[inline]
    fn arg_hash(&self) -> u64 {
        text_hash(self.as_bytes())
    }
}
