// The digest of bytes that lie in one piece, and of one byte behind them.
ghost use Rattle.std.specs.Prelude.{◌≡◌, [], ◌∷◌, ◌++◌};
ghost use Rattle.zv_xxhash.specs.Digest.{xxh64};

use crate::hasher::XxHash64;
use crate::lanes::STRIPE;
use crate::tail::{add_rest_and_last, finish};
use crate::words::PRIME_5;

/// The digest of bytes that are a stripe or more with the last one.
#[inline(never)]
fn digest_long(seed: u64, bytes: &[u8], last: u8) -> u64
    ensures { result ≡ xxh64 seed (bytes.now ++ last ∷ []) }
{
    let mut hasher = XxHash64::with_seed(seed);
    hasher.write(bytes);
    hasher.write(&[last]);
    hasher.finish()
}

/// The digest of bytes and of one byte behind them. Fewer than a stripe are hashed where they lie.
#[inline]
pub fn digest_with_last(seed: u64, bytes: &[u8], last: u8) -> u64
    ensures { result ≡ xxh64 seed (bytes.now ++ last ∷ []) }
{
    if bytes.len() >= STRIPE - 1 {
        return digest_long(seed, bytes, last);
    }
    let len = bytes.len() as u64 + 1;
    let hash = seed.wrapping_add(PRIME_5).wrapping_add(len);
    finish(add_rest_and_last(hash, bytes, last))
}
