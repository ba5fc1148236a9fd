// What the stripes leave: words, half a word, bytes; and the last mixing.
ghost use Rattle.std.specs.Prelude.{◌≡◌, ℕ, ◌<◌, ◌≤◌, List, [], ◌∷◌, ◌++◌, length};
ghost use Rattle.zv_xxhash.specs.Digest.{avalanche, with_byte, with_bytes, with_end};
ghost use Rattle.zv_xxhash.specs.Digest.{with_half_word, with_rest, with_word};

use crate::lanes::mix;
use crate::words::{PRIME_1, PRIME_2, PRIME_3, PRIME_4, PRIME_5, read_half_word, read_word};

#[inline(always)]
fn add_word(hash: u64, bytes: &[u8]) -> u64
    requires { 8 ≤ length bytes.now }
    ensures { result ≡ with_word hash bytes.now }
{
    (hash ^ mix(0, read_word(bytes)))
        .rotate_left(27)
        .wrapping_mul(PRIME_1)
        .wrapping_add(PRIME_4)
}

#[inline(always)]
fn add_half_word(hash: u64, bytes: &[u8]) -> u64
    requires { 4 ≤ length bytes.now }
    ensures { result ≡ with_half_word hash bytes.now }
{
    (hash ^ read_half_word(bytes).wrapping_mul(PRIME_1))
        .rotate_left(23)
        .wrapping_mul(PRIME_2)
        .wrapping_add(PRIME_3)
}

#[inline(always)]
fn add_byte(hash: u64, byte: u8) -> u64
    ensures { result ≡ with_byte hash byte }
{
    (hash ^ u64::from(byte).wrapping_mul(PRIME_5))
        .rotate_left(11)
        .wrapping_mul(PRIME_1)
}

#[inline(always)]
fn add_bytes(hash: u64, bytes: &[u8]) -> u64
    ensures { result ≡ with_bytes hash bytes.now }
{
    let mut hash = hash;
    for byte in bytes {
        hash = add_byte(hash, *byte);
    }
    hash
}

/// The hash with all whole words of the bytes, and the bytes that are left.
#[inline(always)]
fn add_words(hash: u64, bytes: &[u8]) -> (u64, &[u8])
    ensures few { length result.1.now < 8 }
    // With these it goes on as from the start, whatever others follow.
    ensures same { (others : List ℕ) → with_rest result.0 (result.1.now ++ others) ≡
        with_rest hash (bytes.now ++ others) }
{
    let mut hash = hash;
    let mut rest = bytes;
    for turn in 0..bytes.len() / 8 {
        hash = add_word(hash, rest);
        let (_, after) = rest.split_at(8);
        rest = after;
    }
    (hash, rest)
}

#[inline(always)]
fn add_end(hash: u64, bytes: &[u8]) -> u64
    ensures { result ≡ with_end hash bytes.now }
{
    if bytes.len() < 4 {
        return add_bytes(hash, bytes);
    }
    add_bytes(add_half_word(hash, bytes), &bytes[4..])
}

/// The hash with the bytes that the stripes leave.
#[inline(always)]
pub fn add_rest(hash: u64, bytes: &[u8]) -> u64
    ensures { result ≡ with_rest hash bytes.now }
{
    let (hash, end) = add_words(hash, bytes);
    add_end(hash, end)
}

/// The hash with fewer bytes than a word has, and with one byte behind them.
#[inline(always)]
fn add_end_and_last(hash: u64, bytes: &[u8], last: u8) -> u64
    requires { length bytes.now < 8 }
    ensures { result ≡ with_rest hash (bytes.now ++ last ∷ []) }
{
    match bytes.len() {
        7 => add_word(
            hash,
            &[
                bytes[0], bytes[1], bytes[2], bytes[3], bytes[4], bytes[5], bytes[6], last,
            ],
        ),
        3 => add_half_word(hash, &[bytes[0], bytes[1], bytes[2], last]),
        _ => add_byte(add_end(hash, bytes), last),
    }
}

/// The hash with fewer bytes than a stripe has, and with one byte behind them.
#[inline(always)]
pub fn add_rest_and_last(hash: u64, bytes: &[u8], last: u8) -> u64
    ensures { result ≡ with_rest hash (bytes.now ++ last ∷ []) }
{
    let (hash, end) = add_words(hash, bytes);
    add_end_and_last(hash, end, last)
}

/// The last mixing of all bits.
#[inline(always)]
pub fn finish(hash: u64) -> u64
    ensures { result ≡ avalanche hash }
{
    let mut hash = hash;
    hash = (hash ^ (hash >> 33)).wrapping_mul(PRIME_2);
    hash = (hash ^ (hash >> 29)).wrapping_mul(PRIME_3);
    hash ^ (hash >> 32)
}
