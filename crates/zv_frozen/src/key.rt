// The key of two texts.
ghost use Rattle.std.specs.Prelude.{◌≡◌, ⊤, ◌<◌, ◌≤◌, ◌^◌, length, List, ℕ, take, drop};
ghost use Rattle.std.specs.Prelude.{IfSome, MatchOption, None, is_some};
ghost use Rattle.std.specs.Option.{option_map};
ghost use Rattle.std.specs.Cmp.Lexicographic.{slice_cmp};
ghost use Rattle.std.specs.Ordering.{nat_cmp, ordering_then};
ghost use Rattle.zv_ule.specs.Bytes.{le};
ghost use Rattle.zv_ule.specs.Kinds.{text_fault};
ghost use Rattle.zv_frozen.specs.Keys.{IsKey, first_len, is_key, pair_key, text0, text1};

use std::alloc::AllocError;
use std::cmp::Ordering;
use std::sync::ledger::Ledger;
use zv_fixed::ZeroSliceULE;
use zv_hashmap::HashArg;
use zv_ule::{Steps, StrULE, VarRef, ZvArg, ZvOrdArg};
use zv_xxhash::XxHash64;

/// Two texts as a key of a hash table: how long the first one is, as four bytes, the lowest first,
/// and then both. No two pairs of texts have the same key. It borrows the texts.
pub struct PairKey<'k> {
    key0: &'k str,
    key1: &'k str,
    pub ghost short: { length key0.now < 2 ^ 32 },
}

impl Copy for PairKey<'_> {}

impl Clone for PairKey<'_> {
    ghost is_clone = { λ k l. l ≡ k };

    ghost is_infallible = { λ _. ⊤ };

    #[inline]
    fn clone(&self) -> Result<Self, AllocError> {
        Ok(*self)
    }
}

impl<'k> PairKey<'k> {
    ghost use Rattle.zv_frozen.specs.Argument.{key_of};

    /// The key of two texts, of which the first is shorter than 2^32 bytes.
    #[inline]
    pub fn new(key0: &'k str, key1: &'k str) -> PairKey<'k>
        requires { length key0.now < 2 ^ 32 }
        ensures { key_of result ≡ pair_key key0.now key1.now }
    {
        PairKey { key0, key1 }
    }

    /// The key of two texts, or `None` exactly where the first has 2^32 bytes or more.
    #[inline]
    pub(crate) fn of_texts(key0: &'k str, key1: &'k str) -> Option<PairKey<'k>>
        ensures { MatchOption result (2 ^ 32 ≤ length key0.now)
            (λ k. (length key0.now < 2 ^ 32) × (key_of k ≡ pair_key key0.now key1.now)) }
    {
        if key0.len() > u32::MAX as usize {
            return None;
        }
        Some(PairKey::new(key0, key1))
    }

    /// The bytes before the texts.
    #[inline]
    fn head(&self) -> [u8; 4]
        ensures { result ≡ le 4 (length self.now.key0.now) }
    {
        (self.key0.len() as u32).to_le_bytes()
    }
}

#[tactic(auto, using(zv_ule::proofs::ChunkFaults::plain_bytes))]
impl ZvArg<ZeroSliceULE<u8>> for PairKey<'_> {
    ghost use Rattle.zv_frozen.specs.Argument.{key_of};

    ghost bytes = { key_of };

    #[inline]
    fn arg_len(&self) -> usize {
        4 + self.key0.len() + self.key1.len()
    }

    #[inline]
    fn arg_write(&self, out: &mut [u8]) {
        let (head, texts) = out.split_at_mut(4);
        let (first, second) = texts.split_at_mut(self.key0.len());
        head.copy_from_slice(&self.head());
        first.copy_from_slice(self.key0.as_bytes());
        second.copy_from_slice(self.key1.as_bytes());
    }
}

impl HashArg<ZeroSliceULE<u8>> for PairKey<'_> {
    #[inline]
    fn hash_arg(&self, hasher: &mut XxHash64) {
        hasher.write(&self.head());
        hasher.write(self.key0.as_bytes());
        hasher.write(self.key1.as_bytes());
    }
}

/// How bytes compare with a piece of as many bytes at their start, and what is behind it.
#[inline]
fn compare_start<'b>(bytes: &'b [u8], piece: &[u8]) -> (Ordering, &'b [u8])
    ensures order { result.0
        ≡ slice_cmp nat_cmp (take (length piece.now) bytes.now) piece.now }
    ensures rest { result.1.now ≡ drop (length piece.now) bytes.now }
{
    let (start, rest) = bytes.split_at(piece.len().min(bytes.len()));
    (start.cmp(piece), rest)
}

impl PairKey<'_> {
    ghost use Rattle.zv_map2d.specs.Image.{by_bytes};
    ghost use Rattle.zv_frozen.specs.Argument.{key_of};

    /// How the bytes of a stored key compare with the key's.
    #[tactic(auto, using(crate::proofs::Keys::in_three))]
    #[inline]
    fn compare(&self, stored: &[u8]) -> Ordering
        ensures { result ≡ by_bytes stored.now (key_of self.now) }
    {
        let (head, texts) = compare_start(stored, &self.head());
        if head.is_ne() {
            return head;
        }
        let (first, rest) = compare_start(texts, self.key0.as_bytes());
        if first.is_ne() {
            return first;
        }
        rest.cmp(self.key1.as_bytes())
    }
}

impl ZvOrdArg<ZeroSliceULE<u8>> for PairKey<'_> {
    #[inline]
    fn arg_compare<L: Ledger>(&self, element: &[u8], steps: &mut Steps<L>) -> Ordering {
        steps.tick();
        self.compare(element)
    }
}

/// The number that the first four bytes of a key are, and the bytes behind them.
#[inline]
fn split_head(key: &[u8]) -> Option<(usize, &[u8])>
    ensures { MatchOption result (length key.now < 4)
        (λ p. (4 ≤ length key.now) × (p.0 ≡ first_len key.now) × (p.1.now ≡ drop 4 key.now)) }
{
    if key.len() < 4 {
        return None;
    }
    let (head, texts) = key.split_at(4);
    let len = u32::from_le_bytes([head[0], head[1], head[2], head[3]]);
    Some((len as usize, texts))
}

/// The text that bytes are, if they are one.
#[inline]
fn text_in(bytes: &[u8]) -> Option<&str>
    ensures { MatchOption result (text_fault bytes.now ≡ None → ⊥)
        (λ s. (s.now ≡ bytes.now) × (text_fault bytes.now ≡ None)) }
{
    match VarRef::<StrULE>::new(bytes) {
        Ok(text) => Some(text.as_str()),
        Err(_) => None,
    }
}

/// The two texts of a key.
pub(crate) fn texts_of(key: &[u8]) -> Option<(&str, &str)>
    ensures test { is_some result ≡ is_key key.now }
    ensures texts { IfSome result (λ p. IsKey key.now × (p.0.now ≡ text0 key.now)
        × (p.1.now ≡ text1 key.now)) }
{
    let (len, texts) = split_head(key)?;
    if texts.len() < len {
        return None;
    }
    let (first, second) = texts.split_at(len);
    let Some(key0) = text_in(first) else {
        return None;
    };
    let Some(key1) = text_in(second) else {
        return None;
    };
    Some((key0, key1))
}
