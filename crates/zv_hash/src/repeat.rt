// Hashes that stand at an earlier place too.
ghost use Rattle.std.specs.Prelude.{◌≡◌, ℕ, ◌<◌, ◌^◌, IfOk, MatchBool, MatchOption, length};
ghost use Rattle.std.specs.Prelude.{slice_index};
ghost use Rattle.zv_hash.specs.Repeats.{AreDistinctBelow, IsFirstRepeat};

use crate::chains::{Chains, Links};
use crate::splitting::bucket_of_hash;
use std::alloc::{AllocError, Global};

/// Whether the hash at a place stands at an earlier place too. It looks at the places of its bucket
/// alone.
fn is_repeat(chains: Chains, place: usize) -> bool
    requires { place < length chains.hashes.now }
    ensures { let hs = chains.entry.hashes.now in MatchBool result
        ((i : ℕ) × (i < place) × (slice_index hs i ≡ slice_index hs place))
        ((i : ℕ) → i < place → slice_index hs i ≡ slice_index hs place → ⊥) }
{
    let hash = chains.hashes[place];
    let mut at = chains.firsts[bucket_of_hash(hash, chains.hashes.len())];
    while at < place {
        if chains.hashes[at] == hash {
            return true;
        }
        at = chains.nexts[at];
    }
    false
}

/// The first place whose hash stands at an earlier place too.
fn find_repeat(chains: Chains) -> Option<usize>
    ensures { let hs = chains.entry.hashes.now in MatchOption result
        (AreDistinctBelow hs (length hs)) (IsFirstRepeat hs) }
{
    for place in 0..chains.hashes.len() {
        if is_repeat(chains, place) {
            return Some(place);
        }
    }
    None
}

/// The first place whose hash stands at an earlier place too, or `None` where all differ. It takes
/// time linear in their number, but where many hashes share a bucket.
pub fn first_repeat(alloc: Global, hashes: &[u64]) -> Result<Option<usize>, AllocError>
    requires { length hashes.now < 2 ^ 32 }
    ensures { IfOk result (λ found. MatchOption found
        (AreDistinctBelow hashes.now (length hashes.now)) (IsFirstRepeat hashes.now)) }
{
    let links = Links::new(alloc, hashes)?;
    Ok(find_repeat(Chains {
        hashes,
        firsts: &links.firsts,
        nexts: &links.nexts,
    }))
}
