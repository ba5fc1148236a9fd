// The search for a bucket's displacement.
ghost use Rattle.std.specs.Prelude.{◌≡◌, ℕ, ◌<◌, ◌≤◌, ◌↔◌, IsTrue, MatchBool, MatchOption, length};
ghost use Rattle.std.specs.Prelude.{slice_index};
ghost use Rattle.zv_hash.specs.Chains.{FitsFree};
ghost use Rattle.zv_hash.specs.Placement.{IsCandidate, IsEarlier, IsMember, sent_to};

use crate::chains::Chains;
use crate::row::Row;
use crate::splitting::parts_of;

/// Whether a hash of the bucket before the place goes to this slot.
fn is_shared(chains: Chains, bucket: usize, d: (u32, u32), place: usize, slot: usize) -> bool
    requires bucket { bucket < length chains.hashes.now }
    requires place { place < length chains.hashes.now }
    ensures { let hs = chains.entry.hashes.now in MatchBool result
        ((i : ℕ) × IsMember hs bucket i × (i < place) × (sent_to hs d i ≡ slot))
        ((i : ℕ) → IsMember hs bucket i → i < place → sent_to hs d i ≡ slot → ⊥) }
{
    let mut at = chains.firsts[bucket];
    while at < place {
        if chains.slot(d, at) == slot {
            return true;
        }
        at = chains.nexts[at];
    }
    false
}

/// Whether a displacement sends the bucket's hashes to distinct slots that hold no place.
fn fits(chains: Chains, bucket: usize, places: &[usize], d: (u32, u32)) -> bool
    requires bucket { bucket < length chains.hashes.now }
    requires len { length places.now ≡ length chains.hashes.now }
    ensures { IsTrue result ↔ FitsFree chains.entry.hashes.now places.now bucket d }
{
    let mut place = chains.firsts[bucket];
    while place < chains.hashes.len() {
        let slot = chains.slot(d, place);
        if places[slot] < chains.hashes.len() || is_shared(chains, bucket, d, place, slot) {
            return false;
        }
        place = chains.nexts[place];
    }
    true
}

/// The first displacement that sends the bucket's hashes to distinct slots that hold no place. Most
/// fail at the slot of the first hash, which is found without a division.
pub fn first_fit(chains: Chains, bucket: usize, places: &[usize]) -> Option<(u32, u32)>
    requires bucket { bucket < length chains.hashes.now }
    requires some { slice_index chains.firsts.now bucket < length chains.hashes.now }
    requires len { length places.now ≡ length chains.hashes.now }
    ensures { let hs = chains.entry.hashes.now in MatchOption result
        ((d : ℕ × ℕ) → IsCandidate (length hs) d → FitsFree hs places.now bucket d → ⊥)
        (λ d. IsCandidate (length hs) d × FitsFree hs places.now bucket d ×
        ((e : ℕ × ℕ) → IsCandidate (length hs) e → IsEarlier e d →
        FitsFree hs places.now bucket e → ⊥)) }
{
    let slots = chains.count();
    let first = parts_of(chains.hashes[chains.firsts[bucket]]);
    for d0 in 0..slots {
        let row = Row::new(slots, d0, first);
        for d1 in 0..slots.max(2) {
            let free = places[row.slot(d1) as usize] >= chains.hashes.len();
            if free && (d0, d1) != (0, 0) && fits(chains, bucket, places, (d0, d1)) {
                return Some((d0, d1));
            }
        }
    }
    None
}
