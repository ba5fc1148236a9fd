// The placement of hashes in slots.
ghost use Rattle.std.specs.Prelude.{◌≡◌, ℕ, ◌+◌, ◌<◌, ◌≤◌, ◌^◌, ◌⊎◌, MatchResult, length};
ghost use Rattle.std.specs.Prelude.{replicate, IfOk, IsPermutation, OnOk};
ghost use Rattle.std.specs.List.{range_with_len};
ghost use Rattle.std.specs.Prelude.{slice_index, vec_len};
ghost use Rattle.zv_hash.specs.Chains.{FitsFree};
ghost use Rattle.zv_hash.specs.Filling.{Filled};
ghost use Rattle.zv_hash.specs.Refusals.{IsRefusal};
ghost use Rattle.zv_hash.specs.Placement.{Chosen, IsMember, IsStuck, Placed, sent_to, size};

use crate::chains::{Chains, Links, count_sizes};
use crate::error::HashError;
use crate::search::first_fit;
use std::alloc::Global;

/// Where hashes stand in a table with as many slots.
#[derive(Drop)]
pub struct Placement {
    /// The displacement of each bucket, and (0, 0) for one without hashes.
    pub displacements: Vec<(u32, u32)>,
    /// For each slot the place of its hash in the input.
    pub reverse_mapping: Vec<usize>,
}

/// The largest size up to a limit, or 0.
fn largest_up_to(sizes: &[u32], limit: u32) -> u32
    ensures within { result ≤ limit }
    ensures largest { (g : ℕ) → g < length sizes.now → slice_index sizes.now g ≤ limit →
        slice_index sizes.now g ≤ result }
{
    let mut largest = 0;
    for size in sizes {
        if *size <= limit {
            largest = largest.max(*size);
        }
    }
    largest
}

/// Writes the places of a bucket into the slots that the displacement sends them to.
fn hold(chains: Chains, bucket: usize, places: &mut [usize], d: (u32, u32))
    requires bucket { bucket < length chains.hashes.now }
    requires len { length places.old ≡ length chains.hashes.now }
    requires fits { FitsFree chains.hashes.now places.old bucket d }
    ensures held { let hs = chains.entry.hashes.now in (i : ℕ) → IsMember hs bucket i →
        slice_index places.new (sent_to hs d i) ≡ i }
    ensures others { let hs = chains.entry.hashes.now in (t : ℕ) →
        (IsMember hs bucket (slice_index places.new t) ×
        (sent_to hs d (slice_index places.new t) ≡ t)) ⊎
        (slice_index places.new t ≡ slice_index places.old t) }
    ensures len { length places.new ≡ length places.old }
{
    let mut place = chains.firsts[bucket];
    while place < chains.hashes.len() {
        places[chains.slot(d, place)] = place;
        place = chains.nexts[place];
    }
}

/// Places one bucket, or says that it has no displacement.
#[tactic(auto, using(crate::proofs::Slots::first_member, crate::proofs::Fillings::stuck_there))]
fn place_bucket(
    chains: Chains,
    bucket: usize,
    displacements: &mut [(u32, u32)],
    places: &mut [usize],
) -> Result<(), usize>
    requires bucket { bucket < length chains.hashes.now }
    requires some { 0 < size chains.hashes.now bucket }
    requires filled { let hs = chains.hashes.now in
        Filled hs displacements.old places.old (size hs bucket) (bucket + 1) }
    ensures { let hs = chains.entry.hashes.now in MatchResult result
        (λ _. Filled hs displacements.new places.new (size hs bucket) bucket)
        (λ g. IsStuck hs g) }
{
    let Some(d) = first_fit(chains, bucket, places) else {
        return Err(bucket);
    };
    displacements[bucket] = d;
    hold(chains, bucket, places, d);
    Ok(())
}

/// Places the buckets of one size, the highest number first.
fn place_all_of(
    chains: Chains,
    wanted: u32,
    sizes: &[u32],
    displacements: &mut [(u32, u32)],
    places: &mut [usize],
) -> Result<(), usize>
    requires sizes { (g : ℕ) → g < length chains.hashes.now →
        slice_index sizes.now g ≡ size chains.hashes.now g }
    requires len { length sizes.now ≡ length chains.hashes.now }
    requires some { 0 < wanted }
    requires filled { let hs = chains.hashes.now in
        Filled hs displacements.old places.old wanted (length hs) }
    ensures { let hs = chains.entry.hashes.now in MatchResult result
        (λ _. Filled hs displacements.new places.new wanted 0)
        (λ g. IsStuck hs g) }
{
    let mut bucket = sizes.len();
    while bucket > 0 {
        bucket -= 1;
        if sizes[bucket] == wanted {
            place_bucket(chains, bucket, displacements, places)?;
        }
    }
    Ok(())
}

/// Places all buckets, the largest first.
#[tactic(auto, using(crate::proofs::Fillings::all_chosen, crate::proofs::Fillings::all_placed))]
fn place_all(
    chains: Chains,
    sizes: &[u32],
    displacements: &mut [(u32, u32)],
    places: &mut [usize],
) -> Result<(), usize>
    requires sizes { (g : ℕ) → g < length chains.hashes.now →
        slice_index sizes.now g ≡ size chains.hashes.now g }
    requires len { length sizes.now ≡ length chains.hashes.now }
    requires displacements { displacements.old ≡ replicate (length chains.hashes.now) (0, 0) }
    requires places { let n = length chains.hashes.now in places.old ≡ replicate n n }
    ensures { let hs = chains.entry.hashes.now in MatchResult result
        (λ _. Chosen hs displacements.new × Placed hs displacements.new places.new)
        (λ g. IsStuck hs g) }
{
    let mut wanted = largest_up_to(sizes, u32::MAX);
    while wanted > 0 {
        place_all_of(chains, wanted, sizes, displacements, places)?;
        wanted = largest_up_to(sizes, wanted - 1);
    }
    Ok(())
}

/// The placement of hashes: each bucket, the larger first and of one size the higher number first,
/// has the first displacement that sends its hashes to distinct slots that are still free.
///
/// Hashes whose buckets find one soon take time about linear in their number. Hashes that are
/// equal are tried with every displacement before `NoPlace` comes.
pub fn compute_displacements(alloc: Global, key_hashes: &[u64]) -> Result<Placement, HashError>
    ensures placed { let hs = key_hashes.now in MatchResult result
        (λ p. Chosen hs p.displacements.items × Placed hs p.displacements.items
        p.reverse_mapping.items × (length hs < 2 ^ 32))
        (IsRefusal hs) }
    ensures unstuck { OnOk result ((g : ℕ) → IsStuck key_hashes.now g → ⊥) }
    ensures permutation { IfOk result (λ p. IsPermutation
        (range_with_len 0 (length key_hashes.now)) p.reverse_mapping.items) }
{
    let count = key_hashes.len();
    if count > u32::MAX as usize {
        return Err(HashError::TooMany);
    }
    let mut displacements = vec![in alloc; (0, 0); count]?;
    let mut reverse_mapping = vec![in alloc; count; count]?;
    place_hashes(alloc, key_hashes, &mut displacements, &mut reverse_mapping)?;
    Ok(Placement {
        displacements,
        reverse_mapping,
    })
}

/// Links and counts the hashes, and places them.
fn place_hashes(
    alloc: Global,
    hashes: &[u64],
    displacements: &mut [(u32, u32)],
    places: &mut [usize],
) -> Result<(), HashError>
    requires few { length hashes.now < 2 ^ 32 }
    requires displacements { displacements.old ≡ replicate (length hashes.now) (0, 0) }
    requires places { let n = length hashes.now in places.old ≡ replicate n n }
    ensures { MatchResult result
        (λ _. Chosen hashes.now displacements.new × Placed hashes.now displacements.new places.new)
        (IsRefusal hashes.now) }
{
    let mut sizes = vec![in alloc; 0u32; hashes.len()]?;
    count_sizes(hashes, &mut sizes);
    let links = Links::new(alloc, hashes)?;
    let chains = Chains {
        hashes,
        firsts: &links.firsts,
        nexts: &links.nexts,
    };
    place_all(chains, &sizes, displacements, places).map_err(|bucket| HashError::NoPlace { bucket })
}
