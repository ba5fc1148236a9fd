// The hashes of each bucket as a chain of places.
ghost use Rattle.std.specs.Prelude.{◌≡◌, ℕ, ◌<◌, ◌≤◌, ◌^◌, IfOk, length, replicate, slice_index};
ghost use Rattle.zv_hash.specs.Chains.{AreChains};
ghost use Rattle.zv_hash.specs.Placement.{sent_to, size};

use crate::splitting::{bucket_of_hash, parts_of, slot_in};
use std::alloc::{AllocError, Global};

/// The hashes, for each bucket its first place, and for each place the next of its bucket. Where
/// there is none it is the number of hashes.
#[derive(Clone, Copy)]
pub struct Chains<'a> {
    pub hashes: &'a [u64],
    pub firsts: &'a [usize],
    pub nexts: &'a [usize],
    pub ghost linked: { AreChains hashes.now 0 firsts.now nexts.now },
    pub ghost few: { length hashes.now < 2 ^ 32 },
}

impl Chains<'_> {
    /// How many hashes there are.
    #[inline(always)]
    pub fn count(self) -> u32
        ensures { result ≡ length self.entry.hashes.now }
    {
        self.hashes.len() as u32
    }

    /// The slot that the displacement sends the hash at a place to.
    #[inline(always)]
    #[tactic(auto, using(crate::proofs::Slots::slot_below))]
    pub fn slot(self, displacement: (u32, u32), place: usize) -> usize
        requires { place < length self.hashes.now }
        ensures slot { result ≡ sent_to self.entry.hashes.now displacement place }
        ensures within { result < length self.entry.hashes.now }
    {
        slot_in(self.count(), displacement, parts_of(self.hashes[place])) as usize
    }
}

/// Counts the hashes of each bucket.
pub fn count_sizes(hashes: &[u64], sizes: &mut [u32])
    requires few { length hashes.now < 2 ^ 32 }
    requires zeros { sizes.old ≡ replicate (length hashes.now) 0 }
    ensures len { length sizes.new ≡ length hashes.now }
    ensures sizes { (g : ℕ) → g < length hashes.now →
        slice_index sizes.new g ≡ size hashes.now g }
{
    for hash in hashes {
        sizes[bucket_of_hash(*hash, hashes.len())] += 1;
    }
}

/// Links the places of each bucket, from the last on.
#[tactic(auto, using(crate::proofs::Links::one_link))]
fn link(hashes: &[u64], firsts: &mut [usize], nexts: &mut [usize])
    requires ends { firsts.old ≡ replicate (length hashes.now) (length hashes.now) }
    requires room { length nexts.old ≡ length hashes.now }
    ensures { AreChains hashes.now 0 firsts.new nexts.new }
{
    let mut place = hashes.len();
    while place > 0 {
        place -= 1;
        let bucket = bucket_of_hash(hashes[place], hashes.len());
        nexts[place] = firsts[bucket];
        firsts[bucket] = place;
    }
}

/// What the chains of hashes refer to.
#[derive(Drop)]
pub struct Links {
    pub firsts: Vec<usize>,
    pub nexts: Vec<usize>,
}

impl Links {
    /// The links of hashes.
    pub fn new(alloc: Global, hashes: &[u64]) -> Result<Self, AllocError>
        ensures { IfOk result (λ links. AreChains hashes.now 0 links.firsts.items
            links.nexts.items) }
    {
        let mut firsts = vec![in alloc; hashes.len(); hashes.len()]?;
        let mut nexts = vec![in alloc; 0usize; hashes.len()]?;
        link(hashes, &mut firsts, &mut nexts);
        Ok(Links { firsts, nexts })
    }
}
