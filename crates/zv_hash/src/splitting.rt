// A hash in three parts, and where a displacement sends it.
ghost use Rattle.std.specs.Prelude.{◌≡◌, ◌<◌, ◌≤◌};
ghost use Rattle.zv_hash.specs.Splitting.{bucket_of, index, parts, slot_of, split};

/// The bucket of a hash, one of `m`, and its two parts of 24 bits.
pub fn split_hash64(hash: u64, m: usize) -> (usize, u32, u32)
    requires { 1 ≤ m }
    ensures { result ≡ split hash m }
{
    let (f0, f1) = parts_of(hash);
    (bucket_of_hash(hash, m), f0, f1)
}

/// The slot, one of `m`, that the displacement `d` sends a hash with the parts `f` to.
pub fn compute_index(f: (u32, u32), d: (u32, u32), m: u32) -> Option<usize>
    ensures { result ≡ index f d m }
{
    if d == (0, 0) || m == 0 {
        return None;
    }
    Some(slot_in(m, d, f) as usize)
}

#[inline(always)]
pub fn parts_of(hash: u64) -> (u32, u32)
    ensures { result ≡ parts hash }
{
    ((hash >> 24 & 0xff_ffff) as u32, (hash & 0xff_ffff) as u32)
}

#[inline(always)]
#[tactic(auto, unfolding(crate::specs::Splitting::bucket_of))]
pub fn bucket_of_hash(hash: u64, m: usize) -> usize
    requires { 1 ≤ m }
    ensures bucket { result ≡ bucket_of m hash }
    ensures within { result < m }
{
    (hash >> 48) as usize % m
}

#[inline(always)]
#[tactic(auto, unfolding(crate::specs::Splitting::slot_of))]
pub fn slot_in(m: u32, d: (u32, u32), f: (u32, u32)) -> u32
    requires { 1 ≤ m }
    ensures { result ≡ slot_of m d f }
{
    f.1.wrapping_mul(d.0).wrapping_add(f.0).wrapping_add(d.1) % m
}
