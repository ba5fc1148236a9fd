// Stripes of 32 bytes, over four lanes.
ghost use Rattle.std.specs.Prelude.{◌≡◌, ◌<◌, ◌^◌, length};
ghost use Rattle.zv_xxhash.specs.Digest.{all_lanes, converged, first_lanes, lane_after};
ghost use Rattle.zv_xxhash.specs.Digest.{lanes_after, left_over, merged};

use crate::words::{PRIME_1, PRIME_2, PRIME_4, read_word};

/// The bytes of a stripe.
pub const STRIPE: usize = 32;

/// A lane with one word more.
#[inline(always)]
pub fn mix(lane: u64, input: u64) -> u64
    ensures { result ≡ lane_after lane input }
{
    lane.wrapping_add(input.wrapping_mul(PRIME_2))
        .rotate_left(31)
        .wrapping_mul(PRIME_1)
}

/// The lanes before the first stripe.
#[inline(always)]
pub fn start(seed: u64) -> [u64; 4]
    ensures { result ≡ first_lanes seed }
{
    [
        seed.wrapping_add(PRIME_1).wrapping_add(PRIME_2),
        seed.wrapping_add(PRIME_2),
        seed,
        seed.wrapping_sub(PRIME_1),
    ]
}

/// One stripe more: each lane takes one of its four words.
#[inline(always)]
pub fn add_stripe(lanes: &mut [u64; 4], stripe: &[u8])
    requires { length stripe.now ≡ STRIPE }
    ensures { lanes.new ≡ lanes_after lanes.old stripe.now }
{
    *lanes = [
        mix(lanes[0], read_word(stripe)),
        mix(lanes[1], read_word(&stripe[8..])),
        mix(lanes[2], read_word(&stripe[16..])),
        mix(lanes[3], read_word(&stripe[24..])),
    ];
}

/// All whole stripes of the bytes, in place; what is left is handed back.
pub fn add_stripes<'b>(lanes: &mut [u64; 4], bytes: &'b [u8]) -> &'b [u8]
    ensures lanes { lanes.new ≡ all_lanes lanes.old bytes.now }
    ensures left { result.now ≡ left_over bytes.now }
{
    let mut rest = bytes;
    for turn in 0..bytes.len() / STRIPE {
        let (stripe, after) = rest.split_at(STRIPE);
        add_stripe(lanes, stripe);
        rest = after;
    }
    rest
}

/// One lane merged into the hash.
fn merge(hash: u64, lane: u64) -> u64
    ensures { result ≡ merged hash lane }
{
    (hash ^ mix(0, lane))
        .wrapping_mul(PRIME_1)
        .wrapping_add(PRIME_4)
}

/// The four lanes as one number.
#[inline(never)]
pub fn converge(lanes: [u64; 4]) -> u64
    ensures { result ≡ converged lanes }
{
    let sum = lanes[0]
        .rotate_left(1)
        .wrapping_add(lanes[1].rotate_left(7))
        .wrapping_add(lanes[2].rotate_left(12))
        .wrapping_add(lanes[3].rotate_left(18));
    merge(
        merge(merge(merge(sum, lanes[0]), lanes[1]), lanes[2]),
        lanes[3],
    )
}
