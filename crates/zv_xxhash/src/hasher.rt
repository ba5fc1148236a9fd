// The hasher.
ghost use Rattle.std.specs.Prelude.{◌≡◌, ℕ, ◌+◌, ◌≤◌, List, [], ◌++◌, length};
ghost use Rattle.zv_xxhash.specs.Digest.{all_lanes, left_over, opening, xxh64};
ghost use Rattle.zv_xxhash.specs.Rows.{NoBytes, ThirtyNineBytes, ThreeBytes, TwelveBytes};

use crate::lanes::{STRIPE, add_stripe, add_stripes, converge, start};
use crate::pending::Pending;
use crate::tail::{add_rest, finish};
use crate::words::PRIME_5;

/// A digest of bytes that come in pieces. How they are cut does not matter.
#[derive(Drop)]
pub struct XxHash64 {
    seed: u64,
    lanes: [u64; 4],
    pending: Pending,
    // How many bytes were written, modulo 2^64.
    total: u64,
    // Whether there was a whole stripe.
    is_striped: bool,
}

impl XxHash64 {
    ghost use Rattle.zv_xxhash.specs.Held.{Holds};

    /// A hasher to which nothing was written.
    #[inline(always)]
    pub fn with_seed(seed: u64) -> Self
        ensures { Holds result seed [] }
    {
        XxHash64 {
            seed,
            lanes: start(seed),
            pending: Pending::new(),
            total: 0,
            is_striped: false,
        }
    }

    /// Writes more bytes. Whole stripes are hashed where they lie; fewer than 32 bytes are kept.
    #[inline(always)]
    pub fn write(&mut self, bytes: &[u8])
        ensures { (seed : ℕ) (written : List ℕ) → Holds self.old seed written →
            Holds self.new seed (written ++ bytes.now) }
    {
        self.total = self.total.wrapping_add(bytes.len() as u64);
        if bytes.len() < STRIPE - self.pending.len() {
            self.pending.push(bytes);
            return;
        }
        take_stripes(&mut self.lanes, &mut self.pending, bytes);
        self.is_striped = true;
    }

    /// The digest of all bytes written. More may be written after it.
    #[inline(always)]
    pub fn finish(&self) -> u64
        ensures { (seed : ℕ) (written : List ℕ) → Holds self.now seed written →
            result ≡ xxh64 seed written }
    {
        let hash = self.opening().wrapping_add(self.total);
        finish(add_rest(hash, self.pending.as_slice()))
    }

    /// The hash of the whole stripes, or of the seed where there is none.
    #[inline(always)]
    fn opening(&self) -> u64
        ensures { (seed : ℕ) (written : List ℕ) → Holds self.now seed written →
            result ≡ opening seed written }
    {
        if self.is_striped {
            converge(self.lanes)
        } else {
            self.seed.wrapping_add(PRIME_5)
        }
    }
}

/// Hashes the stripes of the pending bytes and of those that follow them, and keeps what is left.
#[inline(never)]
fn take_stripes(lanes: &mut [u64; 4], pending: &mut Pending, bytes: &[u8])
    requires { STRIPE ≤ length pending.old + length bytes.now }
    ensures lanes { lanes.new ≡ all_lanes lanes.old (pending.old ++ bytes.now) }
    ensures left { pending.new ≡ left_over (pending.old ++ bytes.now) }
{
    let rest = complete_stripe(lanes, pending, bytes);
    let tail = add_stripes(lanes, rest);
    pending.replace(tail);
}

/// The stripe that begins with the pending bytes, if there are any; what follows it is handed back.
fn complete_stripe<'b>(lanes: &mut [u64; 4], pending: &Pending, bytes: &'b [u8]) -> &'b [u8]
    requires { STRIPE ≤ length pending.now + length bytes.now }
    ensures lanes { all_lanes lanes.new result.now ≡
        all_lanes lanes.old (pending.now ++ bytes.now) }
    ensures left { left_over result.now ≡ left_over (pending.now ++ bytes.now) }
{
    let used = pending.len();
    if used == 0 {
        return bytes;
    }
    let (back, rest) = bytes.split_at(STRIPE - used);
    let stripe = pending.completed(back);
    add_stripe(lanes, &stripe);
    rest
}

/// The worked values of the definition.
#[tactic(auto, unfolding(crate::specs::Digest::xxh64))]
pub fn worked_values()
    ensures no_bytes { NoBytes }
    ensures three_bytes { ThreeBytes }
    ensures twelve_bytes { TwelveBytes }
    ensures thirty_nine_bytes { ThirtyNineBytes }
{}
