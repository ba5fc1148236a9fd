// Numbers of one width as values.
ghost use Rattle.std.specs.Prelude.{◌≡◌, ℕ, ◌+◌, ◌-◌, ◌^◌, ◌<◌, ◌≤◌, List, length, refl, Option};
ghost use Rattle.std.specs.Prelude.{None, MatchOption};
ghost use Rattle.zv_ule.specs.Bytes.{le, number};

use crate::element::ULE;
use crate::fixed::raw_bytes::RawBytesULE;

/// A type of fixed width whose chunks are the numbers from 0 to a largest one, the lowest byte
/// first.
pub trait IntegerULE: ULE {
    /// The largest number, all of whose bytes are 255.
    const MAX_VALUE: u32;

    ghost MAX_VALUE: { ℕ };

    /// The number of a value.
    fn iule_to_usize(self) -> usize
        ensures { result ≡ number (Self.chunk self) };

    /// The value of a number, or `None` above the largest.
    fn iule_from_usize(x: usize) -> Option<Self>
        ensures { MatchOption result (MAX_VALUE < x)
            (λ v. (x ≤ MAX_VALUE) × (Self.chunk v ≡ le Self.width x)) };

    /// Each chunk is good, as it is a number's.
    ghost each_chunk: { (bytes : List ℕ) → Self.chunk_fault bytes ≡ None };

    /// Each number that the width has room for has a value.
    ghost each_number: { MAX_VALUE + 1 ≡ 256 ^ Self.width };
}

impl IntegerULE for u8 {
    const MAX_VALUE: u32 = 0xFF;

    ghost MAX_VALUE = { 255 };

    #[inline]
    fn iule_to_usize(self) -> usize {
        usize::from(self)
    }

    #[inline]
    fn iule_from_usize(x: usize) -> Option<u8> {
        if x > 0xFF {
            return None;
        }
        Some(x as u8)
    }

    ghost each_chunk = { λ _. refl };

    ghost each_number = { refl };
}

impl IntegerULE for RawBytesULE<2> {
    const MAX_VALUE: u32 = 0xFFFF;

    ghost MAX_VALUE = { 65535 };

    #[inline]
    fn iule_to_usize(self) -> usize {
        usize::from(u16::from_le_bytes(self.0))
    }

    #[inline]
    fn iule_from_usize(x: usize) -> Option<Self> {
        if x > 0xFFFF {
            return None;
        }
        Some(RawBytesULE((x as u16).to_le_bytes()))
    }

    ghost each_chunk = { λ _. refl };

    ghost each_number = { refl };
}

impl IntegerULE for RawBytesULE<4> {
    const MAX_VALUE: u32 = 0xFFFF_FFFF;

    ghost MAX_VALUE = { 4294967295 };

    #[inline]
    fn iule_to_usize(self) -> usize {
        u32::from_le_bytes(self.0) as usize
    }

    #[inline]
    fn iule_from_usize(x: usize) -> Option<Self> {
        if x > 0xFFFF_FFFF {
            return None;
        }
        Some(RawBytesULE((x as u32).to_le_bytes()))
    }

    ghost each_chunk = { λ _. refl };

    ghost each_number = { refl };
}

/// Reads the number of a chunk, the lowest byte first.
#[inline]
pub fn read_number<U: IntegerULE>(bytes: &[u8]) -> usize
    requires narrow { U.width < 2 ^ 32 }
    requires whole { length bytes.now ≡ U.width }
    ensures value { result ≡ number bytes.now }
    ensures bound { result < 256 ^ U.width }
{
    U::read_chunk(bytes).iule_to_usize()
}

/// Writes a number over the whole of `out`, the lowest byte first.
#[inline]
pub fn write_number<U: IntegerULE>(n: usize, out: &mut [u8])
    requires narrow { U.width < 2 ^ 32 }
    requires whole { length out.old ≡ U.width }
    requires fits { n < 256 ^ U.width }
    ensures { out.new ≡ le U.width n }
{
    if let Some(value) = U::iule_from_usize(n) {
        value.write_chunk(out);
    }
}
