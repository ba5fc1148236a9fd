// Hex digits, read by a table.
ghost use Rattle.std.specs.Prelude.{◌≡◌, ◌+◌, ◌*◌, ◌/◌, ◌<◌, ◌≤◌, length, take, IfOk, MatchOption};
ghost use Rattle.std.specs.Prelude.{Some, None, if◌then◌else◌, unwrap_or};
ghost use Rattle.hex.specs.Hex.{hex_digit_value};
ghost use Rattle.zv_input.specs.Digits.{bytes_of_digits};

use std::alloc::Global;
use zv_ule::NoMemory;

// The value of each byte as a digit, in either case; 16 where it is none.
static VALUES: [u8; 256] = [
    16, 16, 16, 16, 16, 16, 16, 16, 16, 16, 16, 16, 16, 16, 16, 16, 16, 16, 16, 16, 16, 16, 16, 16,
    16, 16, 16, 16, 16, 16, 16, 16, 16, 16, 16, 16, 16, 16, 16, 16, 16, 16, 16, 16, 16, 16, 16, 16,
    0, 1, 2, 3, 4, 5, 6, 7, 8, 9, 16, 16, 16, 16, 16, 16, 16, 10, 11, 12, 13, 14, 15, 16, 16, 16,
    16, 16, 16, 16, 16, 16, 16, 16, 16, 16, 16, 16, 16, 16, 16, 16, 16, 16, 16, 16, 16, 16, 16, 10,
    11, 12, 13, 14, 15, 16, 16, 16, 16, 16, 16, 16, 16, 16, 16, 16, 16, 16, 16, 16, 16, 16, 16, 16,
    16, 16, 16, 16, 16, 16, 16, 16, 16, 16, 16, 16, 16, 16, 16, 16, 16, 16, 16, 16, 16, 16, 16, 16,
    16, 16, 16, 16, 16, 16, 16, 16, 16, 16, 16, 16, 16, 16, 16, 16, 16, 16, 16, 16, 16, 16, 16, 16,
    16, 16, 16, 16, 16, 16, 16, 16, 16, 16, 16, 16, 16, 16, 16, 16, 16, 16, 16, 16, 16, 16, 16, 16,
    16, 16, 16, 16, 16, 16, 16, 16, 16, 16, 16, 16, 16, 16, 16, 16, 16, 16, 16, 16, 16, 16, 16, 16,
    16, 16, 16, 16, 16, 16, 16, 16, 16, 16, 16, 16, 16, 16, 16, 16, 16, 16, 16, 16, 16, 16, 16, 16,
    16, 16, 16, 16, 16, 16, 16, 16, 16, 16, 16, 16, 16, 16,
];

// The value of a digit, or 16.
#[inline(always)]
fn value_of(digit: u8) -> u8
    ensures { result ≡ unwrap_or (hex_digit_value digit) 16 }
{
    VALUES[digit as usize]
}

/// Writes the bytes that the hex digits at the front of a text stand for, and gives how many they
/// are: up to the first two that aren't digits, or as many as there is place for.
#[tactic(auto, using(crate::proofs::Decoding::no_digit))]
#[inline(always)]
pub(crate) fn decode_front(text: &[u8], place: &mut [u8]) -> usize
    ensures room { result ≤ length place.new }
    ensures within { 2 * result ≤ length text.now }
    ensures digits { bytes_of_digits (take (2 * result) text.now) ≡ Some (take result place.new) }
    ensures stop { result < length place.new → 2 * result + 1 < length text.now
        → bytes_of_digits text.now ≡ None }
{
    let pairs = (text.len() / 2).min(place.len());
    'pairs: for i in 0..pairs {
        let high = value_of(text[2 * i]);
        let low = value_of(text[2 * i + 1]);
        if high > 15 || low > 15 {
            return i;
        }
        place[i] = high * 16 + low;
    }
    pairs
}

/// Writes the bytes that hex digits stand for, and says whether they stand for any.
pub(crate) fn decode_to(digits: &[u8], bytes: &mut [u8]) -> bool
    requires { length bytes.old ≡ length digits.now / 2 }
    ensures { bytes_of_digits digits.now ≡ (if result then Some bytes.new else None) }
{
    digits.len() % 2 == 0 && decode_front(digits, bytes) == bytes.len()
}

/// The bytes that hex digits stand for, or `None` where they stand for none.
pub(crate) fn decode(alloc: Global, digits: &[u8]) -> Result<Option<Vec<u8>>, NoMemory>
    ensures { IfOk result (λ o. MatchOption o (bytes_of_digits digits.now ≡ None)
        (λ bytes. bytes_of_digits digits.now ≡ Some bytes.items)) }
{
    let mut bytes = vec![in alloc; 0u8; digits.len() / 2]?;
    if decode_to(digits, bytes.as_mut_slice()) {
        Ok(Some(bytes))
    } else {
        Ok(None)
    }
}
