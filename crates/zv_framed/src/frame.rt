// Parts one after another, each after its length: a `u64`, little-endian.
ghost use Rattle.std.specs.Prelude.{◌≡◌, ◌-◌, ◌^◌, [], ◌∷◌, length, map, min, Some, IfOk};
ghost use Rattle.std.specs.Option.{option_map};
ghost use Rattle.zv_framed.specs.Frames.{frame_of, parts_in};

use std::alloc::Global;
use zv_ule::NoMemory;
use zv_var::frame::{part_len, take_part};

/// How many bytes the frame of parts has, or 2^64 - 1 where it has more.
fn frame_len(parts: &[&[u8]]) -> usize
    ensures { result ≡ min (length (frame_of (map (λ p. p.now) parts.now))) (2 ^ 64 - 1) }
{
    let mut len = 0usize;
    for part in parts {
        len = len.saturating_add(8).saturating_add(part.len());
    }
    len
}

/// The frame of parts, written into one allocation of just that many bytes.
pub(crate) fn frame_parts(alloc: Global, parts: &[&[u8]]) -> Result<Vec<u8>, NoMemory>
    ensures bytes { IfOk result (λ v. v.items ≡ frame_of (map (λ p. p.now) parts.now)) }
    ensures cut { IfOk result (λ v. parts_in (length parts.now) v.items
        ≡ Some (map (λ p. p.now) parts.now)) }
{
    let mut bytes = Vec::with_capacity(alloc, frame_len(parts))?;
    for part in parts {
        bytes.extend_from_slice(&part_len(part))?;
        bytes.extend_from_slice(part)?;
    }
    Ok(bytes)
}

/// The one part of a frame.
#[inline]
pub(crate) fn cut_one(bytes: &[u8]) -> Option<&[u8]>
    ensures { option_map (λ p. p.now ∷ []) result ≡ parts_in 1 bytes.now }
{
    let (part, rest) = take_part(bytes)?;
    if rest.is_empty() { Some(part) } else { None }
}

/// The two parts of a frame.
#[inline]
pub(crate) fn cut_two(bytes: &[u8]) -> Option<(&[u8], &[u8])>
    ensures { option_map (λ p. p.0.now ∷ p.1.now ∷ []) result ≡ parts_in 2 bytes.now }
{
    let (first, rest) = take_part(bytes)?;
    Some((first, cut_one(rest)?))
}

/// The three parts of a frame.
#[inline]
pub(crate) fn cut_three(bytes: &[u8]) -> Option<(&[u8], &[u8], &[u8])>
    ensures { option_map (λ p. p.0.now ∷ p.1.now ∷ p.2.now ∷ []) result ≡ parts_in 3 bytes.now }
{
    let (first, rest) = take_part(bytes)?;
    let (second, third) = cut_two(rest)?;
    Some((first, second, third))
}

/// The four parts of a frame.
#[inline]
pub(crate) fn cut_four(bytes: &[u8]) -> Option<(&[u8], &[u8], &[u8], &[u8])>
    ensures { option_map (λ p. p.0.now ∷ p.1.now ∷ p.2.now ∷ p.3.now ∷ []) result
        ≡ parts_in 4 bytes.now }
{
    let (first, rest) = take_part(bytes)?;
    let (second, third, fourth) = cut_three(rest)?;
    Some((first, second, third, fourth))
}
