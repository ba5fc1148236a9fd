// Commands as lines.
ghost use Rattle.std.specs.Prelude.{◌≡◌, ◌+◌, ◌*◌, ◌≤◌, ◌<◌, ◌^◌, IfSome, drop, length, take};
ghost use Rattle.std.specs.Option.{option_copied, option_map};
ghost use Rattle.zv_input.specs.Input.{words, two_keys, put, row, command_of_words};
ghost use Rattle.zv_input.specs.Shapes.{command_at, shape_size};
ghost use Rattle.zv_input.specs.Words.{text_size, words_after};

use crate::field::{decode_key, decode_keys, decode_value};
use crate::lines::cut_name;
use crate::shape::Shape;

// Writes the keys that all words of `get` and of `del` are, and gives their lengths.
#[tactic(auto, using(crate::proofs::Fields::two_by_keys, crate::proofs::Fields::not_last))]
#[inline(always)]
fn decode_pair(fields: Option<&[u8]>, place: &mut [u8]) -> Option<(u32, u32)>
    requires room { text_size (option_copied fields) ≤ 2 * length place.old + 2 }
    requires small { length place.old < 2 ^ 32 }
    ensures keys { option_map (λ k. (take k.0 place.new, take k.1 (drop k.0 place.new))) result
        ≡ two_keys (words_after (option_copied fields.entry)) }
    ensures within { IfSome result (λ k. k.0 + k.1 ≤ length place.new) }
{
    match decode_keys(fields, place)? {
        (key0, key1, None) => Some((key0 as u32, key1 as u32)),
        _ => None,
    }
}

// `put K K F`: a value for a pair.
#[tactic(auto, using(crate::proofs::Shapes::puts_by_keys))]
#[inline(always)]
fn decode_put(fields: Option<&[u8]>, place: &mut [u8]) -> Option<Shape>
    requires room { text_size (option_copied fields) ≤ 2 * length place.old + 2 }
    requires small { length place.old < 2 ^ 32 }
    ensures command { option_map (λ s. command_at s place.new) result
        ≡ put (words_after (option_copied fields.entry)) }
    ensures within { IfSome result (λ s. shape_size s ≤ length place.new) }
{
    let (key0, key1, rest) = decode_keys(fields, place)?;
    match decode_value(rest, place, key0 + key1)? {
        (value, None) => Some(Shape::Put {
            key0: key0 as u32,
            key1: key1 as u32,
            value: value as u32,
        }),
        _ => None,
    }
}

// `row K`: the pairs of a row.
#[tactic(auto, using(crate::proofs::Fields::row_by_key, crate::proofs::Fields::not_last))]
#[inline(always)]
fn decode_row(fields: Option<&[u8]>, place: &mut [u8]) -> Option<Shape>
    requires room { text_size (option_copied fields) ≤ 2 * length place.old + 2 }
    requires small { length place.old < 2 ^ 32 }
    ensures command { option_map (λ s. command_at s place.new) result
        ≡ row (words_after (option_copied fields.entry)) }
    ensures within { IfSome result (λ s. shape_size s ≤ length place.new) }
{
    match decode_key(fields, place)? {
        (key0, None) => Some(Shape::Row { key0: key0 as u32 }),
        _ => None,
    }
}

// Writes the fields of a line's command, one after another, and says how long they are; `None`
// where the line is no command.
#[inline(always)]
fn decode_command(line: &[u8], place: &mut [u8]) -> Option<Shape>
    requires room { length line.now ≤ 2 * length place.old }
    requires small { length place.old < 2 ^ 32 }
    ensures command { option_map (λ s. command_at s place.new) result
        ≡ command_of_words (words line.now) }
    ensures within { IfSome result (λ s. shape_size s ≤ length place.new) }
{
    let (name, fields) = cut_name(line);
    if name == b"get".as_slice() {
        let (key0, key1) = decode_pair(fields, place)?;
        Some(Shape::Get { key0, key1 })
    } else if name == b"put".as_slice() {
        decode_put(fields, place)
    } else if name == b"del".as_slice() {
        let (key0, key1) = decode_pair(fields, place)?;
        Some(Shape::Del { key0, key1 })
    } else if name == b"row".as_slice() {
        decode_row(fields, place)
    } else {
        None
    }
}

/// The same, where the fields are written between two places.
#[tactic(auto, using(crate::proofs::Shapes::at_front))]
#[inline(always)]
pub(crate) fn decode_between(
    line: &[u8],
    bytes: &mut [u8],
    start: usize,
    end: usize,
) -> Option<Shape>
    requires order { start ≤ end }
    requires within { end ≤ length bytes.old }
    requires room { 2 * start + length line.now ≤ 2 * end }
    requires small { end < 2 ^ 32 }
    ensures command { option_map (λ s. command_at s (drop start bytes.new)) result
        ≡ command_of_words (words line.now) }
    ensures within { IfSome result (λ s. start + shape_size s ≤ length bytes.new) }
    ensures front { take start bytes.new ≡ take start bytes.old }
    ensures len { length bytes.new ≡ length bytes.old }
{
    decode_command(line, &mut bytes[start..end])
}
