// Fields: words that are `x` and hex digits.
ghost use Rattle.std.specs.Prelude.{◌≡◌, ◌+◌, ◌*◌, ◌≤◌, length, take, drop};
ghost use Rattle.std.specs.Prelude.{IfOk, IfSome, MatchOption, Some, None};
ghost use Rattle.std.specs.Option.{option_and_then, option_copied, option_map};
ghost use Rattle.zv_input.specs.Digits.{content_of};
ghost use Rattle.zv_input.specs.Input.{field, key, words};
ghost use Rattle.zv_input.specs.Words.{after_mark, first_keys, first_of, text_size, words_after};

use crate::command::KeyText;
use crate::compact::{BYTES, TEXT, is_of_kind};
use crate::digits::{decode, decode_front, decode_to};
use crate::lines::{after_word, cut_word};
use std::alloc::Global;
use zv_ule::NoMemory;

// What follows the `x` of a field, in a text that may begin with one.
#[inline(always)]
fn digits_of(text: Option<&[u8]>) -> Option<&[u8]>
    ensures { option_copied result ≡ option_and_then after_mark (option_copied text.entry) }
{
    match text? {
        [b'x', digits @ ..] => Some(digits),
        _ => None,
    }
}

/// The bytes of a field, or `None` where the word is no field.
pub fn read_field(alloc: Global, word: &[u8]) -> Result<Option<Vec<u8>>, NoMemory>
    ensures { IfOk result (λ f. MatchOption f (field word.now ≡ None)
        (λ bytes. field word.now ≡ Some bytes.items)) }
{
    match digits_of(Some(word)) {
        Some(digits) => decode(alloc, digits),
        None => Ok(None),
    }
}

/// The text of a key, or `None` where the word is no key. A short key takes no memory.
pub fn read_key(alloc: Global, word: &[u8]) -> Result<Option<KeyText>, NoMemory>
    ensures { IfOk result (λ k. k ≡ key word.now) }
{
    match digits_of(Some(word)) {
        Some(digits) => KeyText::from_hex(alloc, digits),
        None => Ok(None),
    }
}

// Writes the bytes of a kind that the hex digits of a text's first word stand for, and gives how
// many they are and what follows that word's space; `None` where they stand for none.
#[inline(never)]
fn decode_word<'t>(kind: u8, text: &'t [u8], place: &mut [u8]) -> Option<(usize, Option<&'t [u8]>)>
    requires room { length text.now ≤ 2 * length place.old + 1 }
    ensures content { option_map (λ p. (take p.0 place.new, words_after (option_copied p.1))) result
        ≡ first_of (content_of kind) (words text.now) }
    ensures within { IfSome result (λ p. p.0 ≤ length place.new) }
    ensures size { IfSome result (λ p.
        2 * p.0 + text_size (option_copied p.1) ≤ length text.now) }
{
    let (digits, rest) = cut_word(text);
    let len = digits.len() / 2;
    let bytes = &mut place[..len];
    if !decode_to(digits, bytes) || !is_of_kind(kind, bytes) {
        return None;
    }
    Some((len, rest))
}

// The same, where the digits of most words are read once. (The other words go apart, which leaves
// the way of these free.)
#[tactic(auto, using(crate::proofs::Decoding::lacks_space))]
#[inline(always)]
fn decode_first<'t>(kind: u8, text: &'t [u8], place: &mut [u8]) -> Option<(usize, Option<&'t [u8]>)>
    requires room { length text.now ≤ 2 * length place.old + 1 }
    ensures content { option_map (λ p. (take p.0 place.new, words_after (option_copied p.1))) result
        ≡ first_of (content_of kind) (words text.now) }
    ensures within { IfSome result (λ p. p.0 ≤ length place.new) }
    ensures size { IfSome result (λ p.
        2 * p.0 + text_size (option_copied p.1) ≤ length text.now) }
{
    let len = decode_front(text, place);
    let Some(rest) = after_word(text, 2 * len) else {
        return decode_word(kind, text, place);
    };
    if !is_of_kind(kind, &place[..len]) {
        return None;
    }
    Some((len, rest))
}

/// Writes the text of the key that the first word of a text is, and gives its length and what
/// follows that word's space; `None` where there is no text, or the word is no key.
#[tactic(auto, using(crate::proofs::Cutting::first_key))]
#[inline(always)]
pub(crate) fn decode_key<'t>(
    text: Option<&'t [u8]>,
    place: &mut [u8],
) -> Option<(usize, Option<&'t [u8]>)>
    requires room { text_size (option_copied text) ≤ 2 * length place.old + 2 }
    ensures key { option_map (λ p. (take p.0 place.new, words_after (option_copied p.1))) result
        ≡ first_of key (words_after (option_copied text.entry)) }
    ensures within { IfSome result (λ p. p.0 ≤ length place.new) }
    ensures size { IfSome result (λ p.
        2 * p.0 + text_size (option_copied p.1) ≤ text_size (option_copied text.entry)) }
{
    decode_first(TEXT, digits_of(text)?, place)
}

/// The same for the bytes of a field, which are written from a place on.
#[tactic(auto, using(crate::proofs::Cutting::first_value))]
#[inline(always)]
pub(crate) fn decode_value<'t>(
    text: Option<&'t [u8]>,
    place: &mut [u8],
    start: usize,
) -> Option<(usize, Option<&'t [u8]>)>
    requires start { start ≤ length place.old }
    requires room { 2 * start + text_size (option_copied text) ≤ 2 * length place.old + 2 }
    ensures value { option_map (λ p. (
      take p.0 (drop start place.new),
      words_after (option_copied p.1),
    )) result
        ≡ first_of field (words_after (option_copied text.entry)) }
    ensures within { IfSome result (λ p. start + p.0 ≤ length place.new) }
    ensures front { take start place.new ≡ take start place.old }
{
    let (len, rest) = decode_first(BYTES, digits_of(text)?, &mut place[start..])?;
    Some((len, rest))
}

/// Writes the texts of the keys that the first two words of a text are, one after the other, and
/// gives their lengths and what follows the second word's space; `None` where one of them is
/// missing or no key.
#[inline(always)]
pub(crate) fn decode_keys<'t>(
    text: Option<&'t [u8]>,
    place: &mut [u8],
) -> Option<(usize, usize, Option<&'t [u8]>)>
    requires room { text_size (option_copied text) ≤ 2 * length place.old + 2 }
    ensures keys { option_map (λ t. (
      take t.0 place.new,
      take t.1 (drop t.0 place.new),
      words_after (option_copied t.2),
    )) result
        ≡ first_keys (words_after (option_copied text.entry)) }
    ensures within { IfSome result (λ t. t.0 + t.1 ≤ length place.new) }
    ensures size { IfSome result (λ t. 2 * (t.0 + t.1) + text_size (option_copied t.2)
        ≤ text_size (option_copied text.entry)) }
{
    let (key0, rest) = decode_key(text, place)?;
    let (key1, rest) = decode_key(rest, &mut place[key0..])?;
    Some((key0, key1, rest))
}
