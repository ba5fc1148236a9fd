// Lines and words.
ghost use Rattle.std.specs.Prelude.{◌≡◌, ◌+◌, ◌<◌, ◌≤◌, [], ◌∷◌, ◌++◌, length, take};
ghost use Rattle.std.specs.Prelude.{IfSome, MatchOption};
ghost use Rattle.std.specs.List.{slice_split};
ghost use Rattle.std.specs.Option.{option_copied};
ghost use Rattle.memchr.specs.Find.{is_byte};
ghost use Rattle.zv_input.specs.Input.{lines, words};
ghost use Rattle.zv_input.specs.Words.{Lacks, text_size, words_after};

use memchr::memchr;

/// What stands before the first such byte, and what follows it, if there is one.
#[inline(always)]
pub fn split_at_byte(byte: u8, text: &[u8]) -> (&[u8], Option<&[u8]>)
    ensures split { MatchOption result.1
        (slice_split (is_byte byte) text.now ≡ text.now ∷ [])
        (λ rest. slice_split (is_byte byte) text.now
        ≡ result.0.now ∷ slice_split (is_byte byte) rest.now) }
    ensures before { Lacks byte result.0.now }
    ensures cut { MatchOption result.1 (result.0.now ≡ text.now)
        (λ rest. text.now ≡ result.0.now ++ byte ∷ rest.now) }
{
    match memchr(byte, text) {
        Some(end) => (&text[..end], Some(&text[end + 1..])),
        None => (text, None),
    }
}

/// The first word, and what follows the space after it, if there is one.
pub(crate) fn cut_word(text: &[u8]) -> (&[u8], Option<&[u8]>)
    ensures words { words text.now ≡ result.0.now ∷ words_after (option_copied result.1) }
    ensures size { length result.0.now + text_size (option_copied result.1) ≡ length text.now }
{
    split_at_byte(b' ', text)
}

/// What follows the space after a first word of so many bytes, if there is one; `None` where the
/// word doesn't end there.
#[tactic(auto, using(crate::proofs::Cutting::last_word, crate::proofs::Cutting::word_and))]
#[inline(always)]
pub(crate) fn after_word(text: &[u8], len: usize) -> Option<Option<&[u8]>>
    requires within { len ≤ length text.now }
    requires word { Lacks 32 (take len text.now) }
    ensures words { IfSome result (λ rest.
        words text.now ≡ take len text.now ∷ words_after (option_copied rest)) }
    ensures size { IfSome result (λ rest.
        len + text_size (option_copied rest) ≡ length text.now) }
{
    if len == text.len() {
        return Some(None);
    }
    if text[len] == b' ' {
        Some(Some(&text[len + 1..]))
    } else {
        None
    }
}

/// As [`cut_word`], at once where the word has three bytes, as the names of commands have.
#[tactic(auto, using(crate::proofs::Cutting::lacks_three))]
#[inline(always)]
pub(crate) fn cut_name(text: &[u8]) -> (&[u8], Option<&[u8]>)
    ensures words { words text.now ≡ result.0.now ∷ words_after (option_copied result.1) }
    ensures size { length result.0.now + text_size (option_copied result.1) ≡ length text.now }
{
    if text.len() >= 3 && text[0] != b' ' && text[1] != b' ' && text[2] != b' ' {
        if let Some(rest) = after_word(text, 3) {
            return (&text[..3], rest);
        }
    }
    cut_word(text)
}
