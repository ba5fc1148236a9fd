// Characters, stored in three bytes.
ghost use Rattle.std.specs.Prelude.{◌≡◌, ℕ, ◌<◌, ◌≤◌, None, [], ◌∷◌, length, true, refl, map};
ghost use Rattle.std.specs.Prelude.{is_none};
ghost use Rattle.std.specs.Char.{IsScalar};
ghost use Rattle.std.specs.Cmp.{on_total, nat_cmp_total};
ghost use Rattle.std.specs.Ordering.{on, nat_cmp};
ghost use Rattle.zv_ule.specs.Chars.{char_bytes, char_code, char_of, char_fault, char_spelling};
ghost use Rattle.zv_ule.specs.Chars.{char_twin};
ghost use Rattle.zv_ule.specs.Chunks.{chunks, first_fault};
ghost use Rattle.zv_ule.specs.Kinds.{one_fault};
ghost use Rattle.zv_ule.specs.declared.error.TyName.TheVariants.{Char};

use crate::element::{AsULE, ULE, check_one};
use crate::error::{TyName, UleError};
use crate::kind::{ZvKind, ZvOrd, compare_stored, compare_with};
use crate::kinds::argument::ZvOrdArg;
use crate::steps::Steps;
use std::cmp::Ordering;
use std::sync::ledger::Ledger;

/// What a character is stored as: the low three bytes of its number, the lowest first. A number is
/// a character where it is a Unicode scalar value (The Unicode Standard, D76): at most 0x10FFFF,
/// and no surrogate. Values order as the characters.
#[derive(Clone, Copy, Debug, PartialEq, Eq, PartialOrd, Ord, Hash)]
pub struct CharULE {
    value: char,
}

impl CharULE {
    /// What a character is stored as.
    #[inline]
    pub fn from_aligned(c: char) -> Self
        ensures { char_of result ≡ c }
    {
        CharULE { value: c }
    }

    /// The character.
    #[inline]
    pub fn to_char(self) -> char
        ensures { result ≡ char_of self }
    {
        self.value
    }

    /// What each character of an array is stored as.
    #[inline]
    pub fn from_array<const N: usize>(arr: [char; N]) -> [CharULE; N]
        ensures { result ≡ map (λ v. record { value = v }) arr.entry }
    {
        arr.to_unaligned()
    }
}

/// The number that three bytes spell.
#[inline]
fn code_of(bytes: &[u8]) -> u32
    requires { length bytes.now ≡ 3 }
    ensures value { result ≡ char_code bytes.now }
    ensures back { char_bytes result ≡ bytes.now }
{
    u32::from_le_bytes([bytes[0], bytes[1], bytes[2], 0])
}

/// Whether three bytes are a character's, where the last two are these. The first may be any.
#[inline]
fn ends_character(middle: u8, high: u8) -> bool
    ensures { (low : ℕ) → low < 256 → result ≡ is_none (char_fault (low ∷ middle ∷ high ∷ [])) }
{
    !((high > 0x10) | ((high == 0) & (middle >= 0xD8) & (middle < 0xE0)))
}

/// Whether the first 16 chunks are all good. It looks at the two bytes after each byte, and passes
/// over what it saw where the byte begins no chunk. So neighbouring steps read neighbouring bytes,
/// and a compiler takes 16 of them at once, which it can't do with every third byte.
#[inline]
fn is_good_block(bytes: &[u8]) -> bool
    requires { 50 ≤ length bytes.now }
    ensures { result ≡ is_none (first_fault char_fault (chunks 3 16 bytes.now)) }
{
    let mut good = true;
    for index in 0..48 {
        let ends = ends_character(bytes[index + 1], bytes[index + 2]);
        good = good & ((index % 3 != 0) | ends);
    }
    good
}

impl ULE for CharULE {
    const TY: TyName = TyName::Char;

    ghost TY = { Char };

    ghost width = { 3 };

    ghost chunk_fault = { char_fault };

    ghost is_value = { λ v. IsScalar v.value };

    ghost chunk = { λ v. char_bytes v.value };

    ghost value = { λ b. record { value = char_code b } };

    #[inline]
    fn known(self) {}

    #[inline]
    fn size() -> usize {
        3
    }

    #[inline]
    fn check_chunk(bytes: &[u8]) -> Result<(), UleError> {
        match char::from_u32(code_of(bytes)) {
            Some(_) => Ok(()),
            None => Err(UleError::parse(TyName::Char)),
        }
    }

    #[inline]
    fn is_good_chunk(bytes: &[u8]) -> bool {
        ends_character(bytes[1], bytes[2])
    }

    fn are_good_chunks(bytes: &[u8]) -> bool {
        let mut good = true;
        let mut rest = bytes;
        // A block is 48 bytes, and two more are read after the last byte.
        while rest.len() >= 50 {
            good = good & is_good_block(rest);
            let (_, others) = rest.split_at(48);
            rest = others;
        }
        for index in 0..rest.len() / 3 {
            let (chunk, after) = rest.split_at(3);
            good = good & Self::is_good_chunk(chunk);
            rest = after;
        }
        good
    }

    #[inline]
    fn read_chunk(bytes: &[u8]) -> Self {
        CharULE {
            value: unsafe { char::from_u32_unchecked(code_of(bytes)) },
        }
    }

    #[inline]
    fn write_chunk(self, out: &mut [u8]) {
        let [first, second, third, _] = (self.value as u32).to_le_bytes();
        out[0] = first;
        out[1] = second;
        out[2] = third;
    }

    ghost spelling = { char_spelling };
}

impl ZvKind for char {
    const TY: TyName = TyName::Char;

    ghost TY = { Char };

    ghost usable = { true };

    ghost fault = { one_fault Char 3 char_fault };

    #[inline]
    fn check(bytes: &[u8]) -> Result<(), UleError> {
        check_one::<CharULE>(bytes)
    }
}

impl AsULE for char {
    type ULE = CharULE;

    ghost is_value = { IsScalar };

    ghost stored = { λ v. record { value = v } };

    ghost loaded = { λ u. u.value };

    #[inline]
    fn to_unaligned(self) -> CharULE {
        CharULE::from_aligned(self)
    }

    #[inline]
    fn from_unaligned(unaligned: CharULE) -> char {
        unaligned.to_char()
    }

    ghost kind = { record { widths = refl; errors = λ _. refl } };

    ghost name = { refl };

    ghost twin = { char_twin };
}

impl ZvOrd for char {
    ghost cmp = { on char_code nat_cmp };

    #[inline]
    fn compare<L: Ledger>(a: &[u8], b: &[u8], steps: &mut Steps<L>) -> Ordering {
        compare_stored::<char, L>(a, b, steps)
    }

    ghost total = { on_total char_code nat_cmp_total };
}

impl ZvOrdArg<char> for char {
    #[inline]
    fn arg_compare<L: Ledger>(&self, element: &[u8], steps: &mut Steps<L>) -> Ordering {
        compare_with::<char, L>(element, self, steps)
    }
}
