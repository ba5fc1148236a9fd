// Numbers and characters as keys: a number as its bytes, the lowest first, in two's complement; a
// character as its number of four bytes.
ghost use Rattle.std.specs.Prelude.{◌≡◌, ℕ, List, [], ◌∷◌, refl, slice_index};
ghost use Rattle.std.specs.Int.{cast_signed, cast_unsigned, from_le_bytes, to_le_bytes};
ghost use Rattle.std.specs.Int.{w8, w16, w32, w64, w128};
ghost use Rattle.std.proofs.lemmas.Map.Lookups.{exact_signed, exact_unsigned};
ghost use Rattle.zv_ule.specs.Chars.{char_code};
ghost use Rattle.zv_hashmap.specs.Hashed.{Writes};
ghost use Rattle.zv_hashmap.specs.Laws.{alike_by};

use crate::key::{FixedKey, HashBytes, hash_chunk};
use zv_ule::load;
use zv_xxhash::XxHash64;

impl HashBytes for u8 {
    ghost hashed = { λ b. slice_index b 0 ∷ [] };

    #[inline]
    fn hash_element(element: &[u8], hasher: &mut XxHash64) {
        hash_chunk::<u8>(element, hasher);
    }

    ghost alike = { alike_by (λ b. slice_index b 0) (λ v. v ∷ []) exact_unsigned };
}

impl FixedKey for u8 {
    ghost hashed_value = { λ v. v ∷ [] };

    #[inline]
    fn hash_value(self, hasher: &mut XxHash64) {
        hasher.write(&[self]);
    }

    ghost by_value = { λ _. refl };

    ghost exact = { exact_unsigned };
}

impl HashBytes for i8 {
    ghost hashed = { λ b. cast_unsigned w8 (cast_signed w8 (slice_index b 0)) ∷ [] };

    #[inline]
    fn hash_element(element: &[u8], hasher: &mut XxHash64) {
        hash_chunk::<i8>(element, hasher);
    }

    ghost alike = { alike_by (λ b. cast_signed w8 (slice_index b 0))
        (λ v. cast_unsigned w8 v ∷ []) exact_signed };
}

impl FixedKey for i8 {
    ghost hashed_value = { λ v. cast_unsigned w8 v ∷ [] };

    #[inline]
    fn hash_value(self, hasher: &mut XxHash64) {
        hasher.write(&[self.cast_unsigned()]);
    }

    ghost by_value = { λ _. refl };

    ghost exact = { exact_signed };
}

impl HashBytes for u16 {
    ghost hashed = { λ b. to_le_bytes w16 (from_le_bytes w16 b) };

    #[inline]
    fn hash_element(element: &[u8], hasher: &mut XxHash64) {
        hash_chunk::<u16>(element, hasher);
    }

    ghost alike = { alike_by (λ b. from_le_bytes w16 b) (λ v. to_le_bytes w16 v) exact_unsigned };
}

impl FixedKey for u16 {
    ghost hashed_value = { λ v. to_le_bytes w16 v };

    #[inline]
    fn hash_value(self, hasher: &mut XxHash64) {
        hasher.write(&self.to_le_bytes());
    }

    ghost by_value = { λ _. refl };

    ghost exact = { exact_unsigned };
}

impl HashBytes for i16 {
    ghost hashed = { λ b.
        to_le_bytes w16 (cast_unsigned w16 (cast_signed w16 (from_le_bytes w16 b))) };

    #[inline]
    fn hash_element(element: &[u8], hasher: &mut XxHash64) {
        hash_chunk::<i16>(element, hasher);
    }

    ghost alike = { alike_by (λ b. cast_signed w16 (from_le_bytes w16 b))
        (λ v. to_le_bytes w16 (cast_unsigned w16 v)) exact_signed };
}

impl FixedKey for i16 {
    ghost hashed_value = { λ v. to_le_bytes w16 (cast_unsigned w16 v) };

    #[inline]
    fn hash_value(self, hasher: &mut XxHash64) {
        hasher.write(&self.cast_unsigned().to_le_bytes());
    }

    ghost by_value = { λ _. refl };

    ghost exact = { exact_signed };
}

impl HashBytes for u32 {
    ghost hashed = { λ b. to_le_bytes w32 (from_le_bytes w32 b) };

    #[inline]
    fn hash_element(element: &[u8], hasher: &mut XxHash64) {
        hash_chunk::<u32>(element, hasher);
    }

    ghost alike = { alike_by (λ b. from_le_bytes w32 b) (λ v. to_le_bytes w32 v) exact_unsigned };
}

impl FixedKey for u32 {
    ghost hashed_value = { λ v. to_le_bytes w32 v };

    #[inline]
    fn hash_value(self, hasher: &mut XxHash64) {
        hasher.write(&self.to_le_bytes());
    }

    ghost by_value = { λ _. refl };

    ghost exact = { exact_unsigned };
}

impl HashBytes for i32 {
    ghost hashed = { λ b.
        to_le_bytes w32 (cast_unsigned w32 (cast_signed w32 (from_le_bytes w32 b))) };

    #[inline]
    fn hash_element(element: &[u8], hasher: &mut XxHash64) {
        hash_chunk::<i32>(element, hasher);
    }

    ghost alike = { alike_by (λ b. cast_signed w32 (from_le_bytes w32 b))
        (λ v. to_le_bytes w32 (cast_unsigned w32 v)) exact_signed };
}

impl FixedKey for i32 {
    ghost hashed_value = { λ v. to_le_bytes w32 (cast_unsigned w32 v) };

    #[inline]
    fn hash_value(self, hasher: &mut XxHash64) {
        hasher.write(&self.cast_unsigned().to_le_bytes());
    }

    ghost by_value = { λ _. refl };

    ghost exact = { exact_signed };
}

impl HashBytes for u64 {
    ghost hashed = { λ b. to_le_bytes w64 (from_le_bytes w64 b) };

    #[inline]
    fn hash_element(element: &[u8], hasher: &mut XxHash64) {
        hash_chunk::<u64>(element, hasher);
    }

    ghost alike = { alike_by (λ b. from_le_bytes w64 b) (λ v. to_le_bytes w64 v) exact_unsigned };
}

impl FixedKey for u64 {
    ghost hashed_value = { λ v. to_le_bytes w64 v };

    #[inline]
    fn hash_value(self, hasher: &mut XxHash64) {
        hasher.write(&self.to_le_bytes());
    }

    ghost by_value = { λ _. refl };

    ghost exact = { exact_unsigned };
}

impl HashBytes for i64 {
    ghost hashed = { λ b.
        to_le_bytes w64 (cast_unsigned w64 (cast_signed w64 (from_le_bytes w64 b))) };

    #[inline]
    fn hash_element(element: &[u8], hasher: &mut XxHash64) {
        hash_chunk::<i64>(element, hasher);
    }

    ghost alike = { alike_by (λ b. cast_signed w64 (from_le_bytes w64 b))
        (λ v. to_le_bytes w64 (cast_unsigned w64 v)) exact_signed };
}

impl FixedKey for i64 {
    ghost hashed_value = { λ v. to_le_bytes w64 (cast_unsigned w64 v) };

    #[inline]
    fn hash_value(self, hasher: &mut XxHash64) {
        hasher.write(&self.cast_unsigned().to_le_bytes());
    }

    ghost by_value = { λ _. refl };

    ghost exact = { exact_signed };
}

impl HashBytes for u128 {
    ghost hashed = { λ b. to_le_bytes w128 (from_le_bytes w128 b) };

    #[inline]
    fn hash_element(element: &[u8], hasher: &mut XxHash64) {
        hash_chunk::<u128>(element, hasher);
    }

    ghost alike = { alike_by (λ b. from_le_bytes w128 b) (λ v. to_le_bytes w128 v) exact_unsigned };
}

impl FixedKey for u128 {
    ghost hashed_value = { λ v. to_le_bytes w128 v };

    #[inline]
    fn hash_value(self, hasher: &mut XxHash64) {
        hasher.write(&self.to_le_bytes());
    }

    ghost by_value = { λ _. refl };

    ghost exact = { exact_unsigned };
}

impl HashBytes for i128 {
    ghost hashed = { λ b.
        to_le_bytes w128 (cast_unsigned w128 (cast_signed w128 (from_le_bytes w128 b))) };

    #[inline]
    fn hash_element(element: &[u8], hasher: &mut XxHash64) {
        hash_chunk::<i128>(element, hasher);
    }

    ghost alike = { alike_by (λ b. cast_signed w128 (from_le_bytes w128 b))
        (λ v. to_le_bytes w128 (cast_unsigned w128 v)) exact_signed };
}

impl FixedKey for i128 {
    ghost hashed_value = { λ v. to_le_bytes w128 (cast_unsigned w128 v) };

    #[inline]
    fn hash_value(self, hasher: &mut XxHash64) {
        hasher.write(&self.cast_unsigned().to_le_bytes());
    }

    ghost by_value = { λ _. refl };

    ghost exact = { exact_signed };
}

/// Writes a character to a hasher, as its number of four bytes.
#[inline]
fn hash_char(c: char, hasher: &mut XxHash64)
    ensures { Writes hasher.old hasher.new (to_le_bytes w32 c) }
{
    hasher.write(&(c as u32).to_le_bytes());
}

impl HashBytes for char {
    ghost hashed = { λ b. to_le_bytes w32 (char_code b) };

    #[inline]
    fn hash_element(element: &[u8], hasher: &mut XxHash64) {
        hash_char(load::<char>(element), hasher);
    }

    ghost alike = { alike_by (λ b. char_code b) (λ v. to_le_bytes w32 v) exact_unsigned };
}

impl FixedKey for char {
    ghost hashed_value = { λ v. to_le_bytes w32 v };

    #[inline]
    fn hash_value(self, hasher: &mut XxHash64) {
        hash_char(self, hasher);
    }

    ghost by_value = { λ _. refl };

    ghost exact = { exact_unsigned };
}
