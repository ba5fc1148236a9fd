// Tuples as keys: their parts in turn.
ghost use Rattle.std.specs.Prelude.{◌≡◌, ℕ, List, ◌++◌, refl};
ghost use Rattle.std.proofs.lemmas.Map.Lookups.{exact_pairs};
ghost use Rattle.zv_hashmap.specs.Hashed.{Writes, hashed_two, hashed_three, hashed_four};
ghost use Rattle.zv_hashmap.specs.Hashed.{hashed_five, hashed_six};
ghost use Rattle.zv_hashmap.specs.Laws.{alike_by, exact_three, exact_four, exact_five, exact_six};

use crate::key::{FixedKey, HashBytes};
use zv_ule::{AsULE, Tuple2ULE, Tuple3ULE, Tuple4ULE, Tuple5ULE, Tuple6ULE, ULE, load};
use zv_xxhash::XxHash64;

/// Writes the parts of a tuple to a hasher.
#[inline]
fn hash_two<A: FixedKey, B: FixedKey>(value: (A, B), hasher: &mut XxHash64)
    ensures written { Writes hasher.old hasher.new (hashed_two A.hashed_value B.hashed_value
        value) }
    ensures valid { A.AsULE.is_value value.0 × B.AsULE.is_value value.1 }
{
    value.0.hash_value(hasher);
    value.1.hash_value(hasher);
}

impl<A: FixedKey, B: FixedKey> HashBytes for (A, B) {
    ghost hashed = { λ b. hashed_two A.hashed_value B.hashed_value (⟦<(A, B) as AsULE>⟧.loaded
        (⟦<Tuple2ULE<A::ULE, B::ULE> as ULE>⟧.value b)) };

    #[inline]
    fn hash_element(element: &[u8], hasher: &mut XxHash64) {
        hash_two(load::<(A, B)>(element), hasher);
    }

    ghost alike = { alike_by (λ b. ⟦<(A, B) as AsULE>⟧.loaded
        (⟦<Tuple2ULE<A::ULE, B::ULE> as ULE>⟧.value b)) (hashed_two A.hashed_value B.hashed_value)
        (exact_pairs A.Ord.cmp B.Ord.cmp A.exact B.exact) };
}

impl<A: FixedKey, B: FixedKey> FixedKey for (A, B) {
    ghost hashed_value = { hashed_two A.hashed_value B.hashed_value };

    #[inline]
    fn hash_value(self, hasher: &mut XxHash64) {
        hash_two(self, hasher);
    }

    ghost by_value = { λ _. refl };

    ghost exact = { exact_pairs A.Ord.cmp B.Ord.cmp A.exact B.exact };
}

/// Writes the parts of a tuple to a hasher.
#[inline]
fn hash_three<A: FixedKey, B: FixedKey, C: FixedKey>(value: (A, B, C), hasher: &mut XxHash64)
    ensures written { Writes hasher.old hasher.new (hashed_three A.hashed_value B.hashed_value
        C.hashed_value value) }
    ensures valid { A.AsULE.is_value value.0 × (B.AsULE.is_value value.1 ×
        C.AsULE.is_value value.2) }
{
    value.0.hash_value(hasher);
    value.1.hash_value(hasher);
    value.2.hash_value(hasher);
}

impl<A: FixedKey, B: FixedKey, C: FixedKey> HashBytes for (A, B, C) {
    ghost hashed = { λ b. hashed_three A.hashed_value B.hashed_value C.hashed_value
        (⟦<(A, B, C) as AsULE>⟧.loaded (⟦<Tuple3ULE<A::ULE, B::ULE, C::ULE> as ULE>⟧.value b)) };

    #[inline]
    fn hash_element(element: &[u8], hasher: &mut XxHash64) {
        hash_three(load::<(A, B, C)>(element), hasher);
    }

    ghost alike = { alike_by (λ b. ⟦<(A, B, C) as AsULE>⟧.loaded
        (⟦<Tuple3ULE<A::ULE, B::ULE, C::ULE> as ULE>⟧.value b)) (hashed_three A.hashed_value
        B.hashed_value C.hashed_value) (exact_three A.Ord.cmp B.Ord.cmp C.Ord.cmp A.exact B.exact
        C.exact) };
}

impl<A: FixedKey, B: FixedKey, C: FixedKey> FixedKey for (A, B, C) {
    ghost hashed_value = { hashed_three A.hashed_value B.hashed_value C.hashed_value };

    #[inline]
    fn hash_value(self, hasher: &mut XxHash64) {
        hash_three(self, hasher);
    }

    ghost by_value = { λ _. refl };

    ghost exact = { exact_three A.Ord.cmp B.Ord.cmp C.Ord.cmp A.exact B.exact C.exact };
}

/// Writes the parts of a tuple to a hasher.
#[inline]
fn hash_four<A: FixedKey, B: FixedKey, C: FixedKey, D: FixedKey>(
    value: (A, B, C, D),
    hasher: &mut XxHash64,
)
    ensures written { Writes hasher.old hasher.new (hashed_four A.hashed_value B.hashed_value
        C.hashed_value D.hashed_value value) }
    ensures valid { A.AsULE.is_value value.0 × (B.AsULE.is_value value.1 ×
        (C.AsULE.is_value value.2 × D.AsULE.is_value value.3)) }
{
    value.0.hash_value(hasher);
    value.1.hash_value(hasher);
    value.2.hash_value(hasher);
    value.3.hash_value(hasher);
}

impl<A: FixedKey, B: FixedKey, C: FixedKey, D: FixedKey> HashBytes for (A, B, C, D) {
    ghost hashed = { λ b. hashed_four A.hashed_value B.hashed_value C.hashed_value D.hashed_value
        (⟦<(A, B, C, D) as AsULE>⟧.loaded
        (⟦<Tuple4ULE<A::ULE, B::ULE, C::ULE, D::ULE> as ULE>⟧.value b)) };

    #[inline]
    fn hash_element(element: &[u8], hasher: &mut XxHash64) {
        hash_four(load::<(A, B, C, D)>(element), hasher);
    }

    ghost alike = { alike_by (λ b. ⟦<(A, B, C, D) as AsULE>⟧.loaded
        (⟦<Tuple4ULE<A::ULE, B::ULE, C::ULE, D::ULE> as ULE>⟧.value b)) (hashed_four A.hashed_value
        B.hashed_value C.hashed_value D.hashed_value) (exact_four A.Ord.cmp B.Ord.cmp C.Ord.cmp
        D.Ord.cmp A.exact B.exact C.exact D.exact) };
}

impl<A: FixedKey, B: FixedKey, C: FixedKey, D: FixedKey> FixedKey for (A, B, C, D) {
    ghost hashed_value = { hashed_four A.hashed_value B.hashed_value C.hashed_value
        D.hashed_value };

    #[inline]
    fn hash_value(self, hasher: &mut XxHash64) {
        hash_four(self, hasher);
    }

    ghost by_value = { λ _. refl };

    ghost exact = { exact_four A.Ord.cmp B.Ord.cmp C.Ord.cmp D.Ord.cmp A.exact B.exact C.exact
        D.exact };
}

/// Writes the parts of a tuple to a hasher.
#[inline]
fn hash_five<A: FixedKey, B: FixedKey, C: FixedKey, D: FixedKey, E: FixedKey>(
    value: (A, B, C, D, E),
    hasher: &mut XxHash64,
)
    ensures written { Writes hasher.old hasher.new (hashed_five A.hashed_value B.hashed_value
        C.hashed_value D.hashed_value E.hashed_value value) }
    ensures valid { A.AsULE.is_value value.0 × (B.AsULE.is_value value.1 ×
        (C.AsULE.is_value value.2 × (D.AsULE.is_value value.3 × E.AsULE.is_value value.4))) }
{
    value.0.hash_value(hasher);
    value.1.hash_value(hasher);
    value.2.hash_value(hasher);
    value.3.hash_value(hasher);
    value.4.hash_value(hasher);
}

impl<A: FixedKey, B: FixedKey, C: FixedKey, D: FixedKey, E: FixedKey> HashBytes
    for (A, B, C, D, E) {
    ghost hashed = { λ b. hashed_five A.hashed_value B.hashed_value C.hashed_value D.hashed_value
        E.hashed_value (⟦<(A, B, C, D, E) as AsULE>⟧.loaded
        (⟦<Tuple5ULE<A::ULE, B::ULE, C::ULE, D::ULE, E::ULE> as ULE>⟧.value b)) };

    #[inline]
    fn hash_element(element: &[u8], hasher: &mut XxHash64) {
        hash_five(load::<(A, B, C, D, E)>(element), hasher);
    }

    ghost alike = { alike_by (λ b. ⟦<(A, B, C, D, E) as AsULE>⟧.loaded
        (⟦<Tuple5ULE<A::ULE, B::ULE, C::ULE, D::ULE, E::ULE> as ULE>⟧.value b)) (hashed_five
        A.hashed_value B.hashed_value C.hashed_value D.hashed_value E.hashed_value) (exact_five
        A.Ord.cmp B.Ord.cmp C.Ord.cmp D.Ord.cmp E.Ord.cmp A.exact B.exact C.exact D.exact
        E.exact) };
}

impl<A: FixedKey, B: FixedKey, C: FixedKey, D: FixedKey, E: FixedKey> FixedKey for (A, B, C, D, E) {
    ghost hashed_value = { hashed_five A.hashed_value B.hashed_value C.hashed_value D.hashed_value
        E.hashed_value };

    #[inline]
    fn hash_value(self, hasher: &mut XxHash64) {
        hash_five(self, hasher);
    }

    ghost by_value = { λ _. refl };

    ghost exact = { exact_five A.Ord.cmp B.Ord.cmp C.Ord.cmp D.Ord.cmp E.Ord.cmp A.exact B.exact
        C.exact D.exact E.exact };
}

/// Writes the parts of a tuple to a hasher.
#[inline]
fn hash_six<A: FixedKey, B: FixedKey, C: FixedKey, D: FixedKey, E: FixedKey, F: FixedKey>(
    value: (A, B, C, D, E, F),
    hasher: &mut XxHash64,
)
    ensures written { Writes hasher.old hasher.new (hashed_six A.hashed_value B.hashed_value
        C.hashed_value D.hashed_value E.hashed_value F.hashed_value value) }
    ensures valid { A.AsULE.is_value value.0 × (B.AsULE.is_value value.1 ×
        (C.AsULE.is_value value.2 × (D.AsULE.is_value value.3 × (E.AsULE.is_value value.4 ×
        F.AsULE.is_value value.5)))) }
{
    value.0.hash_value(hasher);
    value.1.hash_value(hasher);
    value.2.hash_value(hasher);
    value.3.hash_value(hasher);
    value.4.hash_value(hasher);
    value.5.hash_value(hasher);
}

impl<A: FixedKey, B: FixedKey, C: FixedKey, D: FixedKey, E: FixedKey, F: FixedKey> HashBytes
    for (A, B, C, D, E, F) {
    ghost hashed = { λ b. hashed_six A.hashed_value B.hashed_value C.hashed_value D.hashed_value
        E.hashed_value F.hashed_value (⟦<(A, B, C, D, E, F) as AsULE>⟧.loaded
        (⟦<Tuple6ULE<A::ULE, B::ULE, C::ULE, D::ULE, E::ULE, F::ULE> as ULE>⟧.value b)) };

    #[inline]
    fn hash_element(element: &[u8], hasher: &mut XxHash64) {
        hash_six(load::<(A, B, C, D, E, F)>(element), hasher);
    }

    ghost alike = { alike_by (λ b. ⟦<(A, B, C, D, E, F) as AsULE>⟧.loaded
        (⟦<Tuple6ULE<A::ULE, B::ULE, C::ULE, D::ULE, E::ULE, F::ULE> as ULE>⟧.value b)) (hashed_six
        A.hashed_value B.hashed_value C.hashed_value D.hashed_value E.hashed_value F.hashed_value)
        (exact_six A.Ord.cmp B.Ord.cmp C.Ord.cmp D.Ord.cmp E.Ord.cmp F.Ord.cmp A.exact B.exact
        C.exact D.exact E.exact F.exact) };
}

impl<A: FixedKey, B: FixedKey, C: FixedKey, D: FixedKey, E: FixedKey, F: FixedKey> FixedKey
    for (A, B, C, D, E, F) {
    ghost hashed_value = { hashed_six A.hashed_value B.hashed_value C.hashed_value D.hashed_value
        E.hashed_value F.hashed_value };

    #[inline]
    fn hash_value(self, hasher: &mut XxHash64) {
        hash_six(self, hasher);
    }

    ghost by_value = { λ _. refl };

    ghost exact = { exact_six A.Ord.cmp B.Ord.cmp C.Ord.cmp D.Ord.cmp E.Ord.cmp F.Ord.cmp A.exact
        B.exact C.exact D.exact E.exact F.exact };
}
