// Frozen images, read in place.
ghost use Rattle.std.specs.Prelude.{◌≡◌, ℕ, ◌<◌, ◌≤◌, ◌+◌, ◌==◌, ◌⊎◌, ◌++◌, ◌∷◌, None, Some, []};
ghost use Rattle.std.specs.Prelude.{length};
ghost use Rattle.std.specs.Prelude.{IfErr, IfOk, MatchOption, MatchResult, OnOk, option_map};
ghost use Rattle.std.specs.Result.{result_err};
ghost use Rattle.zv_ule.specs.Views.{element_of};
ghost use Rattle.zv_map.specs.Keys.{nth};
ghost use Rattle.zv_map.specs.Views.{list_of};
ghost use Rattle.zv_map2d.specs.Appending.{first_refusal, written};
ghost use Rattle.zv_map2d.specs.Fits.{texts_rule};
ghost use Rattle.zv_map2d.specs.Image.{by_bytes};
ghost use Rattle.zv_frozen.specs.Faults.{first_no_key, frozen_fault, keys_fault};
ghost use Rattle.zv_frozen.specs.Keys.{IsKey};
ghost use Rattle.zv_frozen.specs.Tables.{AreSizedTriples, IsReadAs, IsSound, split, thawed};
ghost use Rattle.zv_frozen.specs.Tables.{triples_of, value_of};
ghost use Rattle.zv_frozen.specs.declared.error.FrozenError.{FrozenError};

use crate::build::Table;
use crate::error::FrozenError;
use crate::key::{PairKey, texts_of};
use std::alloc::Global;
use std::marker::Model;
use std::sync::ledger::Ledger;
use zv_fixed::ZeroSliceULE;
use zv_framed::Framed;
use zv_map::{FlexULE, KvSlice};
use zv_map2d::{ImageMap, Map2dError};
use zv_ule::{NoMemory, SliceULE, Steps, VarRef};

/// A frozen image: a hash table of which each key is that of two texts and lies in the slot that it
/// leads to. It borrows the bytes that it was parsed from.
#[derive(Drop)]
pub struct Frozen<'a> {
    table: Table<'a>,
}

impl<'a> Model for Frozen<'a> {
    ghost use Rattle.zv_hashmap.specs.Table.{Table};
    ghost use Rattle.zv_frozen.specs.Tables.{IsSound};

    ghost Value = { Table };

    ghost view = { λ f. f.table };

    ghost invariant = { λ f. IsSound f.table };
}

// The place of the first key that is not that of two texts.
fn first_no_key(keys: KvSlice<'_, ZeroSliceULE<u8>>) -> Option<usize>
    ensures first { result ≡ first_no_key 0 (list_of keys.entry) }
    ensures keys { result ≡ None → (s : ℕ) → s < length (list_of keys.entry) →
        IsKey (nth (list_of keys.entry) s) }
{
    for place in 0..keys.len() {
        let Some(_) = texts_of(keys.at(place).as_bytes()) else {
            return Some(place);
        };
    }
    None
}

// Whether each key is that of two texts, and lies in the slot that it leads to.
fn check_keys(table: &Table<'_>) -> Result<(), FrozenError>
    ensures error { result_err result ≡ keys_fault table.now.displacements table.now.keys }
    ensures sound { OnOk result (IsSound table.now) }
{
    match first_no_key(table.keys()) {
        Some(place) => Err(FrozenError::Key { place }),
        None => {
            if table.verify() {
                Ok(())
            } else {
                Err(FrozenError::Lies)
            }
        }
    }
}

/// Two texts and their value.
type Triple<'f> = (&'f str, &'f str, VarRef<'f, FlexULE<SliceULE<u8>>>);

// Adds the texts of a key, and its value.
#[tactic(auto, using(crate::proofs::Keys::passes))]
fn add_triple<'f>(
    triples: &mut Vec<Triple<'f>>,
    key: VarRef<'f, ZeroSliceULE<u8>>,
    value: VarRef<'f, SliceULE<u8>>,
) -> Result<(), NoMemory>
    requires { IsKey (element_of key) }
    ensures triple { OnOk result (written (λ s. s.now) (λ s. s.now) element_of triples.new.items
        ≡ written (λ s. s.now) (λ s. s.now) element_of triples.old.items
        ++ split ((element_of key.entry, element_of value.entry) ∷ [])) }
    ensures sized { AreSizedTriples (written (λ s. s.now) (λ s. s.now) element_of triples.old.items)
        → AreSizedTriples (written (λ s. s.now) (λ s. s.now) element_of triples.new.items) }
{
    let Some((key0, key1)) = texts_of(key.as_bytes()) else {
        unreachable!()
    };
    let _lens = (key0.len(), key1.len(), value.as_bytes().len());
    match triples.push((key0, key1, FlexULE::of_plain(value))) {
        Ok(()) => Ok(()),
        Err(_) => Err(NoMemory),
    }
}

impl<'a> Frozen<'a> {
    /// The frozen image that bytes are, which it borrows.
    ///
    /// # Errors
    /// The first cause in the order of [`FrozenError`]'s variants.
    ///
    /// # Cost
    /// Each key is checked and hashed once. It takes no memory.
    pub fn parse(bytes: &'a [u8]) -> Result<Frozen<'a>, FrozenError>
        ensures error { result_err result ≡ frozen_fault bytes.now }
        ensures table { IfOk result (IsReadAs bytes.now) }
    {
        let table = Table::parse_framed(bytes)?;
        check_keys(&table)?;
        Ok(Frozen { table })
    }

    /// How many pairs there are. It reads a count.
    #[inline]
    pub fn len(&self) -> usize
        ensures { result ≡ length self.now.keys }
    {
        self.table.len()
    }

    /// Whether there is no pair.
    #[inline]
    pub fn is_empty(&self) -> bool
        ensures { result ≡ (length self.now.keys == 0) }
    {
        self.table.is_empty()
    }

    /// The value of a pair of texts, if it has one. Their key is compared with one stored key at
    /// most, and each comparison is a step. It takes no memory.
    #[inline]
    pub fn get_counted<L: Ledger>(
        &self,
        key0: &str,
        key1: &str,
        steps: &mut Steps<L>,
    ) -> Option<VarRef<'_, SliceULE<u8>>>
        ensures value { option_map element_of result ≡ value_of self.now key0.now key1.now }
        ensures one { steps.new ≤ steps.old + 1 }
        ensures counted { steps.old ≤ steps.new }
    {
        let key = PairKey::of_texts(key0, key1)?;
        self.table.get_counted(&key, steps)
    }

    /// The value of a pair of texts, if it has one. It takes no memory.
    #[inline]
    pub fn get(&self, key0: &str, key1: &str) -> Option<VarRef<'_, SliceULE<u8>>>
        ensures { option_map element_of result ≡ value_of self.now key0.now key1.now }
    {
        let key = PairKey::of_texts(key0, key1)?;
        self.table.get(&key)
    }

    // The texts of each key with its value, slot by slot.
    fn triples(&self, alloc: Global) -> Result<Vec<Triple<'_>>, NoMemory>
        ensures triples { IfOk result (λ v. written (λ s. s.now) (λ s. s.now) element_of v.items
            ≡ triples_of self.now) }
        ensures sized { IfOk result (λ v.
            AreSizedTriples (written (λ s. s.now) (λ s. s.now) element_of v.items)) }
    {
        let mut triples = Vec::with_capacity(alloc, self.len())?;
        for (key, value) in self.table.iter() {
            add_triple(&mut triples, key, value)?;
        }
        Ok(triples)
    }

    /// The map of the pairs, which are put into the empty one slot by slot.
    ///
    /// # Errors
    /// That of the first pair, slot by slot, that is refused: `TooLarge` where it doesn't fit,
    /// `TooMany` where 2^32 - 1 pairs are there; or `Memory`.
    ///
    /// # Cost
    /// A search for each pair, and a move of what stands behind it.
    pub fn thaw(&self, alloc: Global) -> Result<ImageMap<'static>, Map2dError>
        ensures rows { IfOk result (λ m. m.rows ≡ thawed self.now) }
        ensures accepted { OnOk result
            (first_refusal texts_rule by_bytes by_bytes [] (triples_of self.now) ≡ None) }
        ensures refused { IfErr result (λ e. (e ≡ Map2dError.Memory)
            ⊎ (first_refusal texts_rule by_bytes by_bytes [] (triples_of self.now) ≡ Some e)) }
    {
        let triples = self.triples(alloc)?;
        ImageMap::try_from_triples(alloc, &triples)
    }
}
