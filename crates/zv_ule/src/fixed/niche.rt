// Options of values of fixed width, with no tag.
ghost use Rattle.std.specs.Prelude.{◌≡◌, ℕ, ◌+◌, ◌%◌, ◌/◌, ◌^◌, ◌<◌, List, [], ◌∷◌, length, refl};
ghost use Rattle.std.specs.Prelude.{Option, None, Some, IfSome, bytes_eq, option_map};
ghost use Rattle.std.specs.Prelude.{option_copied};
ghost use Rattle.std.specs.Cmp.{on_total};
ghost use Rattle.std.specs.Cmp.Lexicographic.{options_total};
ghost use Rattle.std.specs.Option.{option_cmp};
ghost use Rattle.std.specs.Ordering.{on};
ghost use Rattle.zv_ule.specs.Fixed.{is_width};
ghost use Rattle.zv_ule.specs.Kinds.{one_fault};
ghost use Rattle.zv_ule.specs.Niches.{IsNiche, niched_option_of, niche_fault, niche_chunk};
ghost use Rattle.zv_ule.specs.Niches.{niche_value, read_niche};
ghost use Rattle.zv_ule.specs.laws.NicheSpellings.{niche_spelling, zero_is_niche};
ghost use Rattle.zv_ule.specs.laws.OptionSpellings.{option_twin};
ghost use Rattle.zv_ule.specs.laws.Spellings.{held_spelling, held_twins};
ghost use Rattle.zv_ule.specs.declared.error.TyName.TheVariants.{NichedOpt};

use crate::element::{AsULE, ULE};
use crate::error::{TyName, UleError};
use crate::kind::{ZvKind, ZvOrd};
use crate::kinds::argument::ZvOrdArg;
use crate::steps::Steps;
use std::cmp::Ordering;
use std::iter::Once;
use std::num::NonZeroU8;
use std::sync::ledger::Ledger;

/// A type of `N` bytes that leaves a chunk free, which can stand for the absence of a value.
pub trait NicheBytes<const N: usize>: ULE {
    /// The bytes that no value is stored as.
    const NICHE_BIT_PATTERN: [u8; N];

    ghost NICHE_BIT_PATTERN: { List ℕ };

    /// The pattern has the type's width and is no value's.
    ghost free: { IsNiche N Self.width Self.chunk_fault NICHE_BIT_PATTERN };
}

impl NicheBytes<1> for NonZeroU8 {
    const NICHE_BIT_PATTERN: [u8; 1] = [0];

    ghost NICHE_BIT_PATTERN = { 0 ∷ [] };

    ghost free = { zero_is_niche };
}

/// A stored value, or the pattern that no value has. It takes as many bytes as a value, and the
/// error of any other bytes is the value's.
#[derive(Clone, Copy, Debug, PartialEq, Eq)]
pub struct NichedOptionULE<U, const N: usize> {
    value: Option<U>,
}

impl<U: NicheBytes<N>, const N: usize> NichedOptionULE<U, N> {
    /// What the option is stored as.
    #[inline]
    pub fn new(opt: Option<U>) -> Self
        ensures { niched_option_of result ≡ opt }
    {
        NichedOptionULE { value: opt }
    }

    /// The option.
    #[inline]
    pub fn get(self) -> Option<U>
        ensures { result ≡ niched_option_of self }
    {
        self.value
    }

    /// The option, its value where it is.
    #[inline]
    pub fn as_ref(&self) -> Option<&U>
        ensures { option_copied result ≡ niched_option_of self.now }
    {
        self.value.as_ref()
    }
}

/// A value or none, stored with no tag: the absence of a value as the pattern that no value has.
#[derive(Clone, Copy, Debug, PartialEq, Eq, PartialOrd, Ord, Hash)]
pub struct NichedOption<U, const N: usize>(pub Option<U>);

/// None.
impl<U, const N: usize> Default for NichedOption<U, N> {
    ghost is_default = { λ v. v.0 ≡ None };

    #[inline]
    fn default() -> Self {
        NichedOption(None)
    }
}

/// Gives the value, or nothing.
impl<U: Drop, const N: usize> IntoIterator for NichedOption<U, N> {
    type Item = U;

    type IntoIter = Once<U>;

    ghost into_iter_gives = { λ s r. ⟦<Option<U> as IntoIterator>⟧.into_iter_gives s.0 r };

    #[inline]
    fn into_iter(self) -> Once<U> {
        self.0.into_iter()
    }
}

/// Whether two byte strings are one.
#[inline]
fn same_bytes(a: &[u8], b: &[u8]) -> bool
    ensures { result ≡ bytes_eq a.now b.now }
{
    a == b
}

impl<U: NicheBytes<N>, const N: usize> ULE for NichedOptionULE<U, N> {
    const TY: TyName = TyName::NichedOpt;

    ghost TY = { NichedOpt };

    ghost width = { U.width };

    ghost chunk_fault = { niche_fault U.NICHE_BIT_PATTERN U.chunk_fault };

    ghost is_value = { λ v. IfSome v.value U.is_value };

    ghost chunk = { λ v. niche_chunk U.NICHE_BIT_PATTERN U.chunk v.value };

    ghost value = { λ b. record { value = niche_value U.NICHE_BIT_PATTERN U.value b } };

    #[inline]
    fn known(self) {
        if let Some(value) = self.value {
            value.known();
        }
    }

    #[inline]
    fn size() -> usize {
        U::size()
    }

    #[inline]
    fn check_chunk(bytes: &[u8]) -> Result<(), UleError> {
        if same_bytes(bytes, &U::NICHE_BIT_PATTERN) {
            Ok(())
        } else {
            U::check_chunk(bytes)
        }
    }

    #[inline]
    fn is_plain() -> bool {
        false
    }

    #[inline]
    fn is_good_chunk(bytes: &[u8]) -> bool {
        same_bytes(bytes, &U::NICHE_BIT_PATTERN) | U::is_good_chunk(bytes)
    }

    fn are_good_chunks(bytes: &[u8]) -> bool {
        let width = U::size();
        let mut good = true;
        let mut rest = bytes;
        for index in 0..bytes.len() / width {
            let (chunk, after) = rest.split_at(width);
            good = good & Self::is_good_chunk(chunk);
            rest = after;
        }
        good
    }

    fn check_chunks(bytes: &[u8]) -> Result<(), UleError> {
        let width = U::size();
        let mut rest = bytes;
        while !rest.is_empty() {
            let (chunk, tail) = rest.split_at(width);
            Self::check_chunk(chunk)?;
            rest = tail;
        }
        Ok(())
    }

    #[tactic(auto, using(crate::proofs::ChunkFaults::whole_lists))]
    fn validate_bytes(bytes: &[u8]) -> Result<(), UleError> {
        if bytes.len() % U::size() != 0 {
            return Err(UleError::length(TyName::NichedOpt, bytes.len()));
        }
        if Self::are_good_chunks(bytes) {
            return Ok(());
        }
        Self::check_chunks(bytes)
    }

    #[inline]
    fn read_chunk(bytes: &[u8]) -> Self {
        let value = if same_bytes(bytes, &U::NICHE_BIT_PATTERN) {
            None
        } else {
            Some(U::read_chunk(bytes))
        };
        NichedOptionULE { value }
    }

    #[inline]
    fn write_chunk(self, out: &mut [u8]) {
        match self.value {
            None => out.copy_from_slice(&U::NICHE_BIT_PATTERN),
            Some(value) => value.write_chunk(out),
        }
    }

    ghost spelling = { held_spelling (niche_spelling U.free U.spelling) (λ v. v.value)
        (λ o. record { value = o }) (λ _. refl) (λ _. refl) };
}

impl<U: AsULE, const N: usize> ZvKind for NichedOption<U, N>
where
    U::ULE: NicheBytes<N>,
{
    const TY: TyName = TyName::NichedOpt;

    ghost TY = { NichedOpt };

    ghost usable = { is_width U.ULE.width };

    ghost fault = { one_fault NichedOpt U.ULE.width
        (niche_fault U.ULE.NICHE_BIT_PATTERN U.ULE.chunk_fault) };

    #[inline]
    fn check(bytes: &[u8]) -> Result<(), UleError> {
        if bytes.len() == <U::ULE as ULE>::size() {
            NichedOptionULE::<U::ULE, N>::check_chunk(bytes)
        } else {
            Err(UleError::length(TyName::NichedOpt, bytes.len()))
        }
    }

    #[inline]
    fn is_sound_everywhere(_bytes: &[u8]) -> bool {
        false
    }

    #[inline]
    fn is_sound_between_boundaries(_bytes: &[u8]) -> bool {
        false
    }

    #[inline]
    fn is_boundary(_bytes: &[u8], _at: usize) -> bool {
        false
    }
}

impl<U: AsULE, const N: usize> AsULE for NichedOption<U, N>
where
    U::ULE: NicheBytes<N>,
{
    type ULE = NichedOptionULE<U::ULE, N>;

    ghost is_value = { λ v. IfSome v.0 U.is_value };

    ghost stored = { λ v. record { value = option_map U.stored v.0 } };

    ghost loaded = { λ u. record { 0 = option_map U.loaded u.value } };

    #[inline]
    fn to_unaligned(self) -> NichedOptionULE<U::ULE, N> {
        match self.0 {
            None => NichedOptionULE { value: None },
            Some(value) => NichedOptionULE {
                value: Some(value.to_unaligned()),
            },
        }
    }

    #[inline]
    fn from_unaligned(unaligned: NichedOptionULE<U::ULE, N>) -> Self {
        match unaligned.value {
            None => NichedOption(None),
            Some(value) => NichedOption(Some(U::from_unaligned(value))),
        }
    }

    ghost kind = { record { widths = refl; errors = λ _. refl } };

    ghost name = { refl };

    ghost twin = { held_twins (option_twin U.twin) (λ v. v.0) (λ o. record { 0 = o }) (λ _. refl)
        (λ _. refl) (λ u. u.value) (λ o. record { value = o }) (λ _. refl) (λ _. refl) };
}

/// The option that bytes are read as.
#[inline]
fn read_option<U: AsULE, const N: usize>(bytes: &[u8]) -> Option<U>
where
    U::ULE: NicheBytes<N>,
    requires narrow { U.ULE.width < 2 ^ 32 }
    requires whole { length bytes.now ≡ U.ULE.width }
    requires good { niche_fault U.ULE.NICHE_BIT_PATTERN U.ULE.chunk_fault bytes.now ≡ None }
    ensures { result ≡ read_niche U.ULE.NICHE_BIT_PATTERN U.loaded U.ULE.value bytes.now }
{
    if same_bytes(bytes, &U::ULE::NICHE_BIT_PATTERN) {
        None
    } else {
        Some(U::from_unaligned(<U::ULE as ULE>::read_chunk(bytes)))
    }
}

/// What an option is stored as is read as the option. It only tells a proof so.
#[inline]
fn read_back<U: AsULE, const N: usize>(option: &Option<U>)
where
    U::ULE: NicheBytes<N>,
    ensures { read_niche U.ULE.NICHE_BIT_PATTERN U.loaded U.ULE.value
        (niche_chunk U.ULE.NICHE_BIT_PATTERN U.ULE.chunk (option_map U.stored option.now)) ≡
        option.now }
{
    if let Some(value) = option {
        let _ = value.to_unaligned();
    }
}

impl<U: AsULE + Ord, const N: usize> ZvOrd for NichedOption<U, N>
where
    U::ULE: NicheBytes<N>,
{
    ghost cmp = { on (read_niche U.ULE.NICHE_BIT_PATTERN U.loaded U.ULE.value) (option_cmp U.cmp) };

    #[inline]
    fn compare<L: Ledger>(a: &[u8], b: &[u8], steps: &mut Steps<L>) -> Ordering {
        steps.tick();
        read_option::<U, N>(a).cmp(&read_option::<U, N>(b))
    }

    ghost total = { on_total (read_niche U.ULE.NICHE_BIT_PATTERN U.loaded U.ULE.value)
        (options_total U.total) };
}

impl<U: AsULE + Ord, const N: usize> ZvOrdArg<NichedOption<U, N>> for NichedOption<U, N>
where
    U::ULE: NicheBytes<N>,
{
    #[inline]
    fn arg_compare<L: Ledger>(&self, element: &[u8], steps: &mut Steps<L>) -> Ordering {
        steps.tick();
        read_back::<U, N>(&self.0);
        read_option::<U, N>(element).cmp(&self.0)
    }
}
