// A map in two levels.
ghost use Rattle.std.specs.Prelude.{◌≡◌, ◌==◌, [], length, IsTrue};
ghost use Rattle.std.specs.List.{flat_map};
ghost use Rattle.zv_fixed.specs.Views.{bytes_of as joiner_bytes, values_in};
ghost use Rattle.zv_ule.specs.Bytes.{le};
ghost use Rattle.zv_map.specs.Vectors.{vector_of};
ghost use Rattle.zv_map2d.specs.Elements.{AreElements};
ghost use Rattle.zv_map2d.specs.Rows.{IsWell, ends, firsts, seconds, values};
ghost use Rattle.zv_map2d.specs.Views.{AreInLayouts, HasNoSpare, IsBorrowed, KeepsRoom};
ghost use Rattle.zv_map2d.specs.Views.{ReadsAs, bytes_of, no_bytes, parts_of, written_of};

mod appending;
mod changes;
mod copies;
mod edits;
mod reads;
mod room;

use std::marker::{Model, PhantomData};
use zv_fixed::{ZeroSlice, ZeroVec};
use zv_map::laws::elements_are_valid;
use zv_map::{ZeroMapKV, ZvContainer};
use zv_ule::{UsableKind, ZvKind, ZvOrd};

/// The bytes of the four vectors of a map.
#[derive(Clone, Copy, Debug, PartialEq, Eq)]
pub struct Parts<'a> {
    /// The first keys.
    pub keys0: &'a [u8],
    /// Where each row ends among the second keys: numbers of four bytes, the lowest first.
    pub joiner: &'a [u8],
    /// The second keys, row after row.
    pub keys1: &'a [u8],
    /// The values, row after row.
    pub values: &'a [u8],
}

/// A map in two levels, over the containers of its first keys, its second keys and its values.
///
/// A map gives pairs of a first and a second key a value. The first keys ascend strictly, each has
/// at least one second key, and the second keys of one first key ascend strictly. The joiner has
/// for each row, which is what one first key has, the number of pairs up to its end.
pub struct Map2dOver<
    'a,
    K0: ZvOrd,
    K1: ZvOrd,
    V: ZvKind,
    C0: ZvContainer<K0>,
    C1: ZvContainer<K1>,
    D: ZvContainer<V>,
> {
    pub(crate) keys0: C0,
    pub(crate) joiner: ZeroVec<'a, u32>,
    pub(crate) keys1: C1,
    pub(crate) values: D,
    pub(crate) kinds: PhantomData<(K0, K1, V)>,
}

/// A map in two levels whose keys and values are of these kinds, each kind in its own container. It
/// borrows the bytes that it was parsed from until a change, which makes the changed vectors its
/// own.
pub type ZeroMap2d<'a, K0, K1, V> = Map2dOver<
    'a,
    K0,
    K1,
    V,
    <K0 as ZeroMapKV<'a>>::Container,
    <K1 as ZeroMapKV<'a>>::Container,
    <V as ZeroMapKV<'a>>::Container,
>;

impl<
    'a,
    K0: ZvOrd,
    K1: ZvOrd,
    V: ZvKind,
    C0: ZvContainer<K0>,
    C1: ZvContainer<K1>,
    D: ZvContainer<V>,
> Model for Map2dOver<'a, K0, K1, V, C0, C1, D> {
    ghost use Rattle.zv_map.specs.Vectors.{fixed_vector, vector_of};
    ghost use Rattle.zv_map2d.specs.Rows.{rows_of};
    ghost use Rattle.zv_map2d.specs.Views.{AreColumns, Map2d};

    ghost Value = { Map2d };

    ghost view = { λ m. record {
      rows = rows_of (C0.list m.keys0) m.joiner.values (C1.list m.keys1) (D.list m.values);
      keys0 = vector_of C0.bytes C0.layout C0.spare C0.owned C0.ready m.keys0;
      joiner = fixed_vector 4 m.joiner.bytes m.joiner.spare m.joiner.owned;
      keys1 = vector_of C1.bytes C1.layout C1.spare C1.owned C1.ready m.keys1;
      values = vector_of D.bytes D.layout D.spare D.owned D.ready m.values;
    } };

    ghost invariant = { λ m. AreColumns K0.usable K1.usable V.usable K0.cmp K1.cmp
        (C0.list m.keys0) m.joiner.values (C1.list m.keys1) (D.list m.values) };
}

impl<
    'a,
    K0: ZvOrd,
    K1: ZvOrd,
    V: ZvKind,
    C0: ZvContainer<K0> + Drop,
    C1: ZvContainer<K1> + Drop,
    D: ZvContainer<V> + Drop,
> Drop for Map2dOver<'a, K0, K1, V, C0, C1, D> {
    fn drop(self) {
        let Map2dOver {
            keys0: _,
            joiner: _,
            keys1: _,
            values: _,
            kinds: _,
        } = self;
    }
}

/// The map of no pairs, as [`Map2dOver::new`].
impl<'a, K0, K1, V, C0, C1, D> Default for Map2dOver<'a, K0, K1, V, C0, C1, D>
where
    K0: ZvOrd + UsableKind,
    K1: ZvOrd + UsableKind,
    V: ZvKind + UsableKind,
    C0: ZvContainer<K0>,
    C1: ZvContainer<K1>,
    D: ZvContainer<V>,
{
    ghost is_default = { λ m. (m.rows ≡ []) × IsBorrowed m };

    #[inline]
    fn default() -> Self {
        Map2dOver::new()
    }
}

impl<
    'a,
    K0: ZvOrd,
    K1: ZvOrd,
    V: ZvKind,
    C0: ZvContainer<K0>,
    C1: ZvContainer<K1>,
    D: ZvContainer<V>,
> Map2dOver<'a, K0, K1, V, C0, C1, D> {
    /// The map of no pairs. It takes no memory.
    pub fn new() -> Self
        requires keys0 { IsTrue K0.usable }
        requires keys1 { IsTrue K1.usable }
        requires values { IsTrue V.usable }
        ensures rows { result.rows ≡ [] }
        ensures parts { parts_of result ≡ no_bytes }
        ensures borrowed { IsBorrowed result }
        ensures spare { HasNoSpare result }
    {
        Map2dOver {
            keys0: C0::zvl_new(),
            joiner: ZeroVec::new(),
            keys1: C1::zvl_new(),
            values: D::zvl_new(),
            kinds: PhantomData,
        }
    }

    /// The bytes of the four vectors: those that were given, or as changes left them.
    pub fn parts(&self) -> Parts<'_>
        ensures bytes { bytes_of result ≡ parts_of self.now }
        ensures keys0 { ReadsAs self.now.keys0.layout K0.fault result.keys0.now
            (firsts self.now.rows) }
        ensures joiner { result.joiner.now ≡ flat_map (le 4) (ends self.now.rows) }
        ensures keys1 { ReadsAs self.now.keys1.layout K1.fault result.keys1.now
            (seconds self.now.rows) }
        ensures values { ReadsAs self.now.values.layout V.fault result.values.now
            (values self.now.rows) }
        ensures layouts { AreInLayouts C0.has_layout C1.has_layout D.has_layout self.now }
    {
        Parts {
            keys0: self.keys0.zvl_bytes(),
            joiner: self.joiner.as_slice().as_bytes(),
            keys1: self.keys1.zvl_bytes(),
            values: self.values.zvl_bytes(),
        }
    }

    /// The parts of the map's canonical image, which lie in the map's own bytes: what its lists
    /// are written as in their layouts.
    pub fn canon_parts(&self) -> Parts<'_>
        ensures written { bytes_of result ≡ written_of self.now }
        ensures layouts { AreInLayouts C0.has_layout C1.has_layout D.has_layout self.now }
    {
        Parts {
            keys0: self.keys0.zvl_spelling(),
            joiner: self.joiner.as_slice().as_bytes(),
            keys1: self.keys1.zvl_spelling(),
            values: self.values.zvl_spelling(),
        }
    }

    /// The list of the first keys.
    #[inline]
    pub fn keys0(&self) -> &C0
        ensures list { C0.list result.now ≡ firsts self.now.rows }
        ensures vector { self.now.keys0
            ≡ vector_of C0.bytes C0.layout C0.spare C0.owned C0.ready result.now }
    {
        &self.keys0
    }

    /// The list of the second keys, row after row.
    #[inline]
    pub fn keys1(&self) -> &C1
        ensures list { C1.list result.now ≡ seconds self.now.rows }
        ensures vector { self.now.keys1
            ≡ vector_of C1.bytes C1.layout C1.spare C1.owned C1.ready result.now }
    {
        &self.keys1
    }

    /// The list of the values, row after row.
    #[inline]
    pub fn values(&self) -> &D
        ensures list { D.list result.now ≡ values self.now.rows }
        ensures vector { self.now.values
            ≡ vector_of D.bytes D.layout D.spare D.owned D.ready result.now }
    {
        &self.values
    }

    /// How many first keys there are. It reads a count.
    #[inline]
    pub fn rows(&self) -> usize
        ensures { result ≡ length self.now.rows }
    {
        self.as_borrowed().rows()
    }

    /// How many pairs of keys there are. It reads a count.
    #[inline]
    pub fn len(&self) -> usize
        ensures { result ≡ length (seconds self.now.rows) }
    {
        self.as_borrowed().len()
    }

    /// Whether there is no pair.
    #[inline]
    pub fn is_empty(&self) -> bool
        ensures { result ≡ (length (seconds self.now.rows) == 0) }
    {
        self.len() == 0
    }

    /// Where each row ends among the second keys.
    #[inline]
    pub fn joiner(&self) -> ZeroSlice<'_, u32>
        ensures values { values_in result ≡ ends self.now.rows }
        ensures bytes { joiner_bytes result ≡ self.now.joiner.bytes }
    {
        self.joiner.as_slice()
    }

    /// The keys of a map are elements of their kinds, and ascend, and no row is empty. The call is
    /// for proofs: it does nothing to the map.
    #[inline]
    pub fn in_order(&self)
        ensures ascending { IsWell K0.cmp K1.cmp self.now.rows }
        ensures keys { AreElements K0.fault K1.fault self.now.rows }
    {
        elements_are_valid(self.keys0.zvl_as_borrowed());
        elements_are_valid(self.keys1.zvl_as_borrowed());
    }

    /// Takes all pairs out. It takes no memory, and keeps what memory the map has.
    pub fn clear(&mut self)
        ensures rows { self.new.rows ≡ [] }
        ensures parts { parts_of self.new ≡ no_bytes }
        ensures room { KeepsRoom self.old self.new }
    {
        self.keys0.zvl_clear();
        self.joiner.remove_all();
        self.keys1.zvl_clear();
        self.values.zvl_clear();
    }
}
