// Two ascending lists, walked side by side.
ghost use Rattle.std.specs.Prelude.{◌≡◌, ◌≤◌, ◌+◌, ◌++◌, List, [], None, ℕ, map, length};
ghost use Rattle.std.specs.Iterator.{YieldsFirstBy};
ghost use Rattle.std.specs.Option.{option_map};
ghost use Rattle.zv_ule.specs.Views.{element_of};
ghost use Rattle.zv_layers.specs.Walks.{ahead, lengths, lists_left, next_of, seen};

use std::cmp::Ordering;
use std::sync::ledger::Ledger;
use zv_map::FlexULE;
use zv_map2d::{Iter1, ZeroMap2dCursor, ZeroMap2dIter0};
use zv_ule::{SliceULE, Steps, StrULE, VarRef, ZvOrdArg};

/// A key of an image's map.
pub(crate) type Key<'m> = VarRef<'m, FlexULE<StrULE>>;

/// A value of an image's map.
pub(crate) type Value<'m> = VarRef<'m, FlexULE<SliceULE<u8>>>;

/// A row of an image's map.
pub(crate) type Row<'m, 'a> = ZeroMap2dCursor<
    'm,
    'a,
    FlexULE<StrULE>,
    FlexULE<StrULE>,
    FlexULE<SliceULE<u8>>,
>;

/// The rows of an image's map.
pub(crate) type RowsLeft<'m, 'a> = ZeroMap2dIter0<
    'm,
    'a,
    FlexULE<StrULE>,
    FlexULE<StrULE>,
    FlexULE<SliceULE<u8>>,
>;

/// The pairs of a row of an image's map.
pub(crate) type Pairs<'m> = Iter1<'m, FlexULE<StrULE>, FlexULE<SliceULE<u8>>>;

/// A list of entries, each of which has a key.
pub(crate) trait Entries: Drop {
    /// An entry.
    type Entry: Drop;

    /// What a key has.
    ghost Content: { Type 0 };

    /// An entry's key, and what that has.
    ghost pair: { Self.Entry → List ℕ × Content };

    /// What is left of the list.
    ghost left: { Self → List (List ℕ × Content) };

    /// Takes the first entry.
    fn take_first(&mut self) -> Option<Self::Entry>
        ensures { YieldsFirstBy pair left self.old result self.new };

    /// An entry's key.
    fn key(entry: &Self::Entry) -> Key<'_>
        ensures { element_of result ≡ (pair entry.now).0 };
}

impl<'m, 'a> Entries for RowsLeft<'m, 'a> {
    ghost use Rattle.zv_map2d.specs.RowIters.{rows_left};
    ghost use Rattle.zv_layers.specs.Walks.{row_entry};

    type Entry = Row<'m, 'a>;

    ghost Content = { List (List ℕ × List ℕ) };

    ghost pair = { row_entry };

    ghost left = { λ i. map row_entry (rows_left i) };

    fn take_first(&mut self) -> Option<Self::Entry> {
        self.next()
    }

    fn key(entry: &Self::Entry) -> Key<'_> {
        entry.key0()
    }
}

impl<'m> Entries for Pairs<'m> {
    ghost use Rattle.zv_map.specs.Iters.{left_of, pair_of};

    type Entry = (Key<'m>, Value<'m>);

    ghost Content = { List ℕ };

    ghost pair = { pair_of };

    ghost left = { left_of };

    fn take_first(&mut self) -> Option<Self::Entry> {
        self.next()
    }

    fn key(entry: &Self::Entry) -> Key<'_> {
        entry.0
    }
}

/// What comes next of two lists.
#[derive(Drop)]
pub(crate) enum Next<T> {
    /// What one of them alone has at its key.
    One(T),
    /// What the lower and the upper one have at the same key.
    Both(T, T),
}

/// What is left of two ascending lists, of each of which an entry may be at hand.
#[derive(Drop)]
pub(crate) struct Walk<T, I> {
    lower: Option<T>,
    base: I,
    upper: Option<T>,
    over: I,
}

// The entry at hand, or else the first of the list.
fn refill<I: Entries>(head: Option<I::Entry>, rest: &mut I) -> Option<I::Entry>
    ensures all { ahead I.pair head (I.left rest.old) ≡ ahead I.pair result (I.left rest.new) }
    ensures none { result ≡ None → I.left rest.new ≡ [] }
{
    match head {
        Some(head) => Some(head),
        None => rest.take_first(),
    }
}

impl<I: Entries> Walk<I::Entry, I> {
    /// All of two lists.
    pub fn new(base: I, over: I) -> Self
        ensures { lists_left I.pair I.left result ≡ (I.left base, I.left over) }
    {
        Walk {
            lower: None,
            base,
            upper: None,
            over,
        }
    }

    /// Takes what has the least key, of both lists where both have it. It makes a comparison where
    /// there are two.
    pub fn next<L: Ledger>(&mut self, steps: &mut Steps<L>) -> Option<Next<I::Entry>>
        ensures next { (option_map (seen I.pair) result, lists_left I.pair I.left self.new)
            ≡ next_of (lists_left I.pair I.left self.old) }
        ensures steps { steps.new + lengths (lists_left I.pair I.left self.new)
            ≤ steps.old + lengths (lists_left I.pair I.left self.old) }
        ensures counted { steps.old ≤ steps.new }
    {
        let (base, over) = match (
            refill(self.lower.take(), &mut self.base),
            refill(self.upper.take(), &mut self.over),
        ) {
            (Some(base), Some(over)) => (base, over),
            (Some(base), None) => return Some(Next::One(base)),
            (None, Some(over)) => return Some(Next::One(over)),
            (None, None) => return None,
        };
        match I::key(&base).arg_compare(I::key(&over).as_bytes(), steps) {
            Ordering::Less => {
                self.lower = Some(base);
                Some(Next::One(over))
            }
            Ordering::Equal => Some(Next::Both(base, over)),
            Ordering::Greater => {
                self.upper = Some(over);
                Some(Next::One(base))
            }
        }
    }
}
