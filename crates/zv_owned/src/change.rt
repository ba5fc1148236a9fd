// A change of a list at a place.
ghost use Rattle.std.specs.Prelude.{◌≡◌};
ghost use Rattle.zv_owned.specs.Changes.{gone_of, value_of};

/// A change of a list at a place.
#[derive(Drop)]
pub enum Change<'e, A> {
    /// A value comes before the element at the place, or at the end.
    Insert(&'e A),
    /// A value takes the place of the element.
    Replace(&'e A),
    /// The element goes.
    Remove,
}

impl<'e, A> Change<'e, A> {
    /// How many elements go.
    #[inline]
    pub(crate) fn gone(&self) -> usize
        ensures { result ≡ gone_of self.now }
    {
        match self {
            Change::Insert(_) => 0,
            Change::Replace(_) | Change::Remove => 1,
        }
    }

    /// The value that comes, if one does.
    #[inline]
    pub(crate) fn value(&self) -> Option<&'e A>
        ensures { result ≡ value_of self.now }
    {
        match self {
            Change::Insert(value) | Change::Replace(value) => Some(*value),
            Change::Remove => None,
        }
    }
}
