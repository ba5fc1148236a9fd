// Where a pair of keys stands.
ghost use Rattle.std.specs.Prelude.{◌≡◌};
ghost use Rattle.zv_map2d.specs.Places.{is_pair};

/// Where a pair of keys stands in a map, or where it would. A change of the map may make it another
/// place.
#[derive(Clone, Copy, Debug, PartialEq, Eq)]
pub enum Place {
    /// The pair is there: its row, and its place in the row.
    Pair { row: usize, pair: usize },
    /// The first key has a row, in which the pair would stand before this one.
    InRow { row: usize, pair: usize },
    /// The first key has no row. It would stand before this one.
    NewRow { row: usize },
}

impl Place {
    /// Whether the pair is there.
    #[inline]
    pub fn is_pair(self) -> bool
        ensures { result ≡ is_pair self }
    {
        matches!(self, Place::Pair { row: _, pair: _ })
    }
}
