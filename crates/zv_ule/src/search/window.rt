// The places where a search can still end.
ghost use Rattle.std.specs.Prelude.{◌≡◌, ◌+◌, ◌*◌, ◌/◌, ◌^◌, ◌<◌, ◌≤◌};
ghost use Rattle.std.specs.declared.cmp.Ordering.TheVariants.{Less, Greater};

use std::cmp::Ordering;
use std::hint::select_unpredictable;

/// The places where a search can still end, one after another.
#[derive(Clone, Copy)]
pub struct Window {
    /// The lowest place.
    pub low: usize,
    /// How many places.
    pub size: usize,
}

impl Window {
    /// All places of a list of so many elements.
    #[inline(always)]
    pub fn whole(size: usize) -> Self
        ensures low { result.low ≡ 0 }
        ensures size { result.size ≡ size }
    {
        Window { low: 0, size }
    }

    /// The place in the middle, the upper of two.
    #[inline(always)]
    pub fn middle(self) -> usize
        requires { self.low + self.size < 2 ^ 64 }
        ensures { result ≡ self.low + self.size / 2 }
    {
        self.low + self.size / 2
    }

    /// What the answer at the middle leaves: the places after it where it lies before what is
    /// sought, and those before it where it lies after. Both are worked out, since a processor
    /// could not guess which.
    #[inline(always)]
    pub fn left_by(self, answer: Ordering) -> Self
        requires fits { self.low + self.size < 2 ^ 64 }
        requires some { 0 < self.size }
        ensures after { answer ≡ Less → result.low ≡ self.low + self.size / 2 + 1 }
        ensures end { answer ≡ Less → result.low + result.size ≡ self.low + self.size }
        ensures before { answer ≡ Greater → result.size ≡ self.size / 2 }
        ensures start { answer ≡ Greater → result.low ≡ self.low }
        ensures within { result.low + result.size ≤ self.low + self.size }
        ensures half { 2 * result.size ≤ self.size }
    {
        let is_above = answer.is_lt();
        Window {
            low: select_unpredictable(is_above, self.middle() + 1, self.low),
            size: (self.size - is_above as usize) / 2,
        }
    }
}
