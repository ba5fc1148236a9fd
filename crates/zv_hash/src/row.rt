// The slots of one hash by displacements that differ in their second number.
ghost use Rattle.std.specs.Prelude.{◌≡◌, ℕ, ◌+◌, ◌≤◌, ◌%◌};
ghost use Rattle.zv_hash.specs.Splitting.{slot_of};

/// Where a hash goes by one first number of a displacement and each second number: to `base` and
/// the second number, modulo 2^32 and then modulo the count of slots.
#[derive(Clone, Copy)]
pub struct Row {
    slots: u32,
    base: u32,
    remainder: u32,
    pub ghost some: { 1 ≤ slots },
    pub ghost reduced: { remainder ≡ base % slots },
}

impl Row {
    ghost use Rattle.std.specs.Prelude.{◌^◌};
    ghost use Rattle.zv_hash.specs.Rowed.{IsRowOf, slot_on};

    /// The row of a hash with the parts `f`.
    #[tactic(auto, unfolding(crate::specs::Splitting::slot_of))]
    pub fn new(slots: u32, first: u32, f: (u32, u32)) -> Self
        requires { 1 ≤ slots }
        ensures { IsRowOf result slots first f }
    {
        let base = f.1.wrapping_mul(first).wrapping_add(f.0);
        Row {
            slots,
            base,
            remainder: base % slots,
        }
    }

    /// The slot. There is a division only where the sum is 2^32 or more.
    #[inline(always)]
    pub fn slot(self, second: u32) -> u32
        requires { second ≤ self.slots }
        ensures { result ≡ slot_on self second }
    {
        if second > u32::MAX - self.base {
            return self.base.wrapping_add(second) % self.slots;
        }
        let sum = self.remainder + second;
        if sum < self.slots {
            sum
        } else {
            sum - self.slots
        }
    }
}
