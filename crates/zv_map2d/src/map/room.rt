// Room for changes that take no memory.
ghost use Rattle.std.specs.Prelude.{◌≡◌, ◌+◌, ◌*◌, ◌↔◌, IfErr, IfOk, IfSome, IsTrue, OnOk, []};
ghost use Rattle.std.specs.Prelude.{length};
ghost use Rattle.std.specs.Prelude.{nat_lt, true};
ghost use Rattle.zv_map2d.specs.Refusals.{RefusedUnless};
ghost use Rattle.zv_map2d.specs.Room.{CanGrowBy, HasRoomFor, IsOwned, IsReady, IsSameMap};
ghost use Rattle.zv_map2d.specs.Rows.{seconds};
ghost use Rattle.zv_map2d.specs.Views.{AreSettled, KeepsRoom, no_bytes, parts_of};

use crate::error::Map2dError;
use crate::map::Map2dOver;
use std::alloc::Global;
use zv_map::MutableZeroVecLike;
use zv_ule::{NoMemory, ZvKind, ZvOrd};

/// The most pairs that a joiner can count.
const MAX_PAIRS: usize = 4_294_967_295;

/// How many bytes so many elements take, of `len` bytes in sum and `field` more each.
fn room_for(len: usize, field: usize, count: usize) -> Option<usize>
    ensures { IfSome result (λ n. n ≡ len + field * count) }
{
    len.checked_add(field.checked_mul(count)?)
}

impl<
    'a,
    K0: ZvOrd,
    K1: ZvOrd,
    V: ZvKind,
    C0: MutableZeroVecLike<'a, K0> + Drop,
    C1: MutableZeroVecLike<'a, K1> + Drop,
    D: MutableZeroVecLike<'a, V> + Drop,
> Map2dOver<'a, K0, K1, V, C0, C1, D> {
    /// The map of no pairs, with room for so many whose lengths aren't known.
    pub fn with_capacity(alloc: Global, capacity: usize) -> Result<Self, NoMemory>
        requires keys0 { IsTrue K0.usable }
        requires keys1 { IsTrue K1.usable }
        requires values { IsTrue V.usable }
        ensures rows { IfOk result (λ m. m.rows ≡ []) }
        ensures parts { IfOk result (λ m. parts_of m ≡ no_bytes) }
        ensures room { IfOk result (CanGrowBy (capacity * C0.element_room) (capacity * 4)
            (capacity * C1.element_room) (capacity * D.element_room)) }
    {
        let mut map = Self::new();
        map.reserve(alloc, capacity)?;
        Ok(map)
    }

    /// Makes every vector own its bytes, with so many to spare.
    fn reserve_bytes(
        &mut self,
        alloc: Global,
        keys0: usize,
        ends: usize,
        keys1: usize,
        values: usize,
    ) -> Result<(), NoMemory>
        ensures same { IsSameMap self.old self.new }
        ensures ok { OnOk result (CanGrowBy keys0 ends keys1 values self.new) }
    {
        self.keys0.zvl_reserve_bytes(alloc, keys0)?;
        self.joiner.reserve_bytes(alloc, ends)?;
        self.keys1.zvl_reserve_bytes(alloc, keys1)?;
        self.values.zvl_reserve_bytes(alloc, values)
    }

    /// Makes every vector own its bytes, with room for so many pairs more whose lengths aren't
    /// known: four bytes and the width of a field for an element of any length.
    pub fn reserve(&mut self, alloc: Global, additional: usize) -> Result<(), NoMemory>
        ensures same { IsSameMap self.old self.new }
        ensures room { OnOk result (CanGrowBy (additional * C0.element_room) (additional * 4)
            (additional * C1.element_room) (additional * D.element_room) self.new) }
    {
        let ends = additional.checked_mul(4).ok_or(NoMemory)?;
        self.keys0.zvl_reserve(alloc, additional)?;
        self.joiner.reserve_bytes(alloc, ends)?;
        self.keys1.zvl_reserve(alloc, additional)?;
        self.values.zvl_reserve(alloc, additional)
    }

    /// Whether every vector is ready for changes that take no memory.
    pub fn is_roomy(&self) -> bool
        ensures { IsTrue result ↔ IsReady self.now }
    {
        self.keys0.zvl_is_roomy()
            && self.joiner.is_owned()
            && self.keys1.zvl_is_roomy()
            && self.values.zvl_is_roomy()
    }

    /// Puts each list into the layout in which it is settled. It takes no memory, and costs
    /// something only where a layout changes.
    pub fn settle(&mut self)
        requires { IsReady self.old }
        ensures rows { self.new.rows ≡ self.old.rows }
        ensures layouts { AreSettled C0.settled C1.settled D.settled self.new }
        ensures room { KeepsRoom self.old self.new }
    {
        self.keys0.zvl_settle();
        self.keys1.zvl_settle();
        self.values.zvl_settle();
    }

    /// Makes every vector own its bytes, so that [`discard`](Self::discard) may be called.
    pub fn make_owned(&mut self, alloc: Global) -> Result<(), NoMemory>
        ensures same { IsSameMap self.old self.new }
        ensures owned { OnOk result (IsOwned self.new) }
    {
        self.reserve_bytes(alloc, 0, 0, 0, 0)
    }

    /// Makes room for so many puts, whose first keys, second keys and values have these lengths in
    /// sum. Each of them may then be made by [`put_reserved`](Self::put_reserved), which takes no
    /// memory.
    ///
    /// # Errors
    /// `TooMany` where the pairs and the puts together are more than 2^32 - 1; else `Memory`, and
    /// never `TooLarge`. The map is the same, though its vectors may have become its own.
    pub fn reserve_for(
        &mut self,
        alloc: Global,
        keys0: usize,
        keys1: usize,
        values: usize,
        puts: usize,
    ) -> Result<(), Map2dError>
        ensures same { IsSameMap self.old self.new }
        ensures ok { OnOk result
            (HasRoomFor C0.field C1.field D.field keys0 keys1 values puts self.new) }
        ensures unchanged { IfErr result (λ e. (e ≡ Map2dError.Memory → ⊥) → self.new ≡ self.old) }
        ensures refused { RefusedUnless true
            (nat_lt 4294967295 (length (seconds self.old.rows) + puts)) result }
    {
        if self.len().saturating_add(puts) > MAX_PAIRS {
            return Err(Map2dError::TooMany);
        }
        let keys0 = room_for(keys0, self.keys0.zvl_field(), puts).ok_or(NoMemory)?;
        let ends = puts.checked_mul(4).ok_or(NoMemory)?;
        let keys1 = room_for(keys1, self.keys1.zvl_field(), puts).ok_or(NoMemory)?;
        let values = room_for(values, self.values.zvl_field(), puts).ok_or(NoMemory)?;
        self.reserve_bytes(alloc, keys0, ends, keys1, values)?;
        Ok(())
    }
}
