// A list that is borrowed or owns its bytes, asked by the rule of another format; and its memory.
ghost use Rattle.std.specs.Prelude.{◌≡◌, ◌+◌, ◌-◌, ◌^◌, ◌<◌, [], length, slice_index_or, IsTrue};
ghost use Rattle.zv_var.specs.Format.{enc};
ghost use Rattle.zv_owned.specs.Size.{size, takes_insert, takes_pushes, takes_replace};

use super::VarZeroVec;
use crate::size::{size_of, takes_elements, takes_insert, takes_replace};
use zv_ule::{VarZeroVecFormat, ZvKind};

impl<'a, T: ZvKind, F: VarZeroVecFormat> VarZeroVec<'a, T, F> {
    ghost use Rattle.zv_owned.specs.Vectors.{vector_bytes, vector_list, vector_owned, vector_spare};

    /// How many bytes the list can have without memory. A borrowed one has as many as it can.
    #[inline]
    pub fn capacity(&self) -> usize
        ensures { result ≡ length (vector_bytes self.now) + vector_spare self.now }
    {
        match &self.slot.owned {
            Some(owned) => owned.capacity(),
            None => self.view.as_bytes().len(),
        }
    }

    /// How many bytes the list is written as in a format. It reads the list's length and size.
    #[inline]
    pub fn size_in<G: VarZeroVecFormat>(&self) -> usize
        ensures size { result ≡ size G.W (vector_list self.now) }
        ensures small { result < 2 ^ 63 + 2 ^ 34 }
    {
        let list = self.as_slice();
        match list.len() {
            0 => 0,
            count => size_of::<T, F, G>(list, count),
        }
    }

    /// As [`takes_insert`](Self::takes_insert), by the size rule of another format.
    #[inline]
    pub fn takes_insert_in<G: VarZeroVecFormat>(&self, len: usize) -> bool
        ensures { result ≡ takes_insert G.W (vector_list self.now) len }
    {
        takes_insert::<T, F, G>(self.as_slice(), len)
    }

    /// As [`takes_replace`](Self::takes_replace), by the size rule of another format.
    #[inline]
    pub fn takes_replace_in<G: VarZeroVecFormat>(&self, index: usize, len: usize) -> bool
        requires { index < length (vector_list self.now) }
        ensures { result ≡ takes_replace G.W (vector_list self.now)
            (length (slice_index_or (vector_list self.now) index [])) len }
    {
        takes_replace::<T, F, G>(self.as_slice(), index, len)
    }

    /// As [`takes_elements`](Self::takes_elements), by the size rule of another format.
    #[inline]
    pub fn takes_elements_in<G: VarZeroVecFormat>(&self) -> bool
        ensures { result ≡ takes_pushes (takes_insert G.W) [] (vector_list self.now) }
    {
        takes_elements::<T, F, G>(self.as_slice())
    }

    /// Leaves out the bytes that follow a count of 0, so that the bytes are those that the list is
    /// written as. It takes no memory.
    #[inline]
    pub fn trim(&mut self)
        ensures list { vector_list self.new ≡ vector_list self.old }
        ensures bytes { vector_bytes self.new ≡ enc F.W (vector_list self.old) }
        ensures owned { vector_owned self.new ≡ vector_owned self.old }
        ensures memory { IsTrue (vector_owned self.old) → vector_spare self.new ≡
            length (vector_bytes self.old) + vector_spare self.old
            - length (vector_bytes self.new) }
    {
        if self.as_slice().is_empty() {
            self.clear();
        }
    }
}
