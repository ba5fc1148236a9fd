// The lists of a map, gathered at their ends and then written at once.
ghost use Rattle.std.specs.Prelude.{◌≡◌, ◌<◌, IfOk};
ghost use Rattle.std.specs.List.{All};

use crate::walk::{Key, Value};
use std::alloc::{AllocError, Global};
use std::marker::Model;
use zv_fixed::ZeroVec;
use zv_map::container_of;
use zv_map2d::{ImageMap, Map2dError};
use zv_ule::NoMemory;

// The ends of rows as the numbers of a joiner.
fn joiner_of(alloc: Global, ends: &[usize]) -> Result<ZeroVec<'static, u32>, NoMemory>
    requires { All (λ end. end < 4294967296) ends.now }
    ensures { IfOk result (λ joiner. joiner.values ≡ ends.now) }
{
    let mut joiner = ZeroVec::with_capacity(alloc, ends.len())?;
    for end in ends {
        joiner.push(alloc, *end as u32)?;
    }
    Ok(joiner)
}

/// The lists of a map that is put together, as views of their elements. An element that comes to
/// the end moves no other.
#[derive(Drop)]
pub(crate) struct Columns<'m> {
    keys0: Vec<Key<'m>>,
    ends: Vec<usize>,
    keys1: Vec<Key<'m>>,
    values: Vec<Value<'m>>,
}

impl<'m> Model for Columns<'m> {
    ghost use Rattle.std.specs.Prelude.{map};
    ghost use Rattle.zv_ule.specs.Views.{element_of};
    ghost use Rattle.zv_map2d.specs.Causes.{Lists};

    ghost Value = { Lists };

    ghost view = { λ c. record {
      keys0 = map element_of c.keys0.items;
      joiner = c.ends.items;
      keys1 = map element_of c.keys1.items;
      values = map element_of c.values.items;
    } };
}

impl<'m> Columns<'m> {
    ghost use Rattle.std.specs.Prelude.{◌∷◌, ◌≡◌, ◌⊎◌, [], IfErr, IfOk, None, OnOk, Some};
    ghost use Rattle.zv_ule.specs.Views.{element_of};
    ghost use Rattle.zv_map2d.specs.declared.error.Map2dError.{Map2dError};
    ghost use Rattle.zv_layers.specs.Columns.{AreInOrder, columns_of, rows_in};
    ghost use Rattle.zv_layers.specs.Columns.{with_end, with_pairs};
    ghost use Rattle.zv_layers.specs.Refusals.{refusal};

    /// The lists of no rows. It takes no memory yet.
    pub fn new(alloc: Global) -> Self
        ensures { result ≡ columns_of [] }
    {
        Columns {
            keys0: Vec::new(alloc),
            ends: Vec::new(alloc),
            keys1: Vec::new(alloc),
            values: Vec::new(alloc),
        }
    }

    /// Adds a pair to the row that comes next.
    pub fn add(&mut self, key1: Key<'m>, value: Value<'m>) -> Result<(), NoMemory>
        ensures { OnOk result (self.new
            ≡ with_pairs self.old ((element_of key1.entry, element_of value.entry) ∷ [])) }
    {
        self.keys1.push(key1).map_err(AllocError::from)?;
        self.values.push(value).map_err(AllocError::from)?;
        Ok(())
    }

    /// Ends the row, whose pairs are all those after the row before.
    pub fn end_row(&mut self, key0: Key<'m>) -> Result<(), NoMemory>
        ensures { OnOk result (self.new ≡ with_end self.old (element_of key0.entry)) }
    {
        self.keys0.push(key0).map_err(AllocError::from)?;
        self.ends.push(self.keys1.len()).map_err(AllocError::from)?;
        Ok(())
    }

    /// The map of the lists, each written at once.
    ///
    /// # Errors
    /// `TooLarge` where a list doesn't take its elements, which is where one of the pairs, put in
    /// order into the empty map, would be refused; or `Memory`.
    pub fn build(&self, alloc: Global) -> Result<ImageMap<'static>, Map2dError>
        requires { AreInOrder self.now }
        ensures rows { IfOk result (λ m. m.rows ≡ rows_in self.now) }
        ensures accepted { OnOk result (refusal (rows_in self.now) ≡ None) }
        ensures refused { IfErr result (λ e. (e ≡ Map2dError.Memory)
            ⊎ (refusal (rows_in self.now) ≡ Some e)) }
    {
        let keys0 = container_of(alloc, &self.keys0)?;
        let keys1 = container_of(alloc, &self.keys1)?;
        let values = container_of(alloc, &self.values)?;
        let joiner = joiner_of(alloc, &self.ends)?;
        match ImageMap::from_vecs(keys0, joiner, keys1, values) {
            Ok(map) => Ok(map),
            Err(_) => unreachable!(),
        }
    }
}
