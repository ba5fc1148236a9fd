// Room for puts.
ghost use Rattle.std.specs.Prelude.{◌≡◌, ◌^◌, ◌≤◌, length, OnOk};
ghost use Rattle.zv_map2d.specs.Rows.{seconds};
ghost use Rattle.zv_image.specs.Room.{HasRoomOf};
ghost use Rattle.zv_input.specs.Sizes.{total_of};

use std::alloc::Global;
use zv_input::{MAX_COMMANDS, PutSizes};
use zv_map2d::{ImageMap, Map2dError};
use zv_ule::NoMemory;

/// Makes the vectors of an image's map the map's own, with room for puts of these sizes, so that
/// no command takes memory.
pub fn reserve(alloc: Global, map: &mut ImageMap<'_>, sizes: PutSizes) -> Result<(), NoMemory>
    requires pairs { length (seconds map.old.rows) ≤ 2 ^ 30 }
    requires within { total_of sizes ≤ MAX_COMMANDS }
    ensures rows { map.new.rows ≡ map.old.rows }
    ensures room { OnOk result (HasRoomOf sizes map.new) }
{
    match map.reserve_for(alloc, sizes.keys0, sizes.keys1, sizes.values, sizes.puts) {
        Ok(()) => Ok(()),
        Err(Map2dError::Memory) => Err(NoMemory),
        Err(Map2dError::TooLarge) | Err(Map2dError::TooMany) => unreachable!(),
    }
}
