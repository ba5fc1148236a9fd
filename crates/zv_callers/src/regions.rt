// A table from a language and a script to a region.
ghost use Rattle.std.specs.Prelude.{◌≡◌, Some, IfOk, OnErr, OnOk, is_none, option_map};
ghost use Rattle.zv_ule.specs.Views.{element_of};
ghost use Rattle.zv_map2d.specs.Image.{by_bytes};
ghost use Rattle.zv_map2d.specs.Rows.{del, find, put};
ghost use Rattle.zv_map2d.specs.Rows.{IsWell};

use std::alloc::Global;
use zv_map2d::{Map2dError, ZeroMap2d};
use zv_ule::{NoMemory, StrULE, VarRef};

/// A table from a language and a script to a region.
pub type Regions<'a> = ZeroMap2d<'a, StrULE, StrULE, StrULE>;

/// The region of a language in a script.
pub fn region<'t>(
    table: &'t Regions<'_>,
    language: &str,
    script: &str,
) -> Option<VarRef<'t, StrULE>>
    ensures { option_map element_of result ≡
        find by_bytes by_bytes table.now.rows language.now script.now }
{
    table.get_2d(&language, &script)
}

/// Gives a language in a script a region, and says whether it had none.
pub fn set_region(
    table: &mut Regions<'_>,
    alloc: Global,
    language: &str,
    script: &str,
    region: &str,
) -> Result<bool, Map2dError>
    ensures rows { OnOk result (table.new.rows ≡
        put by_bytes by_bytes table.old.rows language.now script.now region.now) }
    ensures found { OnOk result
        (find by_bytes by_bytes table.new.rows language.now script.now ≡ Some region.now) }
    ensures had_none { IfOk result (λ had_none. had_none ≡
        is_none (find by_bytes by_bytes table.old.rows language.now script.now)) }
    ensures err { OnErr result (table.new.rows ≡ table.old.rows) }
{
    let old = table.insert(alloc, &language, &script, &region)?;
    Ok(old.is_none())
}

/// A table's languages and scripts ascend, and each language has a script. The call is for proofs:
/// it does nothing.
fn in_order(table: &Regions<'_>)
    ensures { IsWell by_bytes by_bytes table.now.rows }
{
    table.in_order();
}

/// Takes the region of a language in a script away, if it has one.
pub fn clear_region(
    table: &mut Regions<'_>,
    alloc: Global,
    language: &str,
    script: &str,
) -> Result<(), NoMemory>
    ensures rows { OnOk result (table.new.rows ≡
        del by_bytes by_bytes table.old.rows language.now script.now) }
    ensures gone { OnOk result
        (find by_bytes by_bytes table.new.rows language.now script.now ≡ None) }
    ensures err { OnErr result (table.new.rows ≡ table.old.rows) }
{
    in_order(table);
    let _ = table.remove(alloc, &language, &script)?;
    Ok(())
}
