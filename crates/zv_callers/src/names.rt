// A table from a language to its name.
ghost use Rattle.std.specs.Prelude.{◌≡◌, Some, IfOk, OnErr, OnOk, is_none, option_map};
ghost use Rattle.std.specs.Cmp.Lexicographic.{slice_cmp};
ghost use Rattle.std.specs.Ordering.{nat_cmp};
ghost use Rattle.zv_ule.specs.Views.{element_of};
ghost use Rattle.zv_map1.specs.Views.{insert_entry, look_up};

use std::alloc::Global;
use zv_map::MapError;
use zv_map1::ZeroMap;
use zv_ule::{StrULE, VarRef};

/// A table from a language to its name.
pub type Names<'a> = ZeroMap<'a, StrULE, StrULE>;

/// The name of a language.
pub fn name_of<'t>(table: &'t Names<'_>, language: &str) -> Option<VarRef<'t, StrULE>>
    ensures { option_map element_of result ≡
        look_up (slice_cmp nat_cmp) table.now.pairs language.now }
{
    table.get(&language)
}

/// Gives a language a name, and says whether it had none.
pub fn set_name(
    table: &mut Names<'_>,
    alloc: Global,
    language: &str,
    name: &str,
) -> Result<bool, MapError>
    ensures pairs { OnOk result (table.new.pairs ≡
        insert_entry (slice_cmp nat_cmp) table.old.pairs language.now name.now) }
    ensures found { OnOk result
        (look_up (slice_cmp nat_cmp) table.new.pairs language.now ≡ Some name.now) }
    ensures had_none { IfOk result (λ had_none. had_none ≡
        is_none (look_up (slice_cmp nat_cmp) table.old.pairs language.now)) }
    ensures err { OnErr result (table.new.pairs ≡ table.old.pairs) }
{
    let old = table.insert(alloc, &language, &name)?;
    Ok(old.is_none())
}
