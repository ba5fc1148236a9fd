// What is known of languages: a record for each, whose fields are read where they lie.
ghost use Rattle.std.specs.Prelude.{◌≡◌, [], ◌∷◌, OnErr, OnOk, map, option_map};
ghost use Rattle.zv_map1.specs.Views.{insert_entry};
ghost use Rattle.zv_ule.specs.Views.{element_of};
ghost use Rattle.zv_var.specs.Serialize.{lengthless, serialized};
ghost use Rattle.zv_map2d.specs.Image.{by_bytes};
ghost use Rattle.zv_var.specs.Views.{bytes_of};
ghost use Rattle.zv_multi.specs.Records.{field_at};
ghost use Rattle.zv_callers.specs.Languages.{fields_of};

use std::alloc::Global;
use zv_map::MapError;
use zv_map1::ZeroMap;
use zv_multi::Tuple3VarULE;
use zv_ule::{Index16, StrULE, VarRef};
use zv_var::{VarZeroSlice, VarZeroSliceULE};

/// A name, a script, and a list of regions.
pub type Language = Tuple3VarULE<StrULE, StrULE, VarZeroSliceULE<StrULE, Index16>, Index16>;

/// A table from a language to its record.
pub type Languages<'a> = ZeroMap<'a, StrULE, Language>;

/// The script of a language.
pub fn script<'t>(table: &'t Languages<'_>, language: &str) -> Option<VarRef<'t, StrULE>>
    ensures { option_map element_of result ≡
        option_map (λ fields. field_at fields 1) (fields_of table.now.pairs language.now) }
{
    Some(Language::b(table.get(&language)?))
}

/// The regions of a language.
pub fn regions<'t>(
    table: &'t Languages<'_>,
    language: &str,
) -> Option<VarZeroSlice<'t, StrULE, Index16>>
    ensures { option_map bytes_of result ≡
        option_map (λ fields. field_at fields 2) (fields_of table.now.pairs language.now) }
{
    let record = table.get(&language)?;
    Some(VarZeroSliceULE::as_varzeroslice(Language::c(record)))
}

/// Gives a language a record, in the place of what it had.
pub fn set_language(
    table: &mut Languages<'_>,
    alloc: Global,
    language: &str,
    name: &str,
    script: &str,
    regions: &[&str],
) -> Result<(), MapError>
    ensures record { OnOk result (table.new.pairs ≡ insert_entry by_bytes table.old.pairs
        language.now (lengthless 2
        (name.now ∷ script.now ∷ serialized 2 (map (λ r. r.now) regions.now) ∷ []))) }
    ensures err { OnErr result (table.new.pairs ≡ table.old.pairs) }
{
    table.insert_var_v(alloc, &language, &(name, script, regions))?;
    Ok(())
}
