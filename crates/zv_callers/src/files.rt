// Names that are kept in a file.
ghost use Rattle.std.specs.Prelude.{◌≡◌, IfOk, IsOkAnd};
ghost use Rattle.std.specs.Result.{result_err};
ghost use Rattle.zv_map1.specs.Views.{Pairs};
ghost use Rattle.zv_map2d.specs.Image.{by_bytes};
ghost use Rattle.zv_framed.specs.Faults.{map_fault};
ghost use Rattle.zv_framed.specs.Frames.{form_fault};
ghost use Rattle.zv_callers.specs.Files.{Keeps, texts};

use crate::names::Names;
use std::alloc::Global;
use zv_framed::{FormError, Framed};
use zv_ule::NoMemory;

/// The file that keeps a table of names.
pub fn save(names: &Names<'_>, alloc: Global) -> Result<Vec<u8>, NoMemory>
    ensures { IfOk result (λ file. Keeps file.items names.now.pairs) }
{
    names.to_framed_bytes(alloc)
}

/// The names that a file keeps, read where they lie, or why it keeps none.
pub fn load(file: &[u8]) -> Result<Names<'_>, FormError>
    ensures error { result_err result ≡ form_fault 2 (map_fault texts texts by_bytes) file.now }
    ensures kept { (pairs : Pairs) → Keeps file.now pairs →
        IsOkAnd result (λ names. names.pairs ≡ pairs) }
{
    Names::parse_framed(file)
}
