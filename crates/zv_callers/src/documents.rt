// Names that are kept in a JSON document, an object of a text for each language.
ghost use Rattle.std.specs.Prelude.{◌≡◌, ◌⊎◌, None, Err, IfOk, MatchResult, string_bytes};
ghost use Rattle.serde_json.specs.Read.{read};
ghost use Rattle.zv_json.specs.declared.error.JsonError.TheVariants.{Memory, Syntax, TooLarge};
ghost use Rattle.zv_map1.specs.Views.{Pairs};
ghost use Rattle.zv_callers.specs.Documents.{Holds};

use crate::names::Names;
use std::alloc::Global;
use zv_forms::laws::maps_are_read_again;
use zv_forms::{JsonForm, ToJson};
use zv_json::JsonError;

/// The document of a table of names.
pub fn write_names(names: &Names<'_>, alloc: Global) -> Result<String, JsonError>
    ensures { IfOk result (λ document. Holds (string_bytes document) names.now.pairs) }
{
    maps_are_read_again(names);
    let value = names.to_json(alloc)?;
    Ok(value.to_string(alloc)?)
}

/// The names that a document holds, or why it holds none.
pub fn read_names(alloc: Global, document: &str) -> Result<Names<'static>, JsonError>
    ensures syntax { read document.now ≡ None →
        (result ≡ Err Memory) ⊎ (result ≡ Err Syntax) }
    ensures names { (pairs : Pairs) → Holds document.now pairs →
        MatchResult result (λ names. names.pairs ≡ pairs)
        (λ e. (e ≡ Memory) ⊎ (e ≡ TooLarge)) }
{
    Names::from_json_text(alloc, document)
}
