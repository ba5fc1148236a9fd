// Which script each character has.
ghost use Rattle.std.specs.Prelude.{◌≡◌, ℕ, ◌≤◌, ◌↔◌, IfOk, IsTrue, OnOk};
ghost use Rattle.zv_props.specs.Tables.{max_code_point, value_at};

use std::alloc::Global;
use zv_props::Props;
use zv_ule::NoMemory;

/// The number of the script of each code point, and 0 for none.
pub type Scripts<'a> = Props<'a>;

/// Whether two code points have the same script.
pub fn share_script(scripts: &Scripts<'_>, first: u32, second: u32) -> bool
    ensures { IsTrue result ↔ (value_at scripts.now first ≡ value_at scripts.now second) }
{
    scripts.get(first) == scripts.get(second)
}

/// Gives a block of code points another script, and tells the one that the first of them had.
pub fn set_block(
    scripts: &mut Scripts<'_>,
    alloc: Global,
    first: u32,
    last: u32,
    script: u16,
) -> Result<u16, NoMemory>
    requires order { first ≤ last }
    requires top { last ≤ max_code_point }
    ensures before { IfOk result (λ old. old ≡ value_at scripts.old first) }
    ensures after { OnOk result ((c : ℕ) → first ≤ c → c ≤ last →
        value_at scripts.new c ≡ script) }
{
    let before = scripts.get(first);
    scripts.set(alloc, first, last, script)?;
    Ok(before)
}
