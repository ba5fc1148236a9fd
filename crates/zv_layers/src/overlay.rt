// One map laid over another, by one walk over both.
ghost use Rattle.std.specs.Prelude.{◌≡◌, ◌≤◌, ◌+◌, ◌<◌, ◌⊎◌, None, Some, IfErr, IfOk, OnOk};
ghost use Rattle.std.specs.Prelude.{length};
ghost use Rattle.zv_map.specs.Iters.{left_of, pair_of};
ghost use Rattle.zv_map.specs.Maps.{IsMap};
ghost use Rattle.zv_map2d.specs.Image.{by_bytes};
ghost use Rattle.zv_map2d.specs.Rows.{IsRow, seconds};
ghost use Rattle.zv_layers.specs.Columns.{AreInOrder, rows_in, with_pairs, with_row};
ghost use Rattle.zv_map2d_laws.specs.Overlays.{laid_pairs, later, overlay};
ghost use Rattle.zv_layers.specs.Refusals.{refusal};
ghost use Rattle.zv_layers.specs.Walks.{HoldsOf, entry_of, pair_count};
ghost use Rattle.zv_layers.specs.Walks.{row_entry, seen, weight_of};

use crate::columns::Columns;
use crate::walk::{Key, Next, Pairs, Row, Value, Walk};
use std::alloc::Global;
use std::marker::Brand;
use std::sync::ledger::{Blank, Ledger};
use zv_map2d::{ImageMap, Map2dError};
use zv_ule::{NoMemory, Steps};

// Adds the pairs of a row.
fn add_row<'m>(columns: &mut Columns<'m>, pairs: Pairs<'m>) -> Result<(), NoMemory>
    ensures { OnOk result (columns.new ≡ with_pairs columns.old (left_of pairs.entry)) }
{
    for (key1, value) in pairs {
        columns.add(key1, value)?;
    }
    Ok(())
}

// The pair that counts.
fn upper_of<'m>(next: Next<(Key<'m>, Value<'m>)>) -> (Key<'m>, Value<'m>)
    ensures { pair_of result ≡ entry_of later (seen pair_of next.entry) }
{
    match next {
        Next::One(over) => over,
        Next::Both(_, over) => over,
    }
}

// Adds the pairs of two rows of one first key, those of the upper row where both have one.
fn add_both<'m, L: Ledger>(
    columns: &mut Columns<'m>,
    base: Pairs<'m>,
    over: Pairs<'m>,
    steps: &mut Steps<L>,
) -> Result<(), NoMemory>
    requires base { IsMap by_bytes (left_of base) }
    requires over { IsMap by_bytes (left_of over) }
    ensures pairs { OnOk result (columns.new
        ≡ with_pairs columns.old (laid_pairs (left_of base.entry) (left_of over.entry))) }
    ensures steps { steps.new
        ≤ steps.old + length (left_of base.entry) + length (left_of over.entry) }
    ensures counted { steps.old ≤ steps.new }
{
    let mut walk = Walk::new(base, over);
    while let Some(next) = walk.next(steps) {
        let (key1, value) = upper_of(next);
        columns.add(key1, value)?;
    }
    Ok(())
}

// Adds the row that comes next.
fn add_next<'m, L: Ledger>(
    columns: &mut Columns<'m>,
    next: Next<Row<'m, '_>>,
    steps: &mut Steps<L>,
) -> Result<(), NoMemory>
    requires { HoldsOf (IsRow by_bytes) (seen row_entry next) }
    ensures row { OnOk result (columns.new
        ≡ with_row columns.old (entry_of laid_pairs (seen row_entry next.entry))) }
    ensures steps { steps.new ≤ steps.old + weight_of pair_count (seen row_entry next.entry) }
    ensures counted { steps.old ≤ steps.new }
{
    match next {
        Next::One(row) => {
            add_row(columns, row.iter1())?;
            columns.end_row(row.key0())
        }
        Next::Both(base, over) => {
            add_both(columns, base.iter1(), over.iter1(), steps)?;
            columns.end_row(over.key0())
        }
    }
}

// The lists of the map of the pairs of two maps.
fn gather<'m, L: Ledger>(
    alloc: Global,
    base: &'m ImageMap<'_>,
    over: &'m ImageMap<'_>,
    steps: &mut Steps<L>,
) -> Result<Columns<'m>, NoMemory>
    ensures rows { IfOk result (λ c. rows_in c ≡ overlay base.now.rows over.now.rows) }
    ensures in_order { IfOk result AreInOrder }
    ensures steps { steps.new ≤ steps.old + (length base.now.rows + length (seconds base.now.rows))
        + (length over.now.rows + length (seconds over.now.rows)) }
    ensures counted { steps.old ≤ steps.new }
{
    base.in_order();
    over.in_order();
    let mut columns = Columns::new(alloc);
    let mut walk = Walk::new(base.as_borrowed().iter0(), over.as_borrowed().iter0());
    while let Some(next) = walk.next(steps) {
        add_next(&mut columns, next, steps)?;
    }
    Ok(columns)
}

/// The map of the pairs of two maps, of which the upper one's values count where both have one,
/// with each comparison of the walk counted as a step: at most as many as both have rows and pairs.
///
/// # Errors
/// That of the first pair, in order, that is refused where they are put into the empty map:
/// `TooLarge` where it doesn't fit, `TooMany` where 2^32 - 1 pairs are there; or `Memory`.
///
/// # Cost
/// Both maps are walked once. Each list of the result is written at once, from views of its
/// elements, which take 32 bytes a pair and 24 a row until then.
pub fn overlay_counted<'m, L: Ledger>(
    alloc: Global,
    base: &'m ImageMap<'_>,
    over: &'m ImageMap<'_>,
    steps: &mut Steps<L>,
) -> Result<ImageMap<'static>, Map2dError>
    ensures rows { IfOk result (λ m. m.rows ≡ overlay base.now.rows over.now.rows) }
    ensures accepted { OnOk result (refusal (overlay base.now.rows over.now.rows) ≡ None) }
    ensures refused { IfErr result (λ e. (e ≡ Map2dError.Memory)
        ⊎ (refusal (overlay base.now.rows over.now.rows) ≡ Some e)) }
    ensures steps { steps.new ≤ steps.old + (length base.now.rows + length (seconds base.now.rows))
        + (length over.now.rows + length (seconds over.now.rows)) }
    ensures counted { steps.old ≤ steps.new }
{
    let columns = gather(alloc, base, over, steps)?;
    columns.build(alloc)
}

// The same, uncounted.
fn overlay_from<'m, L: Ledger>(
    alloc: Global,
    base: &'m ImageMap<'_>,
    over: &'m ImageMap<'_>,
    blank: Blank,
) -> Result<ImageMap<'static>, Map2dError>
    requires name { blank.name ≡ L.name }
    requires parts { blank.parts ≡ L.parts }
    requires some { 0 < blank.parts }
    ensures rows { IfOk result (λ m. m.rows ≡ overlay base.now.rows over.now.rows) }
    ensures accepted { OnOk result (refusal (overlay base.now.rows over.now.rows) ≡ None) }
    ensures refused { IfErr result (λ e. (e ≡ Map2dError.Memory)
        ⊎ (refusal (overlay base.now.rows over.now.rows) ≡ Some e)) }
{
    let mut steps = Steps::<L>::start(blank);
    overlay_counted(alloc, base, over, &mut steps)
}

/// The map of the pairs of two maps, as [`overlay_counted`], where nobody counts.
///
/// # Errors
/// Those of [`overlay_counted`].
pub fn overlay_maps<'m>(
    alloc: Global,
    base: &'m ImageMap<'_>,
    over: &'m ImageMap<'_>,
) -> Result<ImageMap<'static>, Map2dError>
    ensures rows { IfOk result (λ m. m.rows ≡ overlay base.now.rows over.now.rows) }
    ensures accepted { OnOk result (refusal (overlay base.now.rows over.now.rows) ≡ None) }
    ensures refused { IfErr result (λ e. (e ≡ Map2dError.Memory)
        ⊎ (refusal (overlay base.now.rows over.now.rows) ≡ Some e)) }
{
    overlay_from::<Brand>(alloc, base, over, Blank::new(1))
}
