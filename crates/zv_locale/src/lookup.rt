// The best that a map has for a wanted text.
ghost use Rattle.std.specs.Prelude.{◌≡◌, ◌-◌, ◌<◌, ◌≤◌, length, option_map};
ghost use Rattle.zv_ule.specs.Search.{AtMostDigits};
ghost use Rattle.zv_ule.specs.Views.{element_of};
ghost use Rattle.zv_map.specs.Maps.{look_up};
ghost use Rattle.zv_map2d.specs.Image.{by_bytes};
ghost use Rattle.zv_map2d.specs.Rows.{row};
ghost use Rattle.zv_locale.specs.Bounds.{AtMostDigitsOfTries};
ghost use Rattle.zv_locale.specs.Names.{tries};
ghost use Rattle.zv_locale.specs.Provided.{first_found, provided};
ghost use Rattle.zv_locale.specs.Texts.{name_and_value, text_of};

use crate::walk::Try;
use crate::wanted::Wanted;
use std::marker::Brand;
use std::sync::ledger::{Blank, Ledger};
use zv_image::plain;
use zv_map::FlexULE;
use zv_map2d::{ImageMap, ZeroMap2dCursor};
use zv_ule::{SliceULE, Steps, StrULE, VarRef};

// A row of an image's map.
type ImageRow<'l, 'a> = ZeroMap2dCursor<
    'l,
    'a,
    FlexULE<StrULE>,
    FlexULE<StrULE>,
    FlexULE<SliceULE<u8>>,
>;

/// What a map has for a wanted text.
#[derive(Drop)]
pub struct Provided<'l> {
    /// The name that was found.
    pub name: &'l str,
    /// Its value.
    pub value: VarRef<'l, SliceULE<u8>>,
}

// The value that a row has for a name, if there is one.
fn value_of<'l, L: Ledger>(
    row: &ImageRow<'l, '_>,
    name: &str,
    steps: &mut Steps<L>,
) -> Option<VarRef<'l, SliceULE<u8>>>
    ensures value { option_map element_of result ≡ look_up by_bytes row.now.pairs name.now }
    ensures digits { AtMostDigits (steps.new - steps.old) (length row.now.pairs) }
    ensures counted { steps.old ≤ steps.new }
{
    plain(row.get1_counted(&name, steps))
}

// The first name of those that are tried which a row has, and its value.
fn find_first<'l, L: Ledger>(
    row: &ImageRow<'l, '_>,
    text: &'l str,
    steps: &mut Steps<L>,
) -> Option<Provided<'l>>
    ensures found { option_map name_and_value result
        ≡ first_found row.now.pairs (tries text.now) }
    ensures digits { AtMostDigitsOfTries (steps.new - steps.old) 0 (length (tries text.now))
        (length row.now.pairs) }
    ensures counted { steps.old ≤ steps.new }
{
    let mut next = Some(Try::first(text));
    while let Some(this) = next {
        next = this.next();
        if let Some(value) = value_of(row, this.name, steps) {
            return Some(Provided {
                name: this.name,
                value,
            });
        }
    }
    None
}

/// What a map has for a first key and a wanted text, as [`provide`]. Each comparison is counted as
/// a step: at most as many as the number of rows has binary digits and, for each name that is
/// tried, as many as the length of the found row has.
pub fn provide_counted<'l, L: Ledger>(
    map: &'l ImageMap<'_>,
    key0: &str,
    wanted: Wanted<'l>,
    steps: &mut Steps<L>,
) -> Option<Provided<'l>>
    ensures provided { option_map name_and_value result
        ≡ provided map.now.rows key0.now (text_of wanted.entry) }
    ensures digits { AtMostDigitsOfTries (steps.new - steps.old) (length map.now.rows)
        (length (tries (text_of wanted.entry))) (length (row by_bytes map.now.rows key0.now)) }
    ensures counted { steps.old ≤ steps.new }
{
    match map.get0_counted(&key0, steps) {
        Some(row) => find_first(&row, wanted.text, steps),
        None => None,
    }
}

// What is looked for in a map.
#[derive(Clone, Copy)]
struct Sought<'k, 'l> {
    key0: &'k str,
    wanted: Wanted<'l>,
}

// The same, uncounted.
fn provide_from<'l, L: Ledger>(
    map: &'l ImageMap<'_>,
    sought: Sought<'_, 'l>,
    blank: Blank,
) -> Option<Provided<'l>>
    requires name { blank.name ≡ L.name }
    requires parts { blank.parts ≡ L.parts }
    requires some { 0 < blank.parts }
    ensures { option_map name_and_value result ≡ provided map.now.rows
        sought.entry.key0.now (text_of sought.entry.wanted) }
{
    let mut steps = Steps::<L>::start(blank);
    provide_counted(map, sought.key0, sought.wanted, &mut steps)
}

/// The best that a map has for a first key and a wanted text: the first name that is tried which
/// is a second key of its row, and that key's value. Each locale is tried whole and then without
/// its last subtags, one fewer at a time; the root, `und`, is tried last. Names are compared as
/// they are written. It takes no memory.
pub fn provide<'l>(map: &'l ImageMap<'_>, key0: &str, wanted: Wanted<'l>) -> Option<Provided<'l>>
    ensures { option_map name_and_value result
        ≡ provided map.now.rows key0.now (text_of wanted.entry) }
{
    provide_from::<Brand>(map, Sought { key0, wanted }, Blank::new(1))
}
