// What is found and changed in the map of an image at the place of a pair of texts.
ghost use Rattle.std.specs.Prelude.{◌≡◌, true};
ghost use Rattle.std.specs.Option.{option_map};
ghost use Rattle.zv_map2d.specs.Fits.{fits_texts};
ghost use Rattle.zv_map2d.specs.Image.{by_bytes};
ghost use Rattle.zv_map2d.specs.Places.{IsPlace};
ghost use Rattle.zv_map2d.specs.Rows.{del, find, put};
ghost use Rattle.zv_ule.specs.Views.{element_of};
ghost use Rattle.zv_image.specs.Room.{HasRoomOf, SpendsOf};
ghost use Rattle.zv_input.specs.Sizes.{sizes_of};

use zv_input::Command;
use zv_map::FlexULE;
use zv_map2d::{ImageMap, Place};
use zv_ule::{SliceULE, VarRef};

/// A value of an image's map, if there is one, as bytes.
pub fn plain<'m>(
    value: Option<VarRef<'m, FlexULE<SliceULE<u8>>>>,
) -> Option<VarRef<'m, SliceULE<u8>>>
    ensures { option_map element_of result ≡ option_map element_of value.entry }
{
    match value {
        Some(value) => Some(FlexULE::plain(value)),
        None => None,
    }
}

/// A value as the map of an image takes it.
fn value_for(value: &[u8]) -> VarRef<'_, FlexULE<SliceULE<u8>>>
    ensures { element_of result ≡ value.now }
{
    FlexULE::of_plain(VarRef::of_bytes(value))
}

/// Where a pair of keys is, or would be.
pub fn find_place(map: &ImageMap<'_>, key0: &str, key1: &str) -> Place
    ensures { IsPlace by_bytes by_bytes map.now.rows key0.now key1.now result }
{
    map.find_place(&key0, &key1)
}

/// The value of a pair of keys at its place, if there is one.
pub fn value_at<'m>(
    map: &'m ImageMap<'_>,
    place: Place,
    key0: &str,
    key1: &str,
) -> Option<VarRef<'m, SliceULE<u8>>>
    requires { IsPlace by_bytes by_bytes map.now.rows key0.now key1.now place }
    ensures { option_map element_of result ≡ find by_bytes by_bytes map.now.rows key0.now key1.now }
{
    plain(map.value_at(place, &key0, &key1))
}

/// Whether a value for a pair of keys fits at its place.
pub fn fits(map: &ImageMap<'_>, place: Place, key0: &str, key1: &str, value: &[u8]) -> bool
    requires { IsPlace by_bytes by_bytes map.now.rows key0.now key1.now place }
    ensures { result ≡ fits_texts map.now.rows key0.now key1.now value.now }
{
    map.in_order();
    map.takes_at(place, &key0, &key1, &value_for(value))
}

/// Gives a pair of keys a value, which fits, at its place.
pub fn put_fitting(map: &mut ImageMap<'_>, place: Place, key0: &str, key1: &str, value: &[u8])
    requires place { IsPlace by_bytes by_bytes map.old.rows key0.now key1.now place }
    requires fits { fits_texts map.old.rows key0.now key1.now value.now ≡ true }
    requires room { HasRoomOf (sizes_of (Command.Put key0.now key1.now value.now)) map.old }
    ensures rows { map.new.rows
        ≡ put by_bytes by_bytes map.old.rows key0.now key1.now value.now }
    ensures spends { SpendsOf (sizes_of (Command.Put key0.now key1.now value.now))
        map.old map.new }
{
    map.in_order();
    map.put_at(place, &key0, &key1, &value_for(value));
}

/// Takes a pair of keys out at its place.
pub fn discard(map: &mut ImageMap<'_>, place: Place, key0: &str, key1: &str)
    requires place { IsPlace by_bytes by_bytes map.old.rows key0.now key1.now place }
    requires room { HasRoomOf (sizes_of (Command.Del key0.now key1.now)) map.old }
    ensures rows { map.new.rows ≡ del by_bytes by_bytes map.old.rows key0.now key1.now }
    ensures spends { SpendsOf (sizes_of (Command.Del key0.now key1.now)) map.old map.new }
{
    map.discard_at(place, &key0, &key1);
}
