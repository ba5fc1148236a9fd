// The image of a map from two texts to bytes: four parts, each after its length, and before them,
// where a list is wide, a head.
ghost use Rattle.std.specs.Prelude.{◌≡◌, IfOk, IfErr, IfSome, IsTrue, false};
ghost use Rattle.std.specs.Option.{option_map};
ghost use Rattle.std.specs.Result.{result_err};
ghost use Rattle.zv_var.specs.Format.{elements};
ghost use Rattle.zv_map.specs.Flexes.{flex_bytes, flex_list, flex_owned, flex_wide};
ghost use Rattle.zv_map2d.specs.Causes.{is_cause, is_parts_cause, read_fault, rows_read};
ghost use Rattle.zv_map2d.specs.Formats.{after_mark, code, head, is_any_wide, lists_named};
ghost use Rattle.zv_map2d.specs.Formats.{IsFormed, unformed, wide_named, width};
ghost use Rattle.zv_map2d.specs.Frame.{unframe};
ghost use Rattle.zv_map2d.specs.Image.{Stands, fault, lists_of, texts_in, var_list};
ghost use Rattle.zv_map2d.specs.Views.{IsBorrowed, bytes_of, parts_of};
ghost use Rattle.zv_map2d.specs.declared.error.EditError.TheVariants.{Ule};

use crate::error::EditError;
use crate::map::{Parts, ZeroMap2d};
use crate::parse::read_joiner;
use zv_map::{FlexULE, FlexVec};
use zv_ule::{SliceULE, StrULE, VarULE};
use zv_var::frame::take_part;

/// The map that an image stands for: from two texts to bytes.
pub type ImageMap<'a> = ZeroMap2d<'a, FlexULE<StrULE>, FlexULE<StrULE>, FlexULE<SliceULE<u8>>>;

/// Which lists of a map are wide, that is, have fields of four bytes and not of two.
#[derive(Clone, Copy, Debug, PartialEq, Eq)]
pub struct WideLists {
    /// The first keys.
    pub keys0: bool,
    /// The second keys.
    pub keys1: bool,
    /// The values.
    pub values: bool,
}

/// What a head begins with. A frame cannot: its first part would be longer than any slice.
const MARK: [u8; 8] = [255; 8];

/// The byte that names the format of a list: how many bits a field has.
fn code_of(wide: bool) -> u8
    ensures { result ≡ code wide }
{
    if wide { 32 } else { 16 }
}

/// Whether the list is wide whose format a byte names.
fn wide_of(code: u8) -> Option<bool>
    ensures { result ≡ wide_named code }
{
    match code {
        16 => Some(false),
        32 => Some(true),
        _ => None,
    }
}

impl WideLists {
    /// Whether any list is wide.
    pub fn is_any(self) -> bool
        ensures { result ≡ is_any_wide self }
    {
        self.keys0 || self.keys1 || self.values
    }

    /// The head that names the formats of the lists.
    pub fn head(self) -> [u8; 11]
        ensures { result ≡ head self }
    {
        let [keys0, keys1, values] = [self.keys0, self.keys1, self.values].map(code_of);
        [255, 255, 255, 255, 255, 255, 255, 255, keys0, keys1, values]
    }

    /// The lists whose formats three bytes name.
    fn named(keys0: u8, keys1: u8, values: u8) -> Option<WideLists>
        ensures { result ≡ lists_named keys0 keys1 values }
    {
        Some(WideLists {
            keys0: wide_of(keys0)?,
            keys1: wide_of(keys1)?,
            values: wide_of(values)?,
        })
    }
}

/// The formats of the lists and the four parts that follow a mark.
fn cut_head(named: &[u8]) -> Option<(WideLists, Parts<'_>)>
    ensures { option_map (λ x. (x.0, bytes_of x.1)) result ≡ after_mark named.now }
{
    let [keys0, keys1, values, rest @ ..] = named else {
        return None;
    };
    let lists = WideLists::named(*keys0, *keys1, *values)?;
    Some((lists, cut_parts(rest)?))
}

/// The formats of the lists that an image names, and its four parts.
///
/// `None` where its head is cut or names another format, or where what follows is no frame.
pub fn cut_image(image: &[u8]) -> Option<(WideLists, Parts<'_>)>
    ensures { option_map (λ x. (x.0, bytes_of x.1)) result ≡ unformed image.now }
{
    if let Some(named) = image.strip_prefix(&MARK) {
        return cut_head(named);
    }
    let lists = WideLists {
        keys0: false,
        keys1: false,
        values: false,
    };
    Some((lists, cut_parts(image)?))
}

/// The four parts of a frame: first keys, joiner, second keys, values, each after its length as
/// eight bytes, the lowest first.
///
/// `None` where a length is cut or is more than the bytes left, or where bytes follow the fourth
/// part. Parts are not looked into.
pub fn cut_parts(frame: &[u8]) -> Option<Parts<'_>>
    ensures { option_map bytes_of result ≡ unframe frame.now }
{
    let (keys0, rest) = take_part(frame)?;
    let (joiner, rest) = take_part(rest)?;
    let (keys1, rest) = take_part(rest)?;
    let (values, rest) = take_part(rest)?;
    if !rest.is_empty() {
        return None;
    }
    Some(Parts {
        keys0,
        joiner,
        keys1,
        values,
    })
}

/// The list of elements of one kind, wide or narrow.
fn read_flex<'a, K: VarULE>(
    wide: bool,
    bytes: &'a [u8],
) -> Result<FlexVec<'a, FlexULE<K>>, EditError>
    requires { IsTrue K.usable }
    ensures error { result_err result
        ≡ option_map Ule ((var_list (width wide) K.fault).fault bytes.now) }
    ensures list { IfOk result (λ v. flex_list v ≡ elements (width wide) bytes.now) }
    ensures bytes { IfOk result (λ v. flex_bytes v ≡ bytes.now) }
    ensures borrowed { IfOk result (λ v. flex_owned v ≡ false) }
    ensures wide { IfOk result (λ v. flex_wide v ≡ wide) }
    ensures cause { IfErr result (λ e. IsTrue (is_parts_cause e)) }
{
    FlexVec::parse_bytes(wide, bytes).map_err(EditError::Ule)
}

/// The map of four parts, of which these lists are wide.
fn read_parts<'a>(lists: WideLists, parts: Parts<'a>) -> Result<ImageMap<'a>, EditError>
    ensures error { result_err result ≡ read_fault (texts_in lists) (bytes_of parts.entry) }
    ensures rows { IfOk result (λ m. m.rows ≡ rows_read (texts_in lists) (bytes_of parts.entry)) }
    ensures parts { IfOk result (λ m. parts_of m ≡ bytes_of parts.entry) }
    ensures lists { IfOk result (λ m. lists_of m ≡ lists) }
    ensures borrowed { IfOk result IsBorrowed }
    ensures cause { IfErr result (λ e. IsTrue (is_parts_cause e)) }
{
    let joiner = read_joiner(parts.joiner)?;
    let keys0 = read_flex::<StrULE>(lists.keys0, parts.keys0)?;
    let keys1 = read_flex::<StrULE>(lists.keys1, parts.keys1)?;
    let values = read_flex::<SliceULE<u8>>(lists.values, parts.values)?;
    ImageMap::<'a>::from_vecs(keys0, joiner, keys1, values)
}

/// The map from two texts to bytes that an image stands for, read in the image's own bytes.
///
/// The first cause in the order of [`EditError`]'s variants is told; it is never `Memory` or
/// `Write`. It costs what [`parse_parts`](crate::Map2dOver::parse_parts) does and takes no memory.
pub fn parse_image<'a>(image: &'a [u8]) -> Result<ImageMap<'a>, EditError>
    ensures error { result_err result ≡ fault image.now }
    ensures map { IfOk result (λ m. Stands image.now m.rows) }
    ensures formed { IfOk result (λ m. IsFormed image.now (lists_of m) (parts_of m)) }
    ensures borrowed { IfOk result IsBorrowed }
    ensures cause { IfErr result (λ e. IsTrue (is_cause e)) }
{
    let Some((lists, parts)) = cut_image(image) else {
        return Err(EditError::Frame);
    };
    read_parts(lists, parts)
}

/// Which lists of an image's map are wide.
pub fn wide_lists(map: &ImageMap<'_>) -> WideLists
    ensures { result ≡ lists_of map.now }
{
    WideLists {
        keys0: map.keys0().is_wide(),
        keys1: map.keys1().is_wide(),
        values: map.values().is_wide(),
    }
}
