// How often look-ups in a map of 28 locales compare, counted by the keys themselves.
ghost use Rattle.std.specs.Prelude.{◌≡◌, ◌<◌};

use std::cell::Cell;
use std::marker::Brand;
use std::process::Abort;
use std::sync::ledger::{Blank, Ledger};
use std::test::Fail;
use zv_counting::CountingKey;
use zv_map::{MutableZeroVecLike, ZeroMapKV, ZeroVecSearch, ZvContainer};
use zv_map2d::{Map2dOver, ZeroMap2d};
use zv_ule::{SliceULE, Steps, StrULE};

const KEYS0: &[u8] = b"\
    \x15\x00\x03\x00\x05\x00\x07\x00\x09\x00\x0b\x00\x0e\x00\x10\x00\x12\x00\x14\x00\x17\
    \x00\x1a\x00\x1c\x00\x1e\x00!\x00#\x00%\x00'\x00*\x00,\x00/\x00arcazcuenffgrckkkukyl\
    ifmanmnpapalsdtgugunruzyuezh";

const JOINER: &[u8] = b"\
    \x02\x00\x00\x00\x03\x00\x00\x00\x04\x00\x00\x00\x05\x00\x00\x00\x06\x00\x00\x00\x07\
    \x00\x00\x00\x08\x00\x00\x00\x0a\x00\x00\x00\x0c\x00\x00\x00\x0d\x00\x00\x00\x0e\x00\
    \x00\x00\x0f\x00\x00\x00\x10\x00\x00\x00\x11\x00\x00\x00\x14\x00\x00\x00\x15\x00\x00\
    \x00\x16\x00\x00\x00\x17\x00\x00\x00\x18\x00\x00\x00\x19\x00\x00\x00\x1c\x00\x00\x00";

const KEYS1: &[u8] = b"\
    \x1c\x00\x04\x00\x08\x00\x0c\x00\x10\x00\x14\x00\x18\x00\x1c\x00\x20\x00$\x00(\x00,\
    \x000\x004\x008\x00<\x00@\x00D\x00H\x00L\x00P\x00T\x00X\x00\x5c\x00`\x00d\x00h\x00l\
    \x00NbatPalmArabGlagShawAdlmLinbArabArabYeziArabLatnLimbNkooMongArabPhlpDevaKhojSind\
    ArabCyrlDevaArabHansBopoHanbHant";

const VALUES: &[u8] = b"\
    \x1c\x00\x02\x00\x04\x00\x06\x00\x08\x00\x0a\x00\x0c\x00\x0e\x00\x10\x00\x12\x00\x14\
    \x00\x16\x00\x18\x00\x1a\x00\x1c\x00\x1e\x00\x20\x00\x22\x00$\x00&\x00(\x00*\x00,\
    \x00.\x000\x002\x004\x006\x00JOSYIRBGGBGNGRCNIQGECNTRINGNCNPKCNINININPKKZNPAFCNTWTWT\
    W";

// A language, a script of it, and how many it has.
const PAIRS: [(&str, &str, usize); 28] = [
    ("arc", "Nbat", 2),
    ("arc", "Palm", 2),
    ("az", "Arab", 1),
    ("cu", "Glag", 1),
    ("en", "Shaw", 1),
    ("ff", "Adlm", 1),
    ("grc", "Linb", 1),
    ("kk", "Arab", 1),
    ("ku", "Arab", 2),
    ("ku", "Yezi", 2),
    ("ky", "Arab", 2),
    ("ky", "Latn", 2),
    ("lif", "Limb", 1),
    ("man", "Nkoo", 1),
    ("mn", "Mong", 1),
    ("pa", "Arab", 1),
    ("pal", "Phlp", 1),
    ("sd", "Deva", 3),
    ("sd", "Khoj", 3),
    ("sd", "Sind", 3),
    ("tg", "Arab", 1),
    ("ug", "Cyrl", 1),
    ("unr", "Deva", 1),
    ("uz", "Arab", 1),
    ("yue", "Hans", 1),
    ("zh", "Bopo", 3),
    ("zh", "Hanb", 3),
    ("zh", "Hant", 3),
];

type Locales<'a, C0, C1, D> = Map2dOver<'a, StrULE, StrULE, SliceULE<u8>, C0, C1, D>;

type Of<'a, K> = <K as ZeroMapKV<'a>>::Container;

// The number of binary digits.
fn digits(n: usize) -> usize {
    match n {
        0 => 0,
        1 => 1,
        2 | 3 => 2,
        _ => 64,
    }
}

// Whether a look-up compared, and at most so often.
fn is_between(count: usize, most: usize) -> bool {
    0 < count && count <= most
}

// How many comparisons look-ups make: of a pair in the map, of a row, and of a pair in its row,
// which are none where there is no such row.
#[derive(Clone, Copy)]
struct Comparisons {
    in_map: usize,
    of_row: usize,
    in_row: usize,
}

// How many comparisons the plain look-ups make.
fn plain<C0, C1, D>(map: &Locales<'_, C0, C1, D>, language: &str, script: &str) -> Comparisons
where
    C0: ZvContainer<StrULE>,
    C1: ZvContainer<StrULE>,
    D: ZvContainer<SliceULE<u8>>,
{
    let (in_map, of_row, in_row) = (Cell::new(0), Cell::new(0), Cell::new(0));
    let key0 = CountingKey::new(language, &in_map);
    let _ = map.get_2d(&key0, &CountingKey::new(script, &in_map));
    if let Some(row) = map.get0(&CountingKey::new(language, &of_row)) {
        let _ = row.get1(&CountingKey::new(script, &in_row));
    }
    Comparisons {
        in_map: in_map.get(),
        of_row: of_row.get(),
        in_row: in_row.get(),
    }
}

// Look-ups compare at most as often as the numbers of rows, 21, and of the row's pairs have digits.
fn are_few(rt: &impl Abort, found: Comparisons, scripts: usize) {
    let most = digits(scripts);
    assert!(rt; is_between(found.in_map, most.saturating_add(5)));
    assert!(rt; is_between(found.of_row, 5));
    assert!(rt; is_between(found.in_row, most));
}

// The look-ups of each pair do.
fn halve_their_keys<C0, C1, D>(
    rt: &impl Abort,
    map: &Locales<'_, C0, C1, D>,
    pairs: &[(&str, &str, usize)],
)
where
    C0: ZvContainer<StrULE>,
    C1: ZvContainer<StrULE>,
    D: ZvContainer<SliceULE<u8>>,
{
    for (language, script, scripts) in pairs {
        are_few(rt, plain(map, language, script), *scripts);
    }
}

// The look-ups in the map of all locales do.
fn halves_its_keys<'a, C0, C1, D>(rt: &impl Abort) -> Result<(), Fail>
where
    C0: MutableZeroVecLike<'a, StrULE>,
    C1: MutableZeroVecLike<'a, StrULE>,
    D: MutableZeroVecLike<'a, SliceULE<u8>>,
{
    let map = Locales::<'a, C0, C1, D>::parse_parts(KEYS0, JOINER, KEYS1, VALUES)?;
    assert!(rt; map.rows() == 21);
    halve_their_keys(rt, &map, &PAIRS);
    Ok(())
}

#[test]
fn look_ups_halve_their_keys(rt: HostRuntime) -> Result<(), Fail> {
    halves_its_keys::<Of<'_, StrULE>, Of<'_, StrULE>, Of<'_, SliceULE<u8>>>(&rt)
}

// ---- look-ups whose steps are counted too

type Stored<'a> = ZeroMap2d<'a, StrULE, StrULE, SliceULE<u8>>;

// Looks a pair up with the steps counted, and says whether it is there.
fn find_pair<L: Ledger>(
    map: &Stored<'_>,
    key0: &CountingKey<'_>,
    key1: &CountingKey<'_>,
    blank: Blank,
) -> bool
    requires name { blank.name ≡ L.name }
    requires parts { blank.parts ≡ L.parts }
    requires some { 0 < blank.parts }
{
    let mut steps = Steps::<L>::start(blank);
    map.get_2d_counted(key0, key1, &mut steps).is_some()
}

// Looks a row up, and then a pair in it, with the steps counted.
fn find_in_row<L: Ledger>(
    map: &Stored<'_>,
    key0: &CountingKey<'_>,
    key1: &CountingKey<'_>,
    blank: Blank,
) -> bool
    requires name { blank.name ≡ L.name }
    requires parts { blank.parts ≡ L.parts }
    requires some { 0 < blank.parts }
{
    let mut steps = Steps::<L>::start(blank);
    match map.get0_counted(key0, &mut steps) {
        Some(row) => row.get1_counted(key1, &mut steps).is_some(),
        None => false,
    }
}

// Searches the first keys with the steps counted, and says whether the key is one.
fn find_first<L: Ledger>(map: &Stored<'_>, key0: &CountingKey<'_>, blank: Blank) -> bool
    requires name { blank.name ≡ L.name }
    requires parts { blank.parts ≡ L.parts }
    requires some { 0 < blank.parts }
{
    let mut steps = Steps::<L>::start(blank);
    let place = map
        .keys0()
        .zvl_search_counted(key0, 0..map.rows(), &mut steps);
    matches!(place, Some(Ok(_)))
}

// How many comparisons the counted look-ups make of a pair that is there.
fn counted(rt: &impl Abort, map: &Stored<'_>, language: &str, script: &str) -> Comparisons {
    let (in_map, of_row, in_row) = (Cell::new(0), Cell::new(0), Cell::new(0));
    let first = Cell::new(0);
    assert!(rt; find_first::<Brand>(map, &CountingKey::new(language, &first), Blank::new(1)));
    assert!(rt; is_between(first.get(), 5));
    let key0 = CountingKey::new(language, &in_map);
    let key1 = CountingKey::new(script, &in_map);
    assert!(rt; find_pair::<Brand>(map, &key0, &key1, Blank::new(1)));
    let key0 = CountingKey::new(language, &of_row);
    let key1 = CountingKey::new(script, &in_row);
    assert!(rt; find_in_row::<Brand>(map, &key0, &key1, Blank::new(1)));
    Comparisons {
        in_map: in_map.get(),
        of_row: of_row.get(),
        in_row: in_row.get(),
    }
}

#[test]
fn counted_look_ups_halve_their_keys(rt: HostRuntime) -> Result<(), Fail> {
    let map = Stored::parse_parts(KEYS0, JOINER, KEYS1, VALUES)?;
    for (language, script, scripts) in &PAIRS {
        are_few(&rt, counted(&rt, &map, language, script), *scripts);
    }
    Ok(())
}
