// Records: what tuples of values are written as, and what is read again.
ghost use Rattle.std.specs.Prelude.{◌≡◌, ◌<◌, IsTrue};

use std::alloc::Global;
use std::cmp::Ordering;
use std::process::Abort;
use std::test::Fail;
use zv_multi::{MultiFieldsULE, Tuple2VarULE, Tuple3VarULE, Tuple6VarULE};
use zv_owned::VarZeroVecOwned;
use zv_ule::{
    CharULE, EncodeAsVarULE, Index8, Index16, Index32, SliceULE, StrULE, VarBox, VarRef, VarULE,
    VarZeroVecFormat, ZvOrd, encode_varule_to_box,
};
use zv_var::VarZeroSliceULE;

// A text, and bytes.
type Pair<F> = Tuple2VarULE<StrULE, SliceULE<u8>, F>;

// A value has a spelling, which is these bytes.
pub(crate) fn is_written<K: VarULE, E: EncodeAsVarULE<K>>(
    rt: &impl Abort,
    alloc: Global,
    value: &E,
    bytes: &[u8],
) -> Result<VarBox<K>, Fail>
    requires { IsTrue K.usable }
{
    assert!(rt; value.encode_var_ule_fits());
    let written = encode_varule_to_box::<E, K>(alloc, value)?;
    assert!(rt; *written.as_bytes() == *bytes);
    assert!(rt; K::validate_bytes(bytes).is_ok());
    Ok(written)
}

#[test]
fn a_record_is_its_starts_and_its_fields(rt: HostRuntime) -> Result<(), Fail> {
    let alloc = rt.alloc();
    let pair = ("a", b"b".as_slice());
    is_written::<Pair<Index8>, (&str, &[u8])>(&rt, alloc, &pair, b"\x01ab")?;
    is_written::<Pair<Index16>, (&str, &[u8])>(&rt, alloc, &pair, b"\x01\0ab")?;
    let written = is_written::<Pair<Index32>, (&str, &[u8])>(&rt, alloc, &pair, b"\x01\0\0\0ab")?;
    assert!(rt; Pair::<Index32>::a(written.as_ref()).as_str() == "a");
    assert!(rt; Pair::<Index32>::b(written.as_ref()).as_bytes() == b"b".as_slice());
    Ok(())
}

#[test]
fn each_of_six_fields_is_read(rt: HostRuntime) -> Result<(), Fail> {
    type Six = Tuple6VarULE<StrULE, StrULE, StrULE, StrULE, StrULE, StrULE, Index8>;
    let six = ("a", "", "bc", "d", "e", "f");
    let bytes = b"\x01\x01\x03\x04\x05abcdef";
    let written = is_written::<Six, _>(&rt, rt.alloc(), &six, bytes)?;
    let view = written.as_ref();
    assert!(rt; (Six::a(view).as_str(), Six::b(view).as_str()) == ("a", ""));
    assert!(rt; (Six::c(view).as_str(), Six::d(view).as_str()) == ("bc", "d"));
    assert!(rt; (Six::e(view).as_str(), Six::f(view).as_str()) == ("e", "f"));
    Ok(())
}

#[test]
fn records_lie_in_lists_and_in_records(rt: HostRuntime) -> Result<(), Fail> {
    let alloc = rt.alloc();
    let pairs = [("a", b"b".as_slice()), ("cd", b"".as_slice())];
    let list = VarZeroVecOwned::<Pair<Index8>, Index16>::try_from_elements(alloc, &pairs)?;
    assert!(rt; list.as_bytes() == b"\x02\0\x03\0\x01ab\x02cd".as_slice());
    let Some(second) = list.get(1) else {
        panic!(rt; "there are two records");
    };
    assert!(rt; Pair::<Index8>::a(second).as_str() == "cd");

    type Outer = Tuple2VarULE<Pair<Index8>, StrULE, Index16>;
    let outer = (("a", b"b".as_slice()), "c");
    let written = is_written::<Outer, _>(&rt, alloc, &outer, b"\x03\0\x01abc")?;
    let inner = Outer::a(written.as_ref());
    assert!(rt; Pair::<Index8>::a(inner).as_str() == "a");
    Ok(())
}

// A record of an empty text and so many bytes is the longest of its format.
fn is_longest<F: VarZeroVecFormat>(rt: &impl Abort, alloc: Global, len: usize) -> Result<(), Fail> {
    let mut bytes = vec![in alloc; 7u8; len]?;
    let pair = VarRef::of_bytes(&bytes);
    assert!(rt; fits::<F>(pair));
    bytes.push(7)?;
    assert!(rt; !fits::<F>(VarRef::of_bytes(&bytes)));
    assert!(rt; MultiFieldsULE::<2, F>::compute_encoded_len_for([0, len]) == Some(F::W + len));
    assert!(rt; MultiFieldsULE::<2, F>::compute_encoded_len_for([1, len]) == None);
    Ok(())
}

// Whether a record of an empty text and these bytes has a spelling.
fn fits<F: VarZeroVecFormat>(bytes: VarRef<'_, SliceULE<u8>>) -> bool {
    let pair = ("", bytes);
    EncodeAsVarULE::<Pair<F>>::encode_var_ule_fits(&pair)
}

#[test]
fn a_record_is_shorter_than_its_largest_start(rt: HostRuntime) -> Result<(), Fail> {
    is_longest::<Index8>(&rt, rt.alloc(), 253)?;
    is_longest::<Index16>(&rt, rt.alloc(), 65_532)
}

#[test]
fn fields_are_written_one_by_one(rt: HostRuntime) -> Result<(), Fail> {
    type Three = MultiFieldsULE<3, Index8>;
    let mut record = [0; 6];
    Three::new_from_lengths_partially_initialized([1, 0, 3], &mut record);
    assert!(rt; record == [1, 1, 0, 0, 0, 0]);
    Three::set_field_at::<StrULE, _>(2, &"abc", &mut record);
    assert!(rt; record == [1, 1, 0, b'a', b'b', b'c']);
    Three::set_field_at::<StrULE, _>(0, &"d", &mut record);
    assert!(rt; record == [1, 1, b'd', b'a', b'b', b'c']);

    let view = VarRef::<'_, Three>::new(&record)?;
    assert!(rt; Three::as_bytes(view) == b"\x01\x01dabc".as_slice());
    assert!(rt; Three::validate_field::<SliceULE<CharULE>>(view, 0).is_err());
    assert!(rt; Three::validate_field::<StrULE>(view, 2).is_ok());
    assert!(rt; Three::get_field::<StrULE>(view, 2).as_str() == "abc");
    Ok(())
}

// Two records compare so.
fn compares<K: ZvOrd>(
    rt: &impl Abort,
    left: &[u8],
    right: &[u8],
    order: Ordering,
) -> Result<(), Fail>
    requires { IsTrue K.usable }
{
    let left = VarRef::<'_, K>::new(left)?;
    assert!(rt; left.order(VarRef::new(right)?) == order);
    Ok(())
}

#[test]
fn records_compare_by_the_first_field_that_differs(rt: HostRuntime) -> Result<(), Fail> {
    type Record = Tuple3VarULE<StrULE, SliceULE<u8>, VarZeroSliceULE<StrULE, Index8>, Index8>;
    compares::<Record>(&rt, b"\x01\x02ab", b"\x01\x02ac", Ordering::Less)?;
    compares::<Record>(&rt, b"\x01\x02bb", b"\x01\x02ac", Ordering::Greater)?;
    // The list of no text has two spellings.
    compares::<Record>(&rt, b"\x01\x02ab", b"\x01\x02ab\0", Ordering::Equal)
}
