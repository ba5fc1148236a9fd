// Composed elements.

use crate::json::{Cases, reads_elements, reads_values};
use std::num::NonZeroU8;
use std::test::Fail;
use zv_fixed::ZeroSliceULE;
use zv_multi::{Tuple2VarULE, Tuple3VarULE, Tuple4VarULE, Tuple5VarULE, Tuple6VarULE, VarTupleULE};
use zv_ule::{Index16, NichedOption, SliceULE, StrULE};
use zv_var::VarZeroSliceULE;

const PAIRS: Cases<'_> = r#"
Ok [[1,"a"],[1234901,"啊"]]
Shape [[1]]
Shape [[1,"a",2]]
Shape [1]
Shape [{}]
// the first part is read first
Range [[4294967296,7]]
Wide [[1.5,"ab"]]
"#;

const THREES: Cases<'_> = r#"
Ok [[0,0,0],[255,65535,4294967295]]
Shape [[1,2]]
Shape [[1,2,3,4]]
Shape [[1,"2",3]]
Range [[1,2,4294967296]]
"#;

// Arrays of two numbers, of two, of two, and of two characters.
const FOURS: Cases<'_> = r#"
Ok [[[0,65535],[0,4294967295],[0,18446744073709551615],["a","ω"]]]
Shape [[[1,2],[3,4],[5,6]]]
Shape [[[1,2],[3,4],[5,6],["a","b"],[]]]
Shape [[[1],[3,4],[5,6],["a","b"]]]
Shape [[[1,2],[3,4,4],[5,6],["a","b"]]]
Shape [[[1,2],[3,4],[5],["a","b"]]]
Shape [[[1,2],[3,4],[5,6],["a","b","c"]]]
Range [[[1,65536],[3,4],[5,6],["a","b"]]]
Range [[[1,2],[-1,4],[5,6],["a","b"]]]
Wide [[[1,2],[3,4],[5,18446744073709551616],["a","b"]]]
Range [[[1,2],[3,4],[5,6],["a","bc"]]]
Shape [[[1,2],[3,4],[5,6],[7,"b"]]]
Shape [[[1,2],{},[5,6],["a","b"]]]
// the first array is read before the second is counted
Range [[[65536,2],[3],[5,6],["a","b"]]]
"#;

const FIVES: Cases<'_> = r#"
Ok [[1,2,3,18446744073709551615,"ω"]]
Shape [[1,2,3,4]]
Shape [[1,2,3,4,"a",true]]
Range [[1,2,3,4,""]]
// the fourth part is read before the fifth
Range [[1,2,3,-1,5]]
"#;

const SIXES: Cases<'_> = r#"
Ok [[1,2,3,4,5,true]]
Shape [[1,2,3,4,5,6]]
"#;

const OPTIONS: Cases<'_> = r#"
Ok [null,7,0]
Ok [null]
Range [256]
Shape [[]]
"#;

const NICHES: Cases<'_> = r#"
Ok [null,7]
Range [0]
"#;

const ARRAYS: Cases<'_> = r#"
Ok [[1,2,3],[4,5,6]]
Shape [[1,2]]
Shape [[1,2,3,4]]
Range [[1,2,256]]
"#;

const NESTED: Cases<'_> = r#"
Ok [["a","bc"],[],[""]]
Shape ["a"]
Shape [["a"],[7]]
Shape [[[]]]
"#;

const SIZED: Cases<'_> = r#"
Ok [{"sized":1500,"variable":"hello"}]
Ok [{"variable":"","sized":0}] -> [{"sized":0,"variable":""}]
Shape [{"sized":1500}]
Shape [{"sized":1500,"variables":"hello"}]
Shape [{"size":70000,"variable":"hello"}]
Shape [{"sized":1,"variable":"a","x":1}]
Range [{"sized":70000,"variable":7}]
Shape [[1500,"hello"]]
"#;

const RECORDS: Cases<'_> = r#"
Ok [["a",[98]],["",[]]]
Shape [["a"]]
Shape [["a",[98],1]]
Shape [{"a":[98]}]
// how many there are is looked at first, and then one field after another
Shape [["a",[256],1]]
Shape [[7,[256]]]
Range [["a",[256]]]
"#;

const RECORDS3: Cases<'_> = r#"
Ok [["a",[98],[65535]],["",[],[]]]
Shape [["a",[98]]]
Shape [["a",[98],[1],2]]
Shape [["a",98,[1]]]
Range [["a",[98],[65536]]]
"#;

const RECORDS4: Cases<'_> = r#"
Ok [["a","","ω",[255]],["","","",[]]]
Shape [["a","b","c"]]
Shape [["a","b","c",[1],2]]
Shape [["a","b",7,[1]]]
Range [["a","b","c",[256]]]
"#;

const RECORDS5: Cases<'_> = r#"
Ok [["a","b","","ω",[1,65535]]]
Shape [["a","b","c","d"]]
Shape [["a","b","c","d",[1],2]]
Shape [["a","b","c",["d"],[1]]]
Range [["a","b","c","d",[65536]]]
"#;

const LONG_RECORDS: Cases<'_> = r#"
Ok [["a","b","c","d","e",[1,65535]]]
Range [["a","b","c","d","e",[65536]]]
"#;

#[test]
fn values_are_composed(rt: HostRuntime) -> Result<(), Fail> {
    let alloc = rt.alloc();
    reads_values::<(u32, char)>(&rt, alloc, PAIRS)?;
    reads_values::<(u8, i8, u16, i16, u32, bool)>(&rt, alloc, SIXES)?;
    reads_values::<Option<u8>>(&rt, alloc, OPTIONS)?;
    reads_values::<NichedOption<NonZeroU8, 1>>(&rt, alloc, NICHES)?;
    reads_values::<[u8; 3]>(&rt, alloc, ARRAYS)
}

type Arrays = ([u16; 2], [u32; 2], [u64; 2], [char; 2]);

#[test]
fn tuples_are_arrays_of_their_parts(rt: HostRuntime) -> Result<(), Fail> {
    let alloc = rt.alloc();
    reads_values::<(u8, u16, u32)>(&rt, alloc, THREES)?;
    reads_values::<Arrays>(&rt, alloc, FOURS)?;
    reads_values::<(u8, u16, u32, u64, char)>(&rt, alloc, FIVES)
}

type Pair = Tuple2VarULE<StrULE, SliceULE<u8>, Index16>;

type Six = Tuple6VarULE<StrULE, StrULE, StrULE, StrULE, StrULE, ZeroSliceULE<u16>, Index16>;

#[test]
fn records_are_arrays_of_their_fields(rt: HostRuntime) -> Result<(), Fail> {
    let alloc = rt.alloc();
    reads_elements::<Pair, Index16>(&rt, alloc, RECORDS)?;
    reads_elements::<Six, Index16>(&rt, alloc, LONG_RECORDS)
}

type Three = Tuple3VarULE<StrULE, SliceULE<u8>, ZeroSliceULE<u16>, Index16>;

type Four = Tuple4VarULE<StrULE, StrULE, StrULE, SliceULE<u8>, Index16>;

type Five = Tuple5VarULE<StrULE, StrULE, StrULE, StrULE, ZeroSliceULE<u16>, Index16>;

#[test]
fn records_have_three_to_five_fields(rt: HostRuntime) -> Result<(), Fail> {
    let alloc = rt.alloc();
    reads_elements::<Three, Index16>(&rt, alloc, RECORDS3)?;
    reads_elements::<Four, Index16>(&rt, alloc, RECORDS4)?;
    reads_elements::<Five, Index16>(&rt, alloc, RECORDS5)
}

#[test]
fn elements_of_any_length_are_composed(rt: HostRuntime) -> Result<(), Fail> {
    let alloc = rt.alloc();
    reads_elements::<VarZeroSliceULE<StrULE, Index16>, Index16>(&rt, alloc, NESTED)?;
    reads_elements::<VarTupleULE<u16, StrULE>, Index16>(&rt, alloc, SIZED)?;
    reads_elements::<SliceULE<u8>, Index16>(&rt, alloc, ARRAYS_OF_ANY_LENGTH)?;
    reads_elements::<ZeroSliceULE<u8>, Index16>(&rt, alloc, ARRAYS_OF_ANY_LENGTH)
}

const ARRAYS_OF_ANY_LENGTH: Cases<'_> = r#"
Ok [[1,2,3],[],[255]]
Shape [1]
Range [[256]]
"#;
