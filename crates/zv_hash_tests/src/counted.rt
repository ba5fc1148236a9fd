// How often a look-up compares, counted by the key itself.
ghost use Rattle.std.specs.Prelude.{◌≡◌, ◌<◌};

use std::cell::Cell;
use std::cmp::Ordering;
use std::marker::Brand;
use std::process::Abort;
use std::sync::ledger::{Blank, Ledger};
use std::test::Fail;
use zv_hashmap::{HashArg, ZeroHashMap};
use zv_ule::{Steps, StrULE, ZvArg, ZvOrdArg};
use zv_xxhash::XxHash64;

// A number that counts how often it is compared.
#[derive(Drop)]
struct CountingKey<'c> {
    number: u32,
    count: &'c Cell<usize>,
}

impl ZvArg<u32> for CountingKey<'_> {
    ghost use Rattle.std.specs.Int.{to_le_bytes, w32};

    ghost bytes = { λ key. to_le_bytes w32 key.number };

    fn arg_len(&self) -> usize {
        self.number.arg_len()
    }

    fn arg_write(&self, out: &mut [u8]) {
        self.number.arg_write(out);
    }
}

impl ZvOrdArg<u32> for CountingKey<'_> {
    fn arg_compare<L: Ledger>(&self, element: &[u8], steps: &mut Steps<L>) -> Ordering {
        self.count.set(self.count.get().saturating_add(1));
        self.number.arg_compare(element, steps)
    }
}

impl HashArg<u32> for CountingKey<'_> {
    fn hash_arg(&self, hasher: &mut XxHash64) {
        self.number.hash_arg(hasher);
    }
}

// A counted look-up finds the key.
fn is_found<L: Ledger>(
    table: &ZeroHashMap<'_, u32, StrULE>,
    key: &CountingKey<'_>,
    blank: Blank,
) -> bool
    requires name { blank.name ≡ L.name }
    requires parts { blank.parts ≡ L.parts }
    requires some { 0 < blank.parts }
{
    let mut steps = Steps::<L>::start(blank);
    table.get_counted(key, &mut steps).is_some()
}

// A look-up of the number, counted or not, compares once at most, and finds it if it is wanted.
fn compares_once(rt: &impl Abort, table: &ZeroHashMap<'_, u32, StrULE>, number: u32, wanted: bool) {
    let count = Cell::new(0);
    let key = CountingKey {
        number,
        count: &count,
    };
    assert!(rt; table.get(&key).is_some() == wanted);
    assert!(rt; count.get() <= 1);
    count.set(0);
    assert!(rt; is_found::<Brand>(table, &key, Blank::new(1)) == wanted);
    assert!(rt; count.get() <= 1);
}

#[test]
fn a_look_up_compares_once(rt: HostRuntime) -> Result<(), Fail> {
    let pairs = [(0u32, "a"), (1, "b"), (2, "c")];
    let table = ZeroHashMap::<'_, u32, StrULE>::try_from_pairs(rt.alloc(), &pairs)?;
    for number in 0..10 {
        compares_once(&rt, &table, number, number < 3);
    }
    Ok(())
}
