// Where the chunks of a list lie.
ghost use Rattle.std.specs.Prelude.{◌≡◌, ◌*◌, ◌≤◌, length, slice_range, None, IsTrue};
ghost use Rattle.zv_ule.specs.Chunks.{chunks_fault, chunks_of};
ghost use Rattle.zv_ule.specs.Fixed.{is_width};

use zv_ule::ULE;

/// Where the chunk at a place starts, or where all of them end.
#[inline]
#[tactic(auto, using(crate::proofs::ChunkEdits::start_within))]
pub fn start_of<U: ULE>(bytes: &[u8], index: usize) -> usize
    requires usable { IsTrue (is_width U.width) }
    requires within { index ≤ length (chunks_of U.width bytes.now) }
    ensures start { result ≡ index * U.width }
    ensures within { result ≤ length bytes.now }
{
    let _len = bytes.len();
    index * U::size()
}

/// The bytes of the chunks from one place up to another.
#[inline]
pub fn chunks_between<U: ULE>(bytes: &[u8], start: usize, end: usize) -> &[u8]
    requires usable { IsTrue (is_width U.width) }
    requires spells { chunks_fault U.TY U.width U.chunk_fault bytes.now ≡ None }
    requires order { start ≤ end }
    requires within { end ≤ length (chunks_of U.width bytes.now) }
    ensures same { result.now ≡ slice_range bytes.now (start * U.width) (end * U.width) }
    ensures chunks { chunks_of U.width result.now
        ≡ slice_range (chunks_of U.width bytes.now) start end }
    ensures spells { chunks_fault U.TY U.width U.chunk_fault result.now ≡ None }
{
    let from = start_of::<U>(bytes, start);
    let to = start_of::<U>(bytes, end);
    &bytes[from..to]
}
