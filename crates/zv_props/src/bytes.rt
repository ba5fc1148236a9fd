// The bytes of a table, which are borrowed until the first change.
ghost use Rattle.std.specs.Prelude.{◌≡◌, ◌+◌, ◌≤◌, ◌++◌, length, take, drop, OnOk, OnErr, IfOk};
ghost use Rattle.std.specs.List.{splice};
ghost use Rattle.zv_props.specs.Contents.{bytes_in};

use std::alloc::Global;
use zv_bytes::copy_bytes;
use zv_ule::NoMemory;

/// Bytes that lie elsewhere, or in memory that is freed with them.
#[derive(Drop)]
pub enum TableBytes<'a> {
    /// Bytes that lie elsewhere.
    Borrowed(&'a [u8]),
    /// Bytes of its own.
    Owned(Vec<u8>),
}

impl TableBytes<'_> {
    /// The bytes.
    #[inline]
    pub(crate) fn bytes(&self) -> &[u8]
        ensures { result.now ≡ bytes_in self.now }
    {
        match self {
            TableBytes::Borrowed(bytes) => bytes,
            TableBytes::Owned(bytes) => bytes.as_slice(),
        }
    }

    /// Puts bytes in place of those from one place up to another. Owned bytes stay where they are
    /// if there is room, and those behind are moved once; borrowed ones are copied.
    pub(crate) fn replace(
        &mut self,
        alloc: Global,
        start: usize,
        end: usize,
        added: &[u8],
    ) -> Result<(), NoMemory>
        requires order { start ≤ end }
        requires place { end ≤ length (bytes_in self.old) }
        ensures ok { OnOk result (bytes_in self.new
            ≡ splice (bytes_in self.old) start end added.now) }
        ensures err { OnErr result (bytes_in self.new ≡ bytes_in self.old) }
    {
        match self {
            TableBytes::Borrowed(bytes) => {
                *self = TableBytes::Owned(joined(alloc, &bytes[..start], added, &bytes[end..])?);
            }
            TableBytes::Owned(bytes) => {
                fit_gap(bytes, start, end, added.len())?;
                bytes[start..start + added.len()].copy_from_slice(added);
            }
        }
        Ok(())
    }
}

/// Three byte strings, one after another.
fn joined(alloc: Global, first: &[u8], second: &[u8], third: &[u8]) -> Result<Vec<u8>, NoMemory>
    ensures { IfOk result (λ v. v.items ≡ first.now ++ (second.now ++ third.now)) }
{
    let len = first
        .len()
        .saturating_add(second.len())
        .saturating_add(third.len());
    let mut bytes = Vec::with_capacity(alloc, len)?;
    bytes.extend_from_slice(first)?;
    bytes.extend_from_slice(second)?;
    bytes.extend_from_slice(third)?;
    Ok(bytes)
}

/// Moves the bytes behind a place so that there are `count` from the start up to them, which may be
/// anything.
fn fit_gap(bytes: &mut Vec<u8>, start: usize, end: usize, count: usize) -> Result<(), NoMemory>
    requires order { start ≤ end }
    requires place { end ≤ length bytes.old.items }
    ensures front { OnOk result (take start bytes.new.items ≡ take start bytes.old.items) }
    ensures back { OnOk result (drop (start + count) bytes.new.items ≡ drop end bytes.old.items) }
    ensures long { OnOk result (start + count ≤ length bytes.new.items) }
    ensures err { OnErr result (bytes.new.items ≡ bytes.old.items) }
{
    let len = bytes.len();
    let to = start.checked_add(count).ok_or(NoMemory)?;
    if end < to {
        bytes.resize(len.checked_add(to - end).ok_or(NoMemory)?, 0)?;
        copy_bytes(bytes, end, len, to);
    } else if to < end {
        copy_bytes(bytes, end, len, to);
        bytes.truncate(len - (end - to));
    }
    Ok(())
}
