// The fields at the head of a list of elements of any length.
ghost use Rattle.std.specs.Prelude.{◌≡◌, ◌-◌, ◌^◌, ◌<◌, length};
ghost use Rattle.zv_ule.specs.Bytes.{le, number};

use crate::format::VarZeroVecFormat;
use crate::format::integer::{read_number, write_number};

/// Reads a start.
#[inline]
pub fn read_start<F: VarZeroVecFormat>(field: &[u8]) -> usize
    requires { length field.now ≡ F.W }
    ensures value { result ≡ number field.now }
    ensures bound { result < 2 ^ 32 }
{
    read_number::<F::Index>(field)
}

/// Reads a count.
#[inline]
pub fn read_count<F: VarZeroVecFormat>(field: &[u8]) -> usize
    requires { length field.now ≡ F.W }
    ensures value { result ≡ number field.now }
    ensures bound { result < 2 ^ 32 }
{
    read_number::<F::Len>(field)
}

/// Writes a start over the whole of `field`.
#[inline]
pub fn write_start<F: VarZeroVecFormat>(n: usize, field: &mut [u8])
    requires whole { length field.old ≡ F.W }
    requires fits { n < 256 ^ F.W }
    ensures { field.new ≡ le F.W n }
{
    write_number::<F::Index>(n, field);
}

/// Writes a count over the whole of `field`.
#[inline]
pub fn write_count<F: VarZeroVecFormat>(n: usize, field: &mut [u8])
    requires whole { length field.old ≡ F.W }
    requires fits { n < 256 ^ F.W }
    ensures { field.new ≡ le F.W n }
{
    write_number::<F::Len>(n, field);
}
