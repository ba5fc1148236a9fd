// Numbers of bytes, and the primes.
ghost use Rattle.std.specs.Prelude.{◌≡◌, ◌≤◌, length};
ghost use Rattle.zv_xxhash.specs.Digest.{half_word, word};

pub const PRIME_1: u64 = 0x9E37_79B1_85EB_CA87;

pub const PRIME_2: u64 = 0xC2B2_AE3D_27D4_EB4F;

pub const PRIME_3: u64 = 0x1656_67B1_9E37_79F9;

pub const PRIME_4: u64 = 0x85EB_CA77_C2B2_AE63;

pub const PRIME_5: u64 = 0x27D4_EB2F_1656_67C5;

/// The number of the first eight bytes.
#[inline(always)]
pub fn read_word(bytes: &[u8]) -> u64
    requires { 8 ≤ length bytes.now }
    ensures { result ≡ word bytes.now }
{
    u64::from_le_bytes([
        bytes[0], bytes[1], bytes[2], bytes[3], bytes[4], bytes[5], bytes[6], bytes[7],
    ])
}

/// The number of the first four bytes.
#[inline(always)]
pub fn read_half_word(bytes: &[u8]) -> u64
    requires { 4 ≤ length bytes.now }
    ensures { result ≡ half_word bytes.now }
{
    u64::from(u32::from_le_bytes([bytes[0], bytes[1], bytes[2], bytes[3]]))
}
