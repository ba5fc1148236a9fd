// The bytes after the last whole stripe.
ghost use Rattle.std.specs.Prelude.{◌≡◌, ◌+◌, ◌<◌, List, [], ◌++◌, length};

use crate::lanes::STRIPE;
use std::marker::Model;

/// Fewer bytes than a stripe has.
#[derive(Drop)]
pub struct Pending {
    buffer: [u8; 32],
    len: usize,
}

impl Model for Pending {
    ghost use Rattle.std.specs.Prelude.{ℕ, ◌<◌, List, take};

    ghost Value = { List ℕ };

    ghost view = { λ p. take p.len p.buffer };

    ghost invariant = { λ p. p.len < 32 };
}

impl Pending {
    /// No bytes.
    #[inline(always)]
    pub fn new() -> Self
        ensures { result ≡ [] }
    {
        Pending {
            buffer: [0; 32],
            len: 0,
        }
    }

    /// How many bytes there are.
    #[inline(always)]
    pub fn len(&self) -> usize
        ensures len { result ≡ length self.now }
        ensures within { result < STRIPE }
    {
        self.len
    }

    /// The bytes.
    #[inline(always)]
    pub fn as_slice(&self) -> &[u8]
        ensures { result.now ≡ self.now }
    {
        &self.buffer[..self.len]
    }

    /// These bytes in place of the old ones.
    pub fn replace(&mut self, bytes: &[u8])
        requires { length bytes.now < STRIPE }
        ensures { self.new ≡ bytes.now }
    {
        self.buffer[..bytes.len()].copy_from_slice(bytes);
        self.len = bytes.len();
    }

    /// These bytes after the old ones.
    #[inline(always)]
    pub fn push(&mut self, bytes: &[u8])
        requires { length self.old + length bytes.now < STRIPE }
        ensures { self.new ≡ self.old ++ bytes.now }
    {
        let end = self.len + bytes.len();
        self.buffer[self.len..end].copy_from_slice(bytes);
        self.len = end;
    }

    /// The stripe that the bytes are the front of.
    pub fn completed(&self, back: &[u8]) -> [u8; 32]
        requires { length self.now + length back.now ≡ STRIPE }
        ensures { result ≡ self.now ++ back.now }
    {
        let mut stripe = self.buffer;
        stripe[self.len..].copy_from_slice(back);
        stripe
    }
}
