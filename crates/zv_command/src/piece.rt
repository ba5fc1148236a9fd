// The bytes of one write.
use crate::digits::encode_to;
use std::marker::Model;

// The most bytes that are written at once.
const PIECE: usize = 4096;

/// Up to 4096 bytes, in place.
#[derive(Drop)]
pub struct Piece {
    bytes: [u8; PIECE],
    len: usize,
}

impl Model for Piece {
    ghost use Rattle.std.specs.Prelude.{List, ℕ, ◌≤◌, take};

    ghost Value = { List ℕ };

    ghost view = { λ p. take p.len p.bytes };

    ghost invariant = { λ p. p.len ≤ 4096 };
}

impl Piece {
    ghost use Rattle.std.specs.Prelude.{◌≡◌, ◌+◌, ◌*◌, ◌≤◌, [], ◌++◌, length};
    ghost use Rattle.hex.specs.Hex.{encode_lower};

    /// No bytes.
    pub fn new() -> Piece
        ensures { result ≡ [] }
    {
        Piece {
            bytes: [0; PIECE],
            len: 0,
        }
    }

    /// How many bytes more there is room for.
    pub fn room(&self) -> usize
        ensures { length self.now + result ≡ 4096 }
    {
        PIECE - self.len
    }

    /// The bytes that were added.
    pub fn as_slice(&self) -> &[u8]
        ensures { result.now ≡ self.now }
    {
        &self.bytes[..self.len]
    }

    /// Takes all bytes out.
    pub fn clear(&mut self)
        ensures { self.new ≡ [] }
    {
        self.len = 0;
    }

    /// Adds bytes, for which there is room.
    #[inline(always)]
    pub fn push(&mut self, bytes: &[u8])
        requires { length self.old + length bytes.now ≤ 4096 }
        ensures { self.new ≡ self.old ++ bytes.now }
    {
        let end = self.len + bytes.len();
        self.bytes[self.len..end].copy_from_slice(bytes);
        self.len = end;
    }

    /// Adds the hex digits of bytes, for which there is room.
    #[inline]
    pub fn push_hex(&mut self, bytes: &[u8])
        requires { length self.old + 2 * length bytes.now ≤ 4096 }
        ensures { self.new ≡ self.old ++ encode_lower bytes.now }
    {
        let end = self.len + 2 * bytes.len();
        encode_to(bytes, &mut self.bytes[self.len..end]);
        self.len = end;
    }
}
