// The answer on its way to a sink, piece by piece.
ghost use Rattle.std.specs.Prelude.{◌≡◌, ◌<◌, ◌≤◌, [], ◌++◌, length, OnOk};
ghost use Rattle.hex.specs.Hex.{encode_lower};
ghost use Rattle.zv_command.specs.Sending.{Sends};

use crate::digits::encode_to;
use crate::piece::Piece;
use zv_devices::{Failed, Sink};

// How many bytes are added as hex at once.
const FEW: usize = 64;

/// Text on its way to a sink. It waits until it makes a whole piece of 4096 bytes, which is then
/// one write, or until it is sent. After a failed write it is of no more use.
#[derive(Drop)]
pub struct Output<'s, K> {
    /// Where it goes.
    pub sink: &'s mut K,
    /// What waits.
    pub piece: Piece,
}

impl<'s, K: Sink> Output<'s, K> {
    /// No text yet.
    pub fn new(sink: &'s mut K) -> Self
        ensures same { result.sink.ghost_name ≡ sink.entry.ghost_name }
        ensures sink { result.sink.now ≡ sink.old }
        ensures empty { result.piece ≡ [] }
    {
        Output {
            sink,
            piece: Piece::new(),
        }
    }

    /// Sends what waits, if anything does.
    pub fn send(&mut self) -> Result<(), Failed>
        ensures text { Sends K.taken K.faults self.old self.new result [] }
        ensures empty { OnOk result (self.new.piece ≡ []) }
    {
        if self.piece.as_slice().is_empty() {
            return Ok(());
        }
        self.sink.write(self.piece.as_slice())?;
        self.piece.clear();
        Ok(())
    }

    // Sends what waits where that is a whole piece, so that there is room for a byte.
    fn make_room(&mut self) -> Result<(), Failed>
        ensures text { Sends K.taken K.faults self.old self.new result [] }
        ensures room { OnOk result (length self.new.piece < 4096) }
    {
        if self.piece.room() == 0 {
            self.send()?;
        }
        Ok(())
    }

    /// Adds a text: straight where there is room for it.
    #[tactic(auto, using(crate::proofs::Sending::sends_later))]
    #[inline(always)]
    pub fn write(&mut self, text: &[u8]) -> Result<(), Failed>
        ensures { Sends K.taken K.faults self.old self.new result text.now }
    {
        if text.len() > self.piece.room() {
            return self.write_pieces(text);
        }
        self.piece.push(text);
        Ok(())
    }

    // The same in pieces.
    #[tactic(auto, using(crate::proofs::Sending::sends_more))]
    #[inline(never)]
    fn write_pieces(&mut self, text: &[u8]) -> Result<(), Failed>
        ensures { Sends K.taken K.faults self.old self.new result text.now }
    {
        let mut rest = text;
        while !rest.is_empty() {
            self.make_room()?;
            let (front, after) = rest.split_at(rest.len().min(self.piece.room()));
            self.piece.push(front);
            rest = after;
        }
        Ok(())
    }

    // Adds the hex digits of a few bytes: straight where there is room for all of them.
    fn write_few(&mut self, bytes: &[u8]) -> Result<(), Failed>
        requires { length bytes.now ≤ FEW }
        ensures { Sends K.taken K.faults self.old self.new result (encode_lower bytes.now) }
    {
        if 2 * bytes.len() <= self.piece.room() {
            self.piece.push_hex(bytes);
            return Ok(());
        }
        let mut digits = [0u8; 2 * FEW];
        let digits = &mut digits[..2 * bytes.len()];
        encode_to(bytes, digits);
        self.write(digits)
    }

    /// Adds the hex digits of bytes.
    #[tactic(auto, using(crate::proofs::PartTexts::digits_sent))]
    pub fn write_hex(&mut self, bytes: &[u8]) -> Result<(), Failed>
        ensures { Sends K.taken K.faults self.old self.new result (encode_lower bytes.now) }
    {
        let mut rest = bytes;
        while !rest.is_empty() {
            let (few, after) = rest.split_at(rest.len().min(FEW));
            self.write_few(few)?;
            rest = after;
        }
        Ok(())
    }

    // The same in pieces.
    #[tactic(auto, using(crate::proofs::Sending::sends_more))]
    #[inline(never)]
    fn write_long_field(&mut self, head: &[u8], bytes: &[u8]) -> Result<(), Failed>
        ensures { Sends K.taken K.faults self.old self.new result
            (head.now ++ encode_lower bytes.now) }
    {
        self.write(head)?;
        self.write_hex(bytes)
    }

    /// Adds a head, which ends with the mark of a field, and the hex digits of the field's bytes:
    /// straight where they are few and there is room for all of them.
    #[inline(always)]
    pub fn write_field(&mut self, head: &[u8], bytes: &[u8]) -> Result<(), Failed>
        ensures { Sends K.taken K.faults self.old self.new result
            (head.now ++ encode_lower bytes.now) }
    {
        let room = self.piece.room();
        if head.len() > FEW || bytes.len() > FEW || head.len() + 2 * bytes.len() > room {
            return self.write_long_field(head, bytes);
        }
        self.piece.push(head);
        self.piece.push_hex(bytes);
        Ok(())
    }
}
