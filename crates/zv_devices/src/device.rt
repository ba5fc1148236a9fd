// Where bytes come from and go to.
ghost use Rattle.std.specs.Prelude.{List, ℕ};
ghost use Rattle.std.specs.Io.{ReadsAtMost};
ghost use Rattle.std.specs.Io.KnownBytes.{ReadConsumes};
ghost use Rattle.std.specs.declared.option.Option.{Option};
ghost use Rattle.zv_devices.specs.Devices.{HasCause, Takes};

use thiserror::Error;

/// A device failed. Its count of faults rose with it.
#[derive(Clone, Copy, Debug, PartialEq, Eq, Error)]
#[error("the device failed")]
pub struct Failed;

/// What gives bytes.
///
/// Proofs see of a source the bytes that are left, where it tells them, and a count of faults that
/// never falls.
pub trait Source {
    /// The bytes that are left, where the source tells them.
    ghost left: { Self → Option (List ℕ) };

    /// How often the source failed. The count stops at the last value of a u64.
    ghost faults: { Self → ℕ };

    /// Puts the next bytes at the front of `buf`, and answers how many. None into a buffer that
    /// isn't empty is the end. A read that fails loses no byte.
    fn read(&mut self, buf: &mut [u8]) -> Result<usize, Failed>
        ensures bound { ReadsAtMost result buf.new }
        ensures bytes { ReadConsumes (left self.old) (left self.new) result buf.new }
        ensures cause { HasCause (faults self.old) (faults self.new) result };
}

/// What takes bytes.
///
/// Proofs see of a sink the bytes that it took, where it tells them, and a count of faults that
/// never falls.
pub trait Sink {
    /// The bytes that were taken, where the sink tells them.
    ghost taken: { Self → Option (List ℕ) };

    /// How often the sink failed. The count stops at the last value of a u64.
    ghost faults: { Self → ℕ };

    /// Takes the whole piece, or fails with only a front of it taken.
    fn write(&mut self, piece: &[u8]) -> Result<(), Failed>
        ensures bytes { Takes (taken self.old) (taken self.new) result piece.now }
        ensures cause { HasCause (faults self.old) (faults self.new) result };
}
