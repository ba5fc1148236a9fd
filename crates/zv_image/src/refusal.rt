// How an answer on an image ends, and what an image is refused with.
ghost use Rattle.std.specs.Prelude.{◌≡◌, IsTrue};
ghost use Rattle.zv_map2d.specs.Causes.{is_cause};
ghost use Rattle.zv_command.specs.Due.{Tells};
ghost use Rattle.zv_image.specs.Due.{cause_due, status_of};
ghost use Rattle.zv_image.specs.Text.{cause_line};

use zv_command::{Status, send};
use zv_devices::{Failed, Sink};
use zv_map2d::EditError;
use zv_ule::UleError;

// The line of a cause.
fn cause_text(cause: EditError) -> &'static [u8]
    requires { IsTrue (is_cause cause) }
    ensures { result.now ≡ cause_line cause }
{
    match cause {
        EditError::Frame => b"error frame\n",
        EditError::Ule(UleError::InvalidLength { .. }) => b"error length\n",
        EditError::Ule(UleError::ParseError { .. }) => b"error parse\n",
        EditError::Keys0Joiner => b"error keys0joiner\n",
        EditError::Keys1Values => b"error keys1values\n",
        EditError::JoinerOrder => b"error joinerorder\n",
        EditError::JoinerEnd => b"error joinerend\n",
        EditError::KeyOrder => b"error keyorder\n",
        EditError::Memory | EditError::Write => unreachable!(),
    }
}

/// Names the cause for which an image is refused.
pub fn refuse<K: Sink>(sink: &mut K, cause: EditError) -> Status
    requires { IsTrue (is_cause cause) }
    ensures { Tells K.taken K.faults sink.old sink.new result (cause_due cause) }
{
    send(sink, cause_text(cause), Status::BadImage)
}

/// The status of an answer that was written, or of which a write failed.
pub fn status_of(written: Result<(), Failed>) -> Status
    ensures { result ≡ status_of written }
{
    match written {
        Ok(()) => Status::Done,
        Err(Failed) => Status::WriteFault,
    }
}
