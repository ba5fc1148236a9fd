// The image in the answer of an edit.
ghost use Rattle.std.specs.Prelude.{◌≡◌, ℕ, List, ◌++◌, IfSome};
ghost use Rattle.zv_image.specs.Text.{image_line};

use memchr::memrchr;
use std::alloc::Global;

/// The image whose line ends an answer, or `None` where no image's line does, or where no memory
/// was given.
pub(crate) fn read_image(alloc: Global, answer: &[u8]) -> Option<Vec<u8>>
    ensures { IfSome result (λ read. (front image : List ℕ) →
        answer.now ≡ front ++ image_line image → read.items ≡ image) }
{
    let mark = memrchr(b'x', answer)?;
    let digits = answer[mark + 1..].strip_suffix(b"\n")?;
    match hex::decode(alloc, digits) {
        Ok(image) => Some(image),
        Err(_) => None,
    }
}
