// How the program ends.
ghost use Rattle.std.specs.Prelude.{◌≡◌};
ghost use Rattle.zv_command.specs.Due.{code_of};

/// How the program ends, in the order of its checks.
#[derive(Clone, Copy, Debug, PartialEq, Eq)]
pub enum Status {
    /// The input was read to its end and answered.
    Done,
    /// The words are no command form. The source wasn't read.
    Usage,
    /// The source failed. Nothing was written.
    ReadFault,
    /// The input has more than 16,777,216 bytes. Nothing was written.
    TooLong,
    /// A line is bad, and the first such line was named.
    BadLine,
    /// The image is refused, and the first cause was named.
    BadImage,
    /// No memory was given. Nothing was written.
    Memory,
    /// The sink failed, with only a front of the text taken.
    WriteFault,
}

impl Status {
    /// The number that the program ends with, from 0 to 7 in the order of the variants.
    pub fn code(self) -> u8
        ensures { result ≡ code_of self }
    {
        self as u8
    }
}
