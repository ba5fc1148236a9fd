// A command and its fields.
ghost use Rattle.std.specs.Prelude.{◌≡◌, ◌-◌, ◌^◌, min};
ghost use Rattle.zv_input.specs.Commands.{OfTexts, command_size};

use crate::compact::{BYTES, CompactBytes, TEXT};

/// The text of a key. Short texts stand in place and take no memory.
pub type KeyText = CompactBytes<TEXT>;

/// The bytes of a value. Few bytes stand in place and take no memory.
pub type ValueBytes = CompactBytes<BYTES>;

/// What a line asks of the map: its first keys are `key0`, its second keys `key1`.
#[derive(Drop)]
pub enum Command {
    /// The value of a pair of keys.
    Get {
        key0: KeyText,
        key1: KeyText,
    },
    /// A value for a pair of keys, new or in place of the one that the pair has.
    Put {
        key0: KeyText,
        key1: KeyText,
        value: ValueBytes,
    },
    /// The removal of a pair of keys.
    Del {
        key0: KeyText,
        key1: KeyText,
    },
    /// All pairs of a first key.
    Row {
        key0: KeyText,
    },
}

/// A command that is looked at where it stands.
#[derive(Clone, Copy)]
pub enum CommandRef<'a> {
    /// As [`Command::Get`].
    Get {
        key0: &'a str,
        key1: &'a str,
    },
    /// As [`Command::Put`].
    Put {
        key0: &'a str,
        key1: &'a str,
        value: &'a [u8],
    },
    /// As [`Command::Del`].
    Del {
        key0: &'a str,
        key1: &'a str,
    },
    /// As [`Command::Row`].
    Row {
        key0: &'a str,
    },
}

// Three fields of 16 bytes, and which command it is.
const _: () = prove!(size_of::<Command>() == 56);

/// 1 and the lengths of a command's fields, which stops at the last value of a `usize`.
#[tactic(auto, using(crate::proofs::Texts::text_tests))]
pub(crate) fn command_size(command: &Command) -> usize
    ensures size { result ≡ min (command_size command.now) (2 ^ 64 - 1) }
    ensures texts { OfTexts command.now }
{
    let fields = match command {
        Command::Get { key0, key1 } | Command::Del { key0, key1 } => {
            key0.len().saturating_add(key1.len())
        }
        Command::Put { key0, key1, value } => key0
            .len()
            .saturating_add(key1.len())
            .saturating_add(value.len()),
        Command::Row { key0 } => key0.len(),
    };
    fields.saturating_add(1)
}

impl Command {
    ghost use Rattle.std.specs.Prelude.{◌≡◌};
    ghost use Rattle.zv_input.specs.Views.{as_command};

    /// A look at the command.
    pub(crate) fn as_ref(&self) -> CommandRef<'_>
        ensures { as_command result ≡ self.now }
    {
        match self {
            Command::Get { key0, key1 } => CommandRef::Get {
                key0: key0.as_str(),
                key1: key1.as_str(),
            },
            Command::Put { key0, key1, value } => CommandRef::Put {
                key0: key0.as_str(),
                key1: key1.as_str(),
                value: value.as_bytes(),
            },
            Command::Del { key0, key1 } => CommandRef::Del {
                key0: key0.as_str(),
                key1: key1.as_str(),
            },
            Command::Row { key0 } => CommandRef::Row {
                key0: key0.as_str(),
            },
        }
    }
}
