//! What the lines of an input are: words, fields in hexadecimal digits, and commands.
//!
//! The commands of lines are kept in two buffers. A command that is made by hand owns its fields,
//! of which short ones stand inside it.
#![tactic(auto)]

mod command;
mod command_iter;
mod command_line;
mod command_lines;
mod commands;
mod compact;
mod digits;
mod field;
mod lines;
mod numbers;
mod shape;
mod sizes;

pub use command::{Command, CommandRef, KeyText, ValueBytes};
pub use command_iter::CommandIter;
pub use command_lines::CommandLines;
pub use commands::{Commands, CommandsError, MAX_COMMANDS};
pub use field::{read_field, read_key};
pub use lines::split_at_byte;
pub use numbers::read_number;
pub use sizes::PutSizes;
