// A list of commands.
ghost use Rattle.std.specs.Prelude.{◌≡◌, [], ◌∷◌, ◌++◌, OnOk, OnErr, IfErr};
ghost use Rattle.std.specs.Vec.{VecUnchanged};

use crate::command::{Command, command_size};
use crate::command_iter::CommandIter;
use crate::sizes::PutSizes;
use std::alloc::Global;
use std::marker::Model;
use thiserror::Error;
use zv_ule::NoMemory;

/// The most that a list's commands come to: 1 for each, and the lengths of all their fields.
pub const MAX_COMMANDS: usize = 16_777_216;

/// Why a command isn't added.
#[derive(Clone, Copy, Debug, PartialEq, Eq, Error)]
pub enum CommandsError {
    /// The list would pass its limit.
    #[error("too many commands")]
    Full,
    /// No memory was given.
    #[error("out of memory")]
    Memory,
}

// Adds a command at the end.
#[inline(always)]
fn append(commands: &mut Vec<Command>, command: Command) -> Result<(), CommandsError>
    ensures ok { OnOk result (commands.new.items ≡ commands.old.items ++ command ∷ []) }
    ensures err { OnErr result (VecUnchanged commands.old commands.new) }
    ensures memory { IfErr result (λ e. e ≡ CommandsError.Memory) }
{
    match commands.push(command) {
        Ok(()) => Ok(()),
        Err(_) => Err(CommandsError::Memory),
    }
}

/// Commands, in order.
#[derive(Drop)]
pub struct Commands {
    commands: Vec<Command>,
    size: usize,
    puts: PutSizes,
}

impl Model for Commands {
    ghost use Rattle.std.specs.Prelude.{List, ◌≡◌, ◌≤◌};
    ghost use Rattle.std.specs.List.{AllByRecursion};
    ghost use Rattle.zv_input.specs.declared.command.Command.{Command};
    ghost use Rattle.zv_input.specs.Commands.{OfTexts, total_size};
    ghost use Rattle.zv_input.specs.Sizes.{put_sizes};

    ghost Value = { List Command };

    ghost view = { λ c. c.commands.items };

    ghost invariant = { λ c. (c.size ≡ total_size c.commands.items) × (c.size ≤ 16777216)
        × (c.puts ≡ put_sizes c.commands.items) × AllByRecursion OfTexts c.commands.items };
}

impl Commands {
    ghost use Rattle.std.specs.Prelude.{◌≡◌, ◌+◌, ◌<◌, ◌≤◌, ◌↔◌, [], ◌∷◌, ◌++◌, length, slice_get};
    ghost use Rattle.std.specs.Prelude.{IsTrue, OnOk, OnErr, IsErrOf};
    ghost use Rattle.std.specs.List.{AllByRecursion};
    ghost use Rattle.std.specs.Option.{option_copied};
    ghost use Rattle.zv_input.specs.Commands.{OfTexts, total_size, command_size};
    ghost use Rattle.zv_input.specs.Sizes.{put_sizes, total_of};

    /// No commands. It takes no memory yet.
    pub fn new(alloc: Global) -> Commands
        ensures { result ≡ [] }
    {
        Commands {
            commands: Vec::new(alloc),
            size: 0,
            puts: PutSizes::none(),
        }
    }

    /// Adds a command, where the list stays within [`MAX_COMMANDS`]. (It is inlined, so that a
    /// command is put together where it is kept.)
    #[tactic(auto, using(crate::proofs::SizesOfPuts::added_sizes))]
    #[inline(always)]
    pub fn push(&mut self, command: Command) -> Result<(), CommandsError>
        ensures ok { OnOk result (self.new ≡ self.old ++ command ∷ []) }
        ensures full { IsErrOf result CommandsError.Full
            ↔ (MAX_COMMANDS < total_size self.old + command_size command) }
        ensures err { OnErr result (self.new ≡ self.old) }
    {
        let size = command_size(&command);
        if size > MAX_COMMANDS - self.size {
            return Err(CommandsError::Full);
        }
        let mut puts = self.puts;
        puts.add_command(&command);
        append(&mut self.commands, command)?;
        self.size += size;
        self.puts = puts;
        Ok(())
    }

    /// Adds a command, for which the list has room.
    #[tactic(auto, using(crate::proofs::SizesOfPuts::added_sizes))]
    #[inline(always)]
    pub fn add(&mut self, command: Command) -> Result<(), NoMemory>
        requires { total_size self.old + command_size command ≤ MAX_COMMANDS }
        ensures ok { OnOk result (self.new ≡ self.old ++ command ∷ []) }
        ensures size { OnOk result
            (total_size self.new ≡ total_size self.old + command_size command) }
        ensures err { OnErr result (self.new ≡ self.old) }
    {
        match self.push(command) {
            Ok(()) => Ok(()),
            Err(CommandsError::Memory) => Err(NoMemory),
            Err(CommandsError::Full) => unreachable!(),
        }
    }

    /// How many commands there are.
    pub fn len(&self) -> usize
        ensures { result ≡ length self.now }
    {
        self.commands.len()
    }

    /// Whether there are none.
    pub fn is_empty(&self) -> bool
        ensures { IsTrue result ↔ (self.now ≡ []) }
    {
        self.commands.is_empty()
    }

    /// The command with a number, from 0.
    pub fn get(&self, i: usize) -> Option<&Command>
        ensures { option_copied result ≡ slice_get self.now i }
    {
        self.commands.get(i)
    }

    /// They, in order.
    pub fn iter(&self) -> CommandIter<'_>
        ensures { result ≡ self.now }
    {
        CommandIter::of_commands(&self.commands)
    }

    /// All of them. Their keys are texts.
    pub fn as_slice(&self) -> &[Command]
        ensures commands { result.now ≡ self.now }
        ensures texts { AllByRecursion OfTexts self.now }
    {
        &self.commands
    }

    /// The sizes of the puts among them, which were added up as they came.
    #[tactic(auto, using(crate::proofs::SizesOfPuts::puts_within))]
    pub fn put_sizes(&self) -> PutSizes
        ensures sizes { result ≡ put_sizes self.now }
        ensures within { total_of result ≤ MAX_COMMANDS }
    {
        self.puts
    }
}
