// Commands, looked at one after another.
ghost use Rattle.std.specs.Prelude.{◌≡◌};

use crate::command::{Command, CommandRef};
use crate::shape::{Shape, command_at, shape_size};
use std::marker::Model;

/// The commands that are left to come, in order: those that are kept as such, and then those whose
/// fields stand one after another.
#[derive(Drop)]
pub struct CommandIter<'a> {
    commands: &'a [Command],
    shapes: &'a [Shape],
    bytes: &'a [u8],
}

impl<'a> Model for CommandIter<'a> {
    ghost use Rattle.std.specs.Prelude.{List, ◌++◌, ◌≤◌, length};
    ghost use Rattle.std.specs.List.{AllByRecursion};
    ghost use Rattle.zv_input.specs.Commands.{OfTexts};
    ghost use Rattle.zv_input.specs.Shapes.{commands_at, fields_size};
    ghost use Rattle.zv_input.specs.declared.command.Command.{Command};

    ghost Value = { List Command };

    ghost view = { λ i. i.commands.now ++ commands_at i.shapes.now i.bytes.now };

    ghost invariant = { λ i. (fields_size i.shapes.now ≤ length i.bytes.now)
        × AllByRecursion OfTexts (commands_at i.shapes.now i.bytes.now) };
}

impl<'a> CommandIter<'a> {
    ghost use Rattle.std.specs.Prelude.{◌≤◌, length};
    ghost use Rattle.std.specs.List.{AllByRecursion};
    ghost use Rattle.zv_input.specs.Commands.{OfTexts};
    ghost use Rattle.zv_input.specs.Shapes.{commands_at, fields_size};

    /// Those of a slice.
    pub(crate) fn of_commands(commands: &'a [Command]) -> CommandIter<'a>
        ensures { result ≡ commands.now }
    {
        CommandIter {
            commands,
            shapes: &[],
            bytes: &[],
        }
    }

    /// Those whose fields stand one after another at the front of bytes.
    pub(crate) fn of_shapes(shapes: &'a [Shape], bytes: &'a [u8]) -> CommandIter<'a>
        requires within { fields_size shapes.now ≤ length bytes.now }
        requires texts { AllByRecursion OfTexts (commands_at shapes.now bytes.now) }
        ensures { result ≡ commands_at shapes.now bytes.now }
    {
        CommandIter {
            commands: &[],
            shapes,
            bytes,
        }
    }
}

impl<'a> Iterator for CommandIter<'a> {
    ghost use Rattle.std.specs.Iterator.{YieldsFirstBy, item_count};
    ghost use Rattle.zv_input.specs.Views.{as_command};

    type Item = CommandRef<'a>;

    ghost next_gives = { YieldsFirstBy as_command (λ left. left) };

    ghost remaining = { item_count (λ left. left) };

    #[inline(always)]
    fn next(&mut self) -> Option<CommandRef<'a>> {
        if let [command, commands @ ..] = self.commands {
            self.commands = commands;
            return Some(command.as_ref());
        }
        let [shape, shapes @ ..] = self.shapes else {
            return None;
        };
        let command = command_at(*shape, self.bytes);
        self.shapes = shapes;
        self.bytes = &self.bytes[shape_size(*shape)..];
        Some(command)
    }
}
