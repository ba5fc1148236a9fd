// Commands that lines are.
ghost use Rattle.std.specs.Prelude.{◌≡◌, ◌+◌, ◌≤◌, [], IfOk, IfSome, OnErr, OnOk};
ghost use Rattle.std.specs.Prelude.{drop, length, option_map, take};
ghost use Rattle.zv_input.specs.Input.{command_of_words, words};
ghost use Rattle.zv_input.specs.Shapes.{command_at, shape_size};

use crate::command_iter::CommandIter;
use crate::command_line::decode_between;
use crate::commands::MAX_COMMANDS;
use crate::shape::{Shape, shape_size};
use crate::sizes::PutSizes;
use std::alloc::Global;
use std::marker::Model;
use zv_ule::NoMemory;

/// Commands that lines are, in order. A command takes 16 bytes and those of its fields, which stand
/// one after another in one buffer, so that none takes memory of its own.
#[derive(Drop)]
pub struct CommandLines {
    shapes: Vec<Shape>,
    // The fields, and room behind them.
    bytes: Vec<u8>,
    end: usize,
    puts: PutSizes,
}

impl Model for CommandLines {
    ghost use Rattle.std.specs.Prelude.{List};
    ghost use Rattle.zv_input.specs.Lines.{AreKept};
    ghost use Rattle.zv_input.specs.Shapes.{commands_at};
    ghost use Rattle.zv_input.specs.declared.command.Command.{Command};

    ghost Value = { List Command };

    ghost view = { λ c. commands_at c.shapes.items c.bytes.items };

    ghost invariant = { λ c. AreKept c.shapes.items c.bytes.items c.end c.puts };
}

// Makes the bytes at least so many, and then at least twice as many as they were.
fn make_room(bytes: &mut Vec<u8>, len: usize) -> Result<(), NoMemory>
    ensures room { OnOk result (len ≤ length bytes.new.items) }
    ensures same { take (length bytes.old.items) bytes.new.items ≡ bytes.old.items }
    ensures longer { length bytes.old.items ≤ length bytes.new.items }
{
    let old = bytes.len();
    if len <= old {
        return Ok(());
    }
    bytes.resize(len.max(old.saturating_mul(2)), 0)?;
    Ok(())
}

// Writes the fields of a line's command from a place on, and says how long they are; `None` where
// the line is no command.
#[inline(always)]
fn decode_at(bytes: &mut Vec<u8>, start: usize, line: &[u8]) -> Result<Option<Shape>, NoMemory>
    requires within { start ≤ length bytes.old.items }
    requires small { start + length line.now ≤ MAX_COMMANDS }
    ensures command { IfOk result (λ o.
        option_map (λ s. command_at s (drop start bytes.new.items)) o
        ≡ command_of_words (words line.now)) }
    ensures room { IfOk result (λ o.
        IfSome o (λ s. start + shape_size s ≤ length bytes.new.items)) }
    ensures front { take start bytes.new.items ≡ take start bytes.old.items }
    ensures longer { start ≤ length bytes.new.items }
{
    let end = start + line.len() / 2 + 1;
    make_room(bytes, end)?;
    Ok(decode_between(line, bytes.as_mut_slice(), start, end))
}

impl CommandLines {
    ghost use Rattle.std.specs.Prelude.{IfOk, OnOk, OnErr};
    ghost use Rattle.zv_input.specs.Commands.{total_size};
    ghost use Rattle.zv_input.specs.Lines.{AddsCommand};
    ghost use Rattle.zv_input.specs.Sizes.{put_sizes, total_of};

    /// No commands. It takes no memory yet.
    pub fn new(alloc: Global) -> CommandLines
        ensures { result ≡ [] }
    {
        CommandLines {
            shapes: Vec::new(alloc),
            bytes: Vec::new(alloc),
            end: 0,
            puts: PutSizes::none(),
        }
    }

    /// Adds the command that a line is, or answers `false` where the line is none. Nothing is added
    /// after `NoMemory`.
    #[inline]
    pub fn add_line(&mut self, line: &[u8]) -> Result<bool, NoMemory>
        requires { total_size self.old + length line.now ≤ MAX_COMMANDS }
        ensures line { IfOk result (AddsCommand self.old line.now self.new) }
        ensures size { OnOk result (total_size self.new ≤ total_size self.old + length line.now) }
        ensures same { OnErr result (self.new ≡ self.old) }
    {
        let Some(shape) = decode_at(&mut self.bytes, self.end, line)? else {
            return Ok(false);
        };
        if self.shapes.push(shape).is_err() {
            return Err(NoMemory);
        }
        self.end += shape_size(shape);
        self.puts.add(shape);
        Ok(true)
    }

    /// The commands, in order.
    pub fn iter(&self) -> CommandIter<'_>
        ensures { result ≡ self.now }
    {
        CommandIter::of_shapes(&self.shapes, &self.bytes)
    }

    /// The sizes of the puts among them, which were added up as they came.
    #[tactic(auto, using(crate::proofs::SizesOfPuts::puts_within))]
    pub fn put_sizes(&self) -> PutSizes
        ensures sizes { result ≡ put_sizes self.now }
        ensures within { total_of result ≤ MAX_COMMANDS }
    {
        self.puts
    }
}
