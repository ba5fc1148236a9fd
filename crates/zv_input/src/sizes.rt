// What puts take.
ghost use Rattle.std.specs.Prelude.{◌≡◌, ◌+◌, ◌≤◌, ℕ, List, length};
ghost use Rattle.zv_input.specs.Shapes.{command_at, shape_size};
ghost use Rattle.zv_input.specs.Sizes.{all_puts, no_puts, sizes_of, total_of};

use crate::command::Command;
use crate::commands::MAX_COMMANDS;
use crate::shape::Shape;

/// How many puts there are among commands, and how long their elements are.
#[derive(Clone, Copy)]
pub struct PutSizes {
    /// How long the first keys are together.
    pub keys0: usize,
    /// How long the second keys are together.
    pub keys1: usize,
    /// How long the values are together.
    pub values: usize,
    /// How many puts there are.
    pub puts: usize,
}

impl PutSizes {
    /// Those of no puts.
    pub(crate) fn none() -> PutSizes
        ensures { result ≡ no_puts }
    {
        PutSizes {
            keys0: 0,
            keys1: 0,
            values: 0,
            puts: 0,
        }
    }

    // Adds those of a put whose elements are so long.
    #[inline(always)]
    fn add_put(&mut self, key0: usize, key1: usize, value: usize)
        requires { total_of self.old + key0 + key1 + value + 1 ≤ MAX_COMMANDS }
        ensures { self.new ≡ all_puts self.old
            (record { keys0 = key0; keys1 = key1; values = value; puts = 1 }) }
    {
        self.keys0 += key0;
        self.keys1 += key1;
        self.values += value;
        self.puts += 1;
    }

    /// Adds those of a command.
    pub(crate) fn add_command(&mut self, command: &Command)
        requires { total_of (all_puts self.old (sizes_of command.now)) ≤ MAX_COMMANDS }
        ensures { self.new ≡ all_puts self.old (sizes_of command.now) }
    {
        if let Command::Put { key0, key1, value } = command {
            self.add_put(key0.len(), key1.len(), value.len());
        }
    }

    /// Adds those of a command of this shape.
    #[inline(always)]
    pub(crate) fn add(&mut self, shape: Shape)
        requires { total_of self.old + shape_size shape + 1 ≤ MAX_COMMANDS }
        ensures { (bytes : List ℕ) → shape_size shape ≤ length bytes
            → self.new ≡ all_puts self.old (sizes_of (command_at shape bytes)) }
    {
        if let Shape::Put { key0, key1, value } = shape {
            self.add_put(key0 as usize, key1 as usize, value as usize);
        }
    }
}
