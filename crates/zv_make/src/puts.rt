// The puts of a made table.
ghost use Rattle.std.specs.Prelude.{◌≡◌, [], ◌∷◌, ◌++◌, IfOk, OnOk};
ghost use Rattle.std.specs.Fmt.{decimal};
ghost use Rattle.zv_make.specs.Puts.{put_of, puts};

use std::alloc::Global;
use zv_input::{Command, Commands, KeyText, ValueBytes};
use zv_ule::NoMemory;

/// The most puts that words ask for.
pub const MAX_PUTS: u16 = 4000;

// A letter and a number in decimal, as a key.
fn key(alloc: Global, letter: &str, number: u16) -> Result<KeyText, NoMemory>
    ensures { IfOk result (λ key. key ≡ letter.now ++ decimal number) }
{
    let text = format!(in alloc; "{letter}{number}")?;
    KeyText::new(alloc, text.as_str())
}

// The put of a number.
fn put_of(alloc: Global, number: u16) -> Result<Command, NoMemory>
    ensures { IfOk result (λ put. put ≡ put_of number) }
{
    Ok(Command::Put {
        key0: key(alloc, "r", number % 64)?,
        key1: key(alloc, "k", number)?,
        value: ValueBytes::new(alloc, &number.to_le_bytes())?,
    })
}

// Adds a command. (All puts together are far smaller than the largest list.)
fn keep(commands: &mut Commands, command: Command) -> Result<(), NoMemory>
    ensures { OnOk result (commands.new ≡ commands.old ++ command ∷ []) }
{
    commands.push(command).map_err(|_| NoMemory)
}

/// The first puts.
pub(crate) fn puts(alloc: Global, count: u16) -> Result<Commands, NoMemory>
    ensures { IfOk result (λ commands. commands ≡ puts count) }
{
    let mut commands = Commands::new(alloc);
    let mut number = 7;
    for turn in 0..count {
        keep(&mut commands, put_of(alloc, number)?)?;
        number = (5 * number + 3) % 4096;
    }
    Ok(commands)
}
