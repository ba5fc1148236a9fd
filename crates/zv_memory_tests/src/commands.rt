// Lists of commands.
use std::alloc::Global;
use std::process::Abort;
use std::test::Fail;
use zv_input::{Command, CommandLines, CommandRef, Commands, CommandsError, KeyText};
use zv_ule::NoMemory;

// Adds a command of a key that takes memory. It is refused for want of memory alone.
fn push(rt: &impl Abort, alloc: Global, commands: &mut Commands) -> Result<(), NoMemory> {
    let key0 = KeyText::new(alloc, "a key of more than twelve bytes")?;
    match commands.push(Command::Row { key0 }) {
        Ok(()) => Ok(()),
        Err(CommandsError::Memory) => Err(NoMemory),
        Err(CommandsError::Full) => panic!(rt; "the list is full"),
    }
}

#[test]
fn commands_are_as_they_were(rt: HostRuntime) -> Result<(), Fail> {
    let alloc = rt.alloc();
    let mut commands = Commands::new(alloc);
    for count in 0..20usize {
        let made = push(&rt, alloc, &mut commands);
        let wanted = if made.is_ok() {
            count.saturating_add(1)
        } else {
            count
        };
        assert!(&rt; commands.len() == wanted);
        made?;
    }
    Ok(())
}

// Whether the first command is the put of a pair, and no other follows.
fn is_put_alone(commands: &CommandLines) -> bool {
    let mut left = commands.iter();
    let first = match left.next() {
        Some(CommandRef::Put { key0, key1, value }) => {
            key0 == "a" && key1 == "a key of more than twelve bytes" && value == [1].as_slice()
        }
        _ => false,
    };
    first && left.next().is_none()
}

#[test]
fn lines_are_as_they_were(rt: HostRuntime) -> Result<(), Fail> {
    let alloc = rt.alloc();
    let mut commands = CommandLines::new(alloc);
    let put = b"put x61 x61206b6579206f66206d6f7265207468616e207477656c7665206279746573 x01";
    assert!(&rt; commands.add_line(put)?);
    assert!(&rt; is_put_alone(&commands));
    assert!(&rt; !commands.add_line(b"put x61 x61 x0")?);
    assert!(&rt; is_put_alone(&commands));
    let more = commands.add_line(b"row x61");
    assert!(&rt; is_put_alone(&commands) == more.is_err());
    assert!(&rt; more?);
    assert!(&rt; commands.iter().count() == 2);
    Ok(())
}
