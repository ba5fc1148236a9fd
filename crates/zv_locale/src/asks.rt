// The form `locale`: lines that ask for what a map has for a wanted text.
ghost use Rattle.std.specs.Prelude.{◌≡◌, ◌≤◌, ◌+◌, [], ◌∷◌, ◌++◌, IfOk, OnOk, option_map};
ghost use Rattle.zv_input.specs.Commands.{command_size, total_size};
ghost use Rattle.zv_input.specs.Input.{three_words, words};
ghost use Rattle.zv_locale.specs.Asks.{IsAsk, ask_of, asked, wanted_text};

use crate::replies::tell;
use crate::wanted::Wanted;
use std::alloc::Global;
use std::marker::Model;
use zv_command::{Request, Status};
use zv_devices::Sink;
use zv_image::{refuse, status_of};
use zv_input::{Command, Commands, KeyText, MAX_COMMANDS, read_key, split_at_byte};
use zv_map2d::parse_image;
use zv_ule::NoMemory;

/// Asks, each of which is a line: `ask K W`, for a key and a wanted text.
#[derive(Drop)]
pub struct Asks {
    asks: Commands,
}

impl Model for Asks {
    ghost use Rattle.std.specs.Prelude.{List};
    ghost use Rattle.std.specs.List.{All};
    ghost use Rattle.zv_input.specs.declared.command.Command.{Command};
    ghost use Rattle.zv_locale.specs.Asks.{IsAsk};

    ghost Value = { List Command };

    ghost view = { λ a. a.asks };

    ghost invariant = { λ a. All IsAsk a.asks };
}

impl Asks {
    /// No asks. It takes no memory yet.
    pub fn new(alloc: Global) -> Asks
        ensures { result ≡ [] }
    {
        Asks {
            asks: Commands::new(alloc),
        }
    }

    // Adds an ask, for which there is room.
    #[tactic(auto, using(zv_ule::proofs::Lists::all_append))]
    fn keep(&mut self, ask: Command) -> Result<(), NoMemory>
        requires ask { IsAsk ask }
        requires room { total_size self.old + command_size ask ≤ MAX_COMMANDS }
        ensures ask { OnOk result (self.new ≡ self.old ++ ask ∷ []) }
        ensures size { OnOk result
            (total_size self.new ≡ total_size self.old + command_size ask) }
    {
        self.asks.add(ask)
    }
}

// The words of a line, where there are three.
#[tactic(auto, using(crate::proofs::Lines::not_one))]
fn three_words(line: &[u8]) -> Option<(&[u8], &[u8], &[u8])>
    ensures { option_map (λ t. (t.0.now, t.1.now, t.2.now)) result ≡ three_words (words line.now) }
{
    let (first, Some(rest)) = split_at_byte(b' ', line) else {
        return None;
    };
    let (second, Some(rest)) = split_at_byte(b' ', rest) else {
        return None;
    };
    let (third, None) = split_at_byte(b' ', rest) else {
        return None;
    };
    Some((first, second, third))
}

// The wanted text that a word stands for as a field.
fn read_wanted(alloc: Global, word: &[u8]) -> Result<Option<KeyText>, NoMemory>
    ensures { IfOk result (λ text. text ≡ wanted_text word.now) }
{
    let Some(text) = read_key(alloc, word)? else {
        return Ok(None);
    };
    if Wanted::parse(text.as_str()).is_none() {
        return Ok(None);
    }
    Ok(Some(text))
}

// What a key and a wanted text ask for.
fn read_fields(alloc: Global, key: &[u8], wanted: &[u8]) -> Result<Option<Command>, NoMemory>
    ensures { IfOk result (λ ask. ask ≡ asked key.now wanted.now) }
{
    let Some(key0) = read_key(alloc, key)? else {
        return Ok(None);
    };
    match read_wanted(alloc, wanted)? {
        Some(key1) => Ok(Some(Command::Get { key0, key1 })),
        None => Ok(None),
    }
}

// What a line asks for, or `None` where it is bad.
fn read_ask(alloc: Global, line: &[u8]) -> Result<Option<Command>, NoMemory>
    ensures { IfOk result (λ ask. ask ≡ ask_of (words line.now)) }
{
    let Some((name, key, wanted)) = three_words(line) else {
        return Ok(None);
    };
    if name != b"ask".as_slice() {
        return Ok(None);
    }
    read_fields(alloc, key, wanted)
}

impl Request for Asks {
    ghost use Rattle.zv_input.specs.Commands.{total_size};
    ghost use Rattle.zv_locale.specs.Asks.{locale_due, with_ask};

    ghost with_line = { with_ask };

    ghost size = { total_size };

    ghost due = { locale_due };

    #[tactic(auto, using(crate::proofs::Lines::line_fits))]
    fn add_line(&mut self, alloc: Global, line: &[u8]) -> Result<bool, NoMemory> {
        let Some(ask) = read_ask(alloc, line)? else {
            return Ok(false);
        };
        self.keep(ask)?;
        Ok(true)
    }

    fn answer<K: Sink>(&self, _alloc: Global, image: &[u8], sink: &mut K) -> Status {
        match parse_image(image) {
            Ok(map) => status_of(tell(&map, self.asks.as_slice(), sink)),
            Err(cause) => refuse(sink, cause),
        }
    }
}
