// The words of the command line.
use std::alloc::Global;
use std::marker::Model;
use zv_ule::NoMemory;

/// The words after the program's name, in order.
#[derive(Drop)]
pub struct Words {
    alloc: Global,
    words: Vec<String>,
}

impl Model for Words {
    ghost use Rattle.std.specs.Prelude.{List, ℕ, map};
    ghost use Rattle.std.specs.String.{string_bytes};

    ghost Value = { List (List ℕ) };

    ghost view = { λ w. map string_bytes w.words.items };
}

impl Words {
    ghost use Rattle.std.specs.Prelude.{◌≡◌, ◌↔◌, [], ◌∷◌, ◌++◌, length, slice_get};
    ghost use Rattle.std.specs.Prelude.{IsTrue, OnOk, OnErr};
    ghost use Rattle.std.specs.Option.{option_copied};

    /// No words. It takes no memory yet.
    pub fn new(alloc: Global) -> Words
        ensures { result ≡ [] }
    {
        Words {
            alloc,
            words: Vec::new(alloc),
        }
    }

    /// Adds a copy of a word.
    pub fn push(&mut self, word: &str) -> Result<(), NoMemory>
        ensures ok { OnOk result (self.new ≡ self.old ++ word.now ∷ []) }
        ensures err { OnErr result (self.new ≡ self.old) }
    {
        let Ok(word) = String::from_str(self.alloc, word) else {
            return Err(NoMemory);
        };
        match self.words.push(word) {
            Ok(()) => Ok(()),
            Err(_) => Err(NoMemory),
        }
    }

    /// How many words there are.
    pub fn len(&self) -> usize
        ensures { result ≡ length self.now }
    {
        self.words.len()
    }

    /// Whether there are none.
    pub fn is_empty(&self) -> bool
        ensures { IsTrue result ↔ (self.now ≡ []) }
    {
        self.words.is_empty()
    }

    /// The word with a number, from 0.
    pub fn get(&self, i: usize) -> Option<&str>
        ensures { option_copied result ≡ slice_get self.now i }
    {
        match self.words.get(i) {
            Some(word) => Some(word.as_str()),
            None => None,
        }
    }
}
