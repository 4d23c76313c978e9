//! The words after the program's name.

ghost use Rattle.std.specs.Prelude.{◌≡◌, List, ℕ, [], OnOk, OnErr, IfOk, IfSome, IfNone, ◌∷◌, ◌++◌, length, map, string_bytes};
ghost use Rattle.command_words.specs.Commands.{IsCommand, Says};

use crate::commands::{Command, command_of};
use grid_exact::NoMemory;
use std::alloc::Global;
use std::marker::Model;

/// The words after the program's name, seen as the list of their texts.
#[derive(Drop)]
pub struct Words {
    alloc: Global,
    items: Vec<String>,
}

impl Model for Words {
    ghost Value = { List (List ℕ) };

    ghost view = { λ w. map (λ s. string_bytes s) w.items.items };
}

impl Words {
    /// No words. It allocates nothing.
    pub fn new(alloc: Global) -> Self
        ensures { result ≡ [] }
    {
        Words {
            alloc,
            items: Vec::new(alloc),
        }
    }

    /// Appends a word.
    ///
    /// # Errors
    ///
    /// `NoMemory` where memory was refused; the words then stay as they were.
    pub fn push(&mut self, word: &str) -> Result<(), NoMemory>
        ensures ok { OnOk result (self.new ≡ self.old ++ word.now ∷ []) }
        ensures err { OnErr result (self.new ≡ self.old) }
    {
        let word = String::from_str(self.alloc, word)?;
        self.items.push(word)?;
        Ok(())
    }

    /// How many words there are.
    pub fn len(&self) -> usize
        ensures { result ≡ length self.now }
    {
        self.items.len()
    }

    /// Parses the words as a command; `None` exactly where they are none.
    ///
    /// # Errors
    ///
    /// `NoMemory` where memory was refused.
    pub fn asks_for(&self) -> Result<Option<Command<'_>>, NoMemory>
        ensures some { IfOk result (λ o. IfSome o (λ c. Says self.now c)) }
        ensures none { IfOk result (λ o. IfNone o (IsCommand self.now → ⊥)) }
    {
        command_of(self.alloc, self.items.as_slice())
    }
}
