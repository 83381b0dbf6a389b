ghost use Rattle.std.specs.Str.{bytes_eq};
ghost use Rattle.std.specs.Prelude.{◌≡◌, List, ℕ, [], ◌∷◌, ◌++◌, IfOk, OnOk, OnErr};

use crate::memory::Memory;
use std::alloc::Global;
use std::marker::Model;

/// A word of the command line: a list of bytes.
#[derive(Debug, Drop)]
pub struct Word {
    bytes: Vec<u8>,
}

impl Model for Word {
    ghost Value = { List ℕ };

    ghost view = { λ word. word.bytes.items };
}

impl PartialEq for Word {
    ghost use Rattle.std.proofs.Common.{rules};

    ghost eq = { bytes_eq };

    ghost laws = { Prim.search rules };

    fn eq(&self, other: &Word) -> bool {
        self.bytes.as_slice() == other.bytes.as_slice()
    }
}

impl Eq for Word {
    ghost use Rattle.std.proofs.Common.{rules};

    ghost laws = { Prim.search rules };
}

impl Word {
    /// The word of these bytes.
    pub fn of(alloc: Global, bytes: &[u8]) -> Result<Word, Memory>
        ensures { IfOk result (λ word. word ≡ bytes.now) }
    {
        match Vec::from_slice(alloc, bytes) {
            Ok(bytes) => Ok(Word { bytes }),
            Err(_) => Err(Memory),
        }
    }

    /// Its bytes.
    pub fn bytes(&self) -> &[u8]
        ensures { result.now ≡ self.now }
    {
        self.bytes.as_slice()
    }
}

/// The words of a command line, in order.
#[derive(Debug, Drop)]
pub struct Words {
    words: Vec<Word>,
}

impl Model for Words {
    ghost Value = { List (List ℕ) };

    ghost view = { λ words. words.words.items };
}

impl Words {
    /// No words yet.
    pub fn new(alloc: Global) -> Words
        ensures { result ≡ [] }
    {
        Words {
            words: Vec::new(alloc),
        }
    }

    /// Adds a word at the end.
    pub fn push(&mut self, word: Word) -> Result<(), Memory>
        ensures ok { OnOk result (self.new ≡ self.old ++ word ∷ []) }
        ensures memory { OnErr result (self.new ≡ self.old) }
    {
        match self.words.push(word) {
            Ok(()) => Ok(()),
            Err(_) => Err(Memory),
        }
    }

    /// The words in order.
    pub fn list(&self) -> &[Word]
        ensures { result.now ≡ self.now }
    {
        self.words.as_slice()
    }
}
