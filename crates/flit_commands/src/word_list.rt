ghost use Rattle.std.specs.Prelude.{◌≡◌, ◌↔◌, [], ◌∷◌, ◌++◌, length, map, slice_get, IsTrue, OnOk, OnErr};
ghost use Rattle.std.specs.Option.{option_copied};

use flit_words::NoMemory;
use std::alloc::Global;
use std::marker::Model;

/// The words of a command line after the program's name.
#[derive(Drop)]
pub struct Words {
    words: Vec<String>,
}

impl Model for Words {
    ghost use Rattle.std.specs.Prelude.{List, ℕ, map, string_bytes};

    ghost Value = { List (List ℕ) };

    ghost view = { λ w. map string_bytes w.words.items };
}

impl Words {
    /// No word yet. Memory for words comes from `alloc`.
    pub fn new(alloc: Global) -> Words
        ensures { result ≡ [] }
    {
        Words {
            words: Vec::new(alloc),
        }
    }

    /// Puts the word behind the others.
    ///
    /// # Errors
    /// `NoMemory` where there is no memory for it. The words are the same as before then.
    pub fn push(&mut self, word: &str) -> Result<(), NoMemory>
        ensures ok { OnOk result (self.new ≡ self.old ++ word.now ∷ []) }
        ensures err { OnErr result (self.new ≡ self.old) }
    {
        let alloc = *self.words.allocator();
        let text = String::from_str(alloc, word)?;
        self.words.push(text)?;
        Ok(())
    }

    /// How many words there are.
    pub fn len(&self) -> usize
        ensures { result ≡ length self.now }
    {
        self.words.len()
    }

    /// Whether these are all the words, in this order.
    pub fn is(&self, words: &[&str]) -> bool
        ensures { IsTrue result ↔ (self.now ≡ map (λ word. word.now) words.now) }
    {
        if self.words.len() != words.len() {
            return false;
        }
        for (given, word) in self.words.iter().zip(words) {
            if given.as_str() != *word {
                return false;
            }
        }
        true
    }

    /// The word at a place, counted from 0, or `None` past the last one.
    pub fn get(&self, place: usize) -> Option<&str>
        ensures { option_copied result ≡ slice_get self.now place }
    {
        self.words.get(place).map(String::as_str)
    }
}
