ghost use Rattle.std.specs.Prelude.{◌≡◌, ◌≤◌, [], ◌∷◌, length, MatchOption};
ghost use Rattle.asm_node.specs.Words.{left};

use asm_list::Listed;
use std::alloc::Global;
use std::marker::Model;

/// Choice words, and the number of those that are taken.
#[derive(Debug, Drop)]
pub struct Words {
    words: Listed<u32>,
    taken: usize,
}

impl Model for Words {
    ghost use Rattle.std.specs.Prelude.{ℕ, List, length, ◌≤◌};

    ghost Value = { List ℕ × ℕ };

    ghost view = { λ w. (w.words, w.taken) };

    ghost invariant = { λ w. w.taken ≤ length w.words };
}

impl Words {
    /// No word, which takes no memory.
    pub fn new(alloc: Global) -> Words
        ensures { result ≡ ([], 0) }
    {
        Words::of(Listed::new(alloc))
    }

    /// These words, of which none is taken. It takes no memory.
    pub fn of(words: Listed<u32>) -> Words
        ensures { result ≡ (words, 0) }
    {
        Words { words, taken: 0 }
    }

    /// All words, also those that are taken.
    pub fn words(&self) -> &Listed<u32>
        ensures { result.now ≡ self.now.0 }
    {
        &self.words
    }

    /// The number of words that are taken.
    pub fn taken(&self) -> usize
        ensures value { result ≡ self.now.1 }
        ensures few { result ≤ length self.now.0 }
    {
        self.taken
    }

    /// The next word, if any is left.
    pub fn take(&mut self) -> Option<u32>
        ensures takes { MatchOption result ((left self.old ≡ []) × (self.new ≡ self.old)) (λ word. left self.old ≡ word ∷ left self.new) }
        ensures same_words { self.new.0 ≡ self.old.0 }
    {
        if self.taken == self.words.len() {
            return None;
        }
        let word = self.words.slice()[self.taken];
        self.taken += 1;
        Some(word)
    }

    /// Puts words back, so that this number of them is taken.
    pub fn back_to(&mut self, taken: usize)
        requires { taken ≤ length self.old.0 }
        ensures { self.new ≡ (self.old.0, taken) }
    {
        self.taken = taken;
    }
}
