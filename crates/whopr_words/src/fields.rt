//! The words of a line, one after the other: keywords, names, and numbers behind a keyword.
ghost use Rattle.std.specs.Prelude.{◌≡◌, ◌∷◌, ◌<◌, [], IfOk, IsTrue, ◌↔◌, MatchOption};
ghost use Rattle.text_lines.specs.Words.{words_of, name_of};
ghost use Rattle.whopr_words.specs.WordReading.{Finds, Follows, first_by, is_nil, number_by, number_within, word_is};

use cursors::decimal;
use gimple_ir::{Name, NoMemory};
use std::alloc::Global;
use std::marker::Model;

/// A place between the words of a line. Contracts see the words that are left.
#[derive(Drop)]
pub struct Words<'a> {
    words: Vec<&'a [u8]>,
    next: usize,
}

impl<'a> Model for Words<'a> {
    ghost use Rattle.std.specs.Prelude.{ℕ, ◌≤◌, List, map, drop, vec_len};

    ghost Value = { List (List ℕ) };

    ghost view = { λ w. map (λ word. word.now) (drop w.next w.words.items) };

    ghost invariant = { λ w. w.next ≤ vec_len w.words };
}

fn number_within(word: &[u8], low: u32, high: u32) -> Option<u32>
    ensures { result ≡ number_within low high word.now }
{
    let number = decimal(word)?;
    if u64::from(low) <= number && number <= u64::from(high) {
        Some(number as u32)
    } else {
        None
    }
}

impl<'a> Words<'a> {
    pub fn new(alloc: Global, line: &'a [u8]) -> Result<Words<'a>, NoMemory>
        ensures { IfOk result (λ words. words ≡ words_of line.now) }
    {
        let words = text_lines::words(alloc, line)?;
        Ok(Words { words, next: 0 })
    }

    fn word(&mut self) -> Option<&'a [u8]>
        ensures { MatchOption result ((self.old ≡ []) × (self.new ≡ [])) (λ word. self.old ≡ word.now ∷ self.new) }
    {
        if self.next == self.words.len() {
            return None;
        }
        let word = self.words[self.next];
        self.next += 1;
        Some(word)
    }

    /// Whether no word is left.
    pub fn is_at_end(&mut self) -> bool
        ensures { result ≡ is_nil self.old }
    {
        match self.word() {
            Some(_) => false,
            None => true,
        }
    }

    /// Whether the next word is this one.
    pub fn keyword(&mut self, key: &str) -> bool
        ensures { Follows result self.new (word_is key.now self.old) }
    {
        match self.word() {
            Some(word) => word == key.as_bytes(),
            None => false,
        }
    }

    /// The next word, which has to be a name.
    pub fn name(&mut self, alloc: Global) -> Result<Option<Name>, NoMemory>
        ensures { IfOk result (λ found. Finds found self.new (first_by name_of self.old)) }
    {
        match self.word() {
            Some(word) => text_lines::name(alloc, word),
            None => Ok(None),
        }
    }

    /// The number behind the keyword, which has to lie between `low` and `high`.
    #[tactic(auto, unfolding(crate::specs::WordReading::number_by))]
    pub fn number(&mut self, key: &str, low: u32, high: u32) -> Option<u32>
        ensures { Finds result self.new (number_by key.now low high self.old) }
    {
        if !self.keyword(key) {
            return None;
        }
        match self.word() {
            Some(word) => number_within(word, low, high),
            None => None,
        }
    }
}
