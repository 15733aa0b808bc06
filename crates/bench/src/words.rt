//! The words of a measurement, which are taken one after the other.
use anyhow::{Result, bail};
use gimple_ir::{List, Module};
use std::alloc::Global;
use std::env::{Args, args};
use workload_gen::generate;

/// The words that are left.
#[derive(Drop)]
pub struct Words {
    left: Args,
}

impl Words {
    /// The words that the program was given, without its name.
    pub fn given(rt: &HostRuntime) -> Result<Words> {
        let mut left = args(rt)?;
        let _program = left.next();
        Ok(Words { left })
    }

    /// The words of a line.
    pub fn of(alloc: Global, line: &str) -> Result<Words> {
        let mut words = Vec::new(alloc);
        for word in line.split(' ') {
            words.push(String::from_str(alloc, word)?)?;
        }
        Ok(Words {
            left: words.into_iter(),
        })
    }

    /// The next word.
    pub fn text(&mut self) -> Result<String> {
        match self.left.next() {
            Some(word) => Ok(word),
            None => bail!("a word is missing"),
        }
    }

    /// The next word as a number.
    pub fn number(&mut self) -> Result<u64> {
        Ok(self.text()?.parse::<u64>()?)
    }

    /// The next word as a number of things, of which there are fewer than 2^32.
    pub fn count(&mut self) -> Result<u32> {
        Ok(self.text()?.parse::<u32>()?)
    }

    /// The modules that are generated from the next word, a seed, of as many functions as the one after it says.
    pub fn modules(&mut self, alloc: Global) -> Result<List<Module>> {
        let seed = self.number()?;
        let count = self.count()?;
        Ok(generate(alloc, seed, count)?)
    }
}
