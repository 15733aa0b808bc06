//! What a command finds, and what the last one did.
use crate::files::{Files, copied, held, numbers_of, put, put_spelled, spelled, words_of};
use anyhow::{Result, bail};
use outer_files::{MemoryFiles, MemorySink};
use std::alloc::{AllocError, Global};
use whopr_top::plain;

/// The files that each command finds, the calls of the next one that fail, and what the last one answered, printed and left.
#[derive(Drop)]
pub struct Stage {
    files: Files,
    failing_calls: Vec<u64>,
    failing_puts: Vec<u64>,
    again: Vec<u8>,
    before: Vec<u8>,
    behind: Vec<u8>,
    left: MemoryFiles,
    printed: Vec<u8>,
    wanted: Vec<u8>,
    status: u8,
    // no line has said what the last command answers
    open: bool,
    rows: u32,
    differ: u32,
}

impl Stage {
    /// No files, and no rows so far.
    pub fn new(alloc: Global) -> Stage {
        Stage {
            files: Vec::new(alloc),
            failing_calls: Vec::new(alloc),
            failing_puts: Vec::new(alloc),
            again: Vec::new(alloc),
            before: Vec::new(alloc),
            behind: Vec::new(alloc),
            left: MemoryFiles::new(Vec::new(alloc), Vec::new(alloc)),
            printed: Vec::new(alloc),
            wanted: Vec::new(alloc),
            status: 0,
            open: false,
            rows: 0,
            differ: 0,
        }
    }

    /// How many rows there were, and in how many of them something else was done.
    pub fn counts(&self) -> (u32, u32) {
        (self.rows, self.differ)
    }

    /// The status and the text of the last command.
    pub fn answer(&self) -> (u8, &[u8]) {
        (self.status, self.printed.as_slice())
    }

    // ---- the files that are found

    /// There are no files.
    pub fn clear(&mut self, alloc: Global) {
        self.files = Vec::new(alloc);
    }

    /// Puts a file in the place of the one of this name.
    pub fn put_file(
        &mut self,
        alloc: Global,
        name: &str,
        bytes: Vec<u8>,
    ) -> Result<(), AllocError> {
        put(alloc, &mut self.files, name, bytes)
    }

    /// The bytes of the file that was put last, to be changed.
    pub fn last(&mut self) -> Result<&mut Vec<u8>> {
        match self.files.last_mut() {
            Some(file) => Ok(&mut file.1),
            None => bail!("there is no file"),
        }
    }

    /// The bytes of a file, to be changed.
    pub fn file(&mut self, name: &str) -> Result<&mut Vec<u8>> {
        held(&mut self.files, name)
    }

    /// Puts another number in the place of a byte of a file, and gives the one that stood there.
    pub fn replace(&mut self, name: &str, offset: usize, number: u8) -> Result<u8> {
        match self.file(name)?.get_mut(offset) {
            Some(place) => {
                let before = *place;
                *place = number;
                Ok(before)
            }
            None => bail!("{name} has no byte {offset}"),
        }
    }

    // ---- texts

    /// The texts of rows stand behind what the line spells.
    pub fn stand_before(&mut self, alloc: Global, line: &str) -> Result<()> {
        self.before = spelled(alloc, line)?;
        Ok(())
    }

    /// The texts of rows stand before what the line spells.
    pub fn stand_behind(&mut self, alloc: Global, line: &str) -> Result<()> {
        self.behind = spelled(alloc, line)?;
        Ok(())
    }

    /// The text that a line spells, between what stands before it and behind it.
    pub fn framed(&self, alloc: Global, line: &str) -> Result<Vec<u8>> {
        let mut text = Vec::from_slice(alloc, &self.before)?;
        put_spelled(&mut text, line, 0)?;
        text.extend_from_slice(&self.behind)?;
        Ok(text)
    }

    // ---- commands

    /// Does a command over the files.
    pub fn run(&mut self, alloc: Global, line: &str) -> Result<(), AllocError> {
        let words = words_of(alloc, line)?;
        let calls = std::mem::replace(&mut self.failing_calls, Vec::new(alloc));
        let puts = std::mem::replace(&mut self.failing_puts, Vec::new(alloc));
        let mut left = MemoryFiles::new(copied(alloc, &self.files)?, calls);
        let mut sink = MemorySink::new(puts);
        self.status = plain(alloc, &words, &mut left, &mut sink);
        self.printed = Vec::from_slice(alloc, sink.taken())?;
        self.left = left;
        self.wanted = Vec::new(alloc);
        Ok(())
    }

    /// Does a command whose answer the lines behind it say.
    pub fn command(&mut self, alloc: Global, line: &str) -> Result<()> {
        self.end()?;
        self.run(alloc, line)?;
        self.open = true;
        Ok(())
    }

    /// Sets the command that rows do over files that are changed.
    pub fn set_again(&mut self, alloc: Global, line: &str) -> Result<()> {
        self.again = Vec::from_slice(alloc, line.as_bytes())?;
        Ok(())
    }

    /// Does the command of such rows.
    pub fn again(&mut self, alloc: Global) -> Result<()> {
        let line = Vec::from_slice(alloc, &self.again)?;
        self.run(alloc, str::from_utf8(&line)?)?;
        Ok(())
    }

    /// An error where no line has said what the last command answers.
    pub fn end(&self) -> Result<()> {
        if self.open {
            bail!("no line says what the last command answers");
        }
        Ok(())
    }

    /// The calls of the next command on files with these numbers fail.
    pub fn fail_calls(&mut self, alloc: Global, numbers: &str) -> Result<()> {
        self.failing_calls = numbers_of(alloc, numbers)?;
        Ok(())
    }

    /// The puts of the next command with these numbers fail.
    pub fn fail_puts(&mut self, alloc: Global, numbers: &str) -> Result<()> {
        self.failing_puts = numbers_of(alloc, numbers)?;
        Ok(())
    }

    /// A file that the last command left is found by the next ones too.
    pub fn keep(&mut self, alloc: Global, name: &str) -> Result<()> {
        match self.left.held(name) {
            Some(bytes) => {
                let bytes = Vec::from_slice(alloc, bytes)?;
                self.put_file(alloc, name, bytes)?;
                Ok(())
            }
            None => bail!("{name} was not left"),
        }
    }

    // ---- rows

    /// A row: it is as its line says, or not.
    pub fn count(&mut self, holds: bool) -> bool {
        self.rows = self.rows.saturating_add(1);
        if !holds {
            self.differ = self.differ.saturating_add(1);
        }
        holds
    }

    /// The next line that the last command is to have printed.
    pub fn want(&mut self, line: &str) -> Result<()> {
        put_spelled(&mut self.wanted, line, 0)?;
        self.wanted.push(b'\n')?;
        Ok(())
    }

    /// Whether the last command answered this, and printed what is wanted.
    pub fn answered(&mut self, status: u8) -> bool {
        self.open = false;
        self.status == status && self.printed.as_slice() == self.wanted.as_slice()
    }

    /// Whether the last command answered this, and printed these bytes.
    pub fn printed(&self, status: u8, bytes: &[u8]) -> bool {
        self.status == status && self.printed.as_slice() == bytes
    }

    /// Whether a file was left with these bytes.
    pub fn holds(&self, alloc: Global, name: &str, line: &str) -> Result<bool> {
        let bytes = spelled(alloc, line)?;
        Ok(self.left.held(name) == Some(bytes.as_slice()))
    }

    /// Whether a file was left with these bytes at the offset.
    pub fn has(&self, alloc: Global, name: &str, offset: usize, line: &str) -> Result<bool> {
        let bytes = spelled(alloc, line)?;
        let rest = self.left.held(name).and_then(|all| all.get(offset..));
        Ok(rest.is_some_and(|rest| rest.starts_with(&bytes)))
    }

    /// Whether a file was left with the bytes that the other was found with.
    pub fn is_same(&mut self, name: &str, other: &str) -> Result<bool> {
        let bytes = held(&mut self.files, other)?;
        Ok(self.left.held(name) == Some(bytes.as_slice()))
    }

    /// How many bytes a file was left with.
    pub fn length(&self, name: &str) -> Option<usize> {
        self.left.held(name).map(|bytes| bytes.len())
    }
}
