//! The file that rows are about, and how many rows there were.
use crate::containers::written;
use crate::parts::{copied, numbers, parted, put_over, spelled};
use anyhow::Result;
use std::alloc::Global;

/// The lines of the sections, the file, how it is read, and the counts.
#[derive(Drop)]
pub struct Stage {
    sections: Vec<String>,
    file: Vec<u8>,
    reader: String,
    rows: u32,
    differ: u32,
}

impl Stage {
    /// No bytes, and no rows so far.
    pub fn new(alloc: Global) -> Stage {
        Stage {
            sections: Vec::new(alloc),
            file: Vec::new(alloc),
            reader: String::new(alloc),
            rows: 0,
            differ: 0,
        }
    }

    /// How many rows there were, and in how many of them something else was answered.
    pub fn counts(&self) -> (u32, u32) {
        (self.rows, self.differ)
    }

    /// The bytes of the file.
    pub fn file(&self) -> &[u8] {
        self.file.as_slice()
    }

    /// What reads the file.
    pub fn reader(&self) -> &str {
        self.reader.as_str()
    }

    /// The file is read by this.
    pub fn read_by(&mut self, alloc: Global, reader: &str) -> Result<()> {
        self.reader = copied(alloc, reader)?;
        Ok(())
    }

    /// One more section of the file that is written next.
    pub fn section(&mut self, alloc: Global, line: &str) -> Result<()> {
        self.sections.push(copied(alloc, line)?)?;
        Ok(())
    }

    /// The file is the container of the sections, which are used up.
    pub fn write(&mut self, alloc: Global) -> Result<()> {
        self.file = written(alloc, &self.sections)?;
        self.sections = Vec::new(alloc);
        Ok(())
    }

    /// The file has so many bytes: it is cut, or zeros are added.
    pub fn resize(&mut self, line: &str) -> Result<()> {
        self.file.resize(line.parse::<usize>()?, 0)?;
        Ok(())
    }

    /// Bytes at an offset of the file.
    pub fn put(&mut self, alloc: Global, line: &str) -> Result<()> {
        let (offset, text) = parted(line);
        let bytes = spelled(alloc, text)?;
        put_over(&mut self.file, offset.parse::<usize>()?, &bytes)
    }

    /// Words at an offset of the file, the low byte of each first.
    pub fn put_words(&mut self, alloc: Global, line: &str) -> Result<()> {
        let (offset, words) = parted(line);
        let mut offset = offset.parse::<usize>()?;
        for word in numbers(alloc, words)? {
            let bytes = word.to_le_bytes();
            let [first, second, third, fourth, ..] = bytes;
            put_over(&mut self.file, offset, &[first, second, third, fourth])?;
            offset = offset.saturating_add(4);
        }
        Ok(())
    }

    /// A row: what was answered, if it is not what was wanted.
    pub fn count(&mut self, found: String, wanted: &str) -> Option<String> {
        self.rows = self.rows.saturating_add(1);
        if found.as_str() == wanted {
            return None;
        }
        self.differ = self.differ.saturating_add(1);
        Some(found)
    }
}
