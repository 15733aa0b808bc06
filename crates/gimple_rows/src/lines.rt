//! The lines of a file. The first word of a line says what it is:
//!
//! | Line | What it says |
//! |---|---|
//! | `# ..` | nothing, as an empty line |
//! | `cut WANTED CALL SIZES PLACES` | a row: so many partitions are wanted of two or four versions of these sizes, and they end at these places |
//! | `cuts WANTED SIZES DIGITS` | 256 rows: of four versions with any two calls; a digit is the sum of 1, 2 and 4 for a cut at 1, 2 and 3 |
//! | `modules SEED COUNT NUMBER` | a row: so many modules are generated |
//! | `functions SEED COUNT MODULE NUMBER` | a row: a module has so many functions, declarations among them |
//! | `declared SEED COUNT MODULE NUMBER` | a row: it declares so many |
//! | `defined SEED COUNT NUMBER` | a row: all modules together define so many |
//! | `line SEED COUNT MODULE PLACE TEXT` | a row: the line of the canonical text of a module at this place, from 1 |
//! | `pushed NUMBERS` | a row: a list, bytes and arguments to which these are pushed hold them, and their copies too |
//! | `name TEXT` | a row: the text is a name |
//! | `unnamed TEXT` | a row: it is none |
//! | `meet LEFT RIGHT FACT` | a row: the meet of two facts, each `top`, `bottom` or a constant of `int` |
//!
//! Sizes, places and what is pushed are numbers below 256 with commas between them, a call is a pair as `1>2`; `-` is none. The
//! two calls of row N of `cuts`, from 0, are between the versions of the last two digits of N in base 4, and of the two before them.
use crate::partitions::{cuts_at, cuts_each};
use crate::values::{is_name, meets, pushed};
use crate::workloads::workload_row;
use anyhow::{Result, bail};
use std::alloc::Global;

/// How many rows there were, and in how many of them something else came.
#[derive(Drop)]
pub struct Tally {
    rows: u32,
    differ: u32,
}

impl Tally {
    /// No rows so far.
    pub fn new() -> Tally {
        Tally { rows: 0, differ: 0 }
    }

    /// How many rows there were, and in how many of them something else came.
    pub fn counts(&self) -> (u32, u32) {
        (self.rows, self.differ)
    }

    /// A row: it is as its line says, or not.
    pub fn count(&mut self, holds: bool) -> bool {
        self.rows = self.rows.saturating_add(1);
        if !holds {
            self.differ = self.differ.saturating_add(1);
        }
        holds
    }
}

/// The first word of a line, and what stands behind it.
pub fn parted(line: &str) -> (&str, &str) {
    line.split_once(' ').unwrap_or((line, ""))
}

/// Plays a line. Whether all its rows are as it says.
pub fn play(alloc: Global, tally: &mut Tally, line: &str) -> Result<bool> {
    let (word, rest) = parted(line);
    match word {
        "" | "#" => Ok(true),
        "cut" => {
            let holds = cuts_at(alloc, rest)?;
            Ok(tally.count(holds))
        }
        "cuts" => cuts_each(alloc, tally, rest),
        "pushed" | "name" | "unnamed" | "meet" => {
            let holds = value_row(alloc, word, rest)?;
            Ok(tally.count(holds))
        }
        "modules" | "functions" | "declared" | "defined" | "line" => {
            let holds = workload_row(alloc, word, rest)?;
            Ok(tally.count(holds))
        }
        _ => bail!("no line: {word}"),
    }
}

/// Whether plain data are as the line says.
fn value_row(alloc: Global, word: &str, rest: &str) -> Result<bool> {
    match word {
        "pushed" => pushed(alloc, rest),
        "name" => Ok(is_name(alloc, rest)?),
        "unnamed" => Ok(!is_name(alloc, rest)?),
        _ => meets(rest),
    }
}
