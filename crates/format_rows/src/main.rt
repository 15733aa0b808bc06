//! Plays the worked rows of formats and of the machine that no command shows: files whose lines say what a call answers.
//!
//! `format_rows FILE..` plays the files one after the other. It prints each row in which a call answers something else, and of
//! each file how many rows it has and in how many of them that is so. `lines.rt` says what the lines of a file are.
#![tactic(auto)]

mod codes;
mod containers;
mod lines;
mod machines;
mod numbers;
mod objects;
mod parts;
mod stage;
mod streams;
mod templates;
mod texts;

use crate::lines::play;
use crate::stage::Stage;
use anyhow::{Result, bail};
use outer_files::{FileStore, HostFiles};

/// The most bytes of a file of rows.
const FILE_BYTES: u64 = 1 << 24;

fn main(rt: HostRuntime) -> Result<()> {
    let mut host = HostFiles::new(&rt);
    for name in std::env::args(&rt)?.skip(1) {
        let Ok(bytes) = host.read_all(rt.alloc(), name.as_str(), FILE_BYTES) else {
            bail!("{name} could not be read");
        };
        let text = str::from_utf8(&bytes)?;
        let mut stage = Stage::new(rt.alloc());
        for (place, line) in text.lines().enumerate() {
            if let Some(found) = play(rt.alloc(), &mut stage, line)? {
                println!(rt; "{name}:{}: {line}: {found}", place.saturating_add(1))?;
            }
        }
        let (rows, differ) = stage.counts();
        println!(rt; "{name}: {rows} rows, {differ} differ")?;
    }
    Ok(())
}
