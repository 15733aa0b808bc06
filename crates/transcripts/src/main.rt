//! Plays transcripts: commands over files in memory, each beside what it prints and answers.
//!
//! `transcripts FILE..` plays the files one after the other. It prints each row in which a command does something else, and of
//! each file how many rows it has and in how many of them that is so. `lines.rt` says what the lines of a file are.
#![tactic(auto)]

mod changes;
mod files;
mod lines;
mod stage;

use crate::lines::play;
use crate::stage::Stage;
use anyhow::{Result, bail};
use outer_files::{FileStore, HostFiles};
use whopr_top::FILE_BYTES;

fn main(rt: HostRuntime) -> Result<()> {
    let mut host = HostFiles::new(&rt);
    for name in std::env::args(&rt)?.skip(1) {
        let Ok(bytes) = host.read_all(rt.alloc(), name.as_str(), FILE_BYTES) else {
            bail!("{name} could not be read");
        };
        let text = str::from_utf8(&bytes)?;
        let mut stage = Stage::new(rt.alloc());
        for (place, line) in text.lines().enumerate() {
            if !play(rt.alloc(), &mut stage, line)? {
                let (status, printed) = stage.answer();
                let printed = printed.escape_ascii();
                println!(rt;
                    "{name}:{}: {line}: {status} {printed}",
                    place.saturating_add(1)
                )?;
            }
        }
        stage.end()?;
        let (rows, differ) = stage.counts();
        println!(rt; "{name}: {rows} rows, {differ} differ")?;
    }
    Ok(())
}
