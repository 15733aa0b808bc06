//! Plays rows of what no command shows: the partitions of `balanced_partition`, the modules of `workload_gen`, and
//! plain data of `gimple_ir`.
//!
//! `gimple_rows FILE..` plays the files one after the other. It prints each line in whose rows something else comes, and of each
//! file how many rows it has and in how many of them that is so. `lines.rt` says what the lines of a file are.
#![tactic(auto)]

mod lines;
mod partitions;
mod values;
mod workloads;

use crate::lines::{Tally, play};
use anyhow::{Result, bail};
use outer_files::{FileStore, HostFiles};

const FILE_BYTES: u64 = 16_777_216;

fn main(rt: HostRuntime) -> Result<()> {
    let mut host = HostFiles::new(&rt);
    for name in std::env::args(&rt)?.skip(1) {
        let Ok(bytes) = host.read_all(rt.alloc(), name.as_str(), FILE_BYTES) else {
            bail!("{name} could not be read");
        };
        let text = str::from_utf8(&bytes)?;
        let mut tally = Tally::new();
        for (place, line) in text.lines().enumerate() {
            if !play(rt.alloc(), &mut tally, line)? {
                println!(rt; "{name}:{}: {line}", place.saturating_add(1))?;
            }
        }
        let (rows, differ) = tally.counts();
        println!(rt; "{name}: {rows} rows, {differ} differ")?;
    }
    Ok(())
}
