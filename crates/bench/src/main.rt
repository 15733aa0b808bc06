//! `bench NAME WORD..` runs one measurement, which prints what it did and nothing that depends on time: `bench/run` takes the times.
//!
//! Each module has the words of one. With no words each runs once, as small as can be.
#![tactic(auto)]

mod containers;
mod linking;
mod locking;
mod machine;
mod meaning;
mod numbers;
mod objects;
mod partition;
mod printing;
mod solver;
mod streams;
mod syntax;
mod words;
mod workload;

use crate::words::Words;
use anyhow::{Result, bail};
use std::sync::Wait;
use std::thread::Threads;

/// Each measurement, as small as can be.
const SMALLEST: [&str; 19] = [
    "containers read 3 10",
    "numbers read 1000",
    "numbers sum 1000",
    "solver chain 4",
    "solver tree 4",
    "solver dense 4",
    "partition 12 20 5",
    "workload 5 51",
    "printing 5 51 1",
    "syntax 5 51 2",
    "syntax one 2 1",
    "machine 1000",
    "meaning 1000 100",
    "streams decode 5 51 2",
    "objects lgen 5 51 1",
    "objects show 5 51 1",
    "linking 3 1",
    "locking claims 2 1000",
    "locking cell 2 1000",
];

fn main(rt: HostRuntime) -> Result<()> {
    let mut words = Words::given(&rt)?;
    match words.text() {
        Ok(name) => measure(&rt, &rt, name.as_str(), &mut words),
        Err(_) => smallest(&rt, &rt),
    }
}

fn smallest<R: Threads + Wait + Sync>(rt: &HostRuntime, forks: &R) -> Result<()> {
    for line in SMALLEST {
        println!(rt; "{line}")?;
        let mut words = Words::of(rt.alloc(), line)?;
        let name = words.text()?;
        measure(rt, forks, name.as_str(), &mut words)?;
    }
    Ok(())
}

/// Runs the measurement of that name; `forks` is the runtime too, for the one that starts threads.
fn measure<R: Threads + Wait + Sync>(
    rt: &HostRuntime,
    forks: &R,
    name: &str,
    words: &mut Words,
) -> Result<()> {
    match name {
        "containers" => containers::measure(rt, words),
        "linking" => linking::measure(rt, words),
        "locking" => locking::measure(rt, forks, words),
        "machine" => machine::measure(rt, words),
        "meaning" => meaning::measure(rt, words),
        "numbers" => numbers::measure(rt, words),
        "objects" => objects::measure(rt, words),
        "partition" => partition::measure(rt, words),
        "printing" => printing::measure(rt, words),
        "solver" => solver::measure(rt, words),
        "streams" => streams::measure(rt, words),
        "syntax" => syntax::measure(rt, words),
        "workload" => workload::measure(rt, words),
        _ => bail!("there is no measurement {name}"),
    }
}
