//! Worked rows of what stands at the edge: stores and sinks (`outer_files`), the shared cell (`cache_lock`), claims and forked
//! works (`worker_gate`). `system_rows MEMORY HOST` plays the calls that the two files have, one a line (`stores.rt`), then calls
//! by one thread and by several, and prints what came of each; the crate's `stdout` has what must.
#![tactic(auto)]

mod cells;
mod claims;
mod sinks;
mod stores;

use anyhow::{Result, bail};
use outer_files::{FileStore, HostFiles};

fn main(rt: HostRuntime) -> Result<()> {
    let mut names = std::env::args(&rt)?.skip(1);
    let (Some(memory), Some(host)) = (names.next(), names.next()) else {
        bail!("two files are wanted");
    };
    let calls = calls_of(&rt, memory.as_str())?;
    stores::play_memory(&rt, str::from_utf8(&calls)?)?;
    let calls = calls_of(&rt, host.as_str())?;
    stores::play_host(&rt, str::from_utf8(&calls)?)?;
    sinks::play(&rt)?;
    cells::play(&rt, rt.alloc())?;
    claims::play(&rt, rt.alloc())
}

/// The bytes of a file of calls.
fn calls_of(rt: &HostRuntime, name: &str) -> Result<Vec<u8>> {
    match HostFiles::new(rt).read_all(rt.alloc(), name, 1 << 20) {
        Ok(bytes) => Ok(bytes),
        Err(_) => bail!("{name} could not be read"),
    }
}
