//! `locking HOW THREADS COUNT`: `claims` draws so many numbers from claims, `cell` makes so many calls on one shared cell. So many
//! threads share the work, 1 at least and 64 at most.
ghost use Rattle.std.specs.Prelude.{◌≤◌, ◌<◌};

mod calling;
mod drawing;

use self::calling::called_by;
use self::drawing::drawn_by;
use crate::words::Words;
use anyhow::Result;
use std::sync::Wait;
use std::thread::Threads;

pub fn measure<R: Threads + Wait + Sync>(
    rt: &HostRuntime,
    forks: &R,
    words: &mut Words,
) -> Result<()> {
    let how = words.text()?;
    let threads = words.count()?.max(1).min(64);
    let count = words.count()?;
    if how.as_str() == "claims" {
        let drawn = drawn_by(forks, rt.alloc(), threads, count)?;
        println!(rt; "{drawn} numbers drawn by {threads} threads")?;
    } else {
        let (calls, greatest) = called_by(forks, rt.alloc(), threads, count)?;
        println!(rt; "{calls} calls made by {threads} threads, the greatest reply {greatest}")?;
    }
    Ok(())
}
