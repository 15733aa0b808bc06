//! `partition VERSIONS CALLS WANTED` cuts so many versions with so many calls into so many partitions, and says how many ranges
//! there are. Sizes and calls are drawn by a generator of linear congruences.
ghost use Rattle.std.specs.Prelude.{◌≡◌, ◌^◌, ◌<◌, All, IfOk, length, sum};
ghost use Rattle.balanced_partition.specs.Cuts.{IsBetween};

use crate::words::Words;
use anyhow::Result;
use balanced_partition::{NoMemory, cut};
use std::alloc::Global;

pub fn measure(rt: &HostRuntime, words: &mut Words) -> Result<()> {
    let versions = words.count()?.max(1);
    let calls = words.count()?;
    let wanted = words.count()?.max(1);
    let sizes = sizes_of(rt.alloc(), versions)?;
    let calls = calls_of(rt.alloc(), versions, calls)?;
    let ranges = cut(rt.alloc(), sizes.as_slice(), calls.as_slice(), wanted)?;
    let count = ranges.len();
    println!(rt;
        "{versions} versions: {count} ranges, at most {}",
        4 * wanted as u64 + 1
    )?;
    Ok(())
}

/// Numbers that look random, each below 2^31.
#[derive(Drop)]
struct Draws(u64);

impl Draws {
    fn next(&mut self) -> u32
        ensures { result < 2 ^ 31 }
    {
        self.0 = self
            .0
            .wrapping_mul(6364136223846793005)
            .wrapping_add(1442695040888963407);
        (self.0 >> 33) as u32
    }
}

/// Sizes below 1,024.
fn sizes_of(alloc: Global, count: u32) -> Result<Vec<u64>, NoMemory>
    ensures count { IfOk result (λ sizes. length sizes.items ≡ count) }
    ensures sum { IfOk result (λ sizes. sum sizes.items < 2 ^ 62) }
{
    let mut draws = Draws(1);
    let mut sizes = Vec::new(alloc);
    for _ in 0..count {
        sizes.push((draws.next() % 1024) as u64)?;
    }
    Ok(sizes)
}

fn calls_of(alloc: Global, versions: u32, count: u32) -> Result<Vec<(u32, u32)>, NoMemory>
    requires { 0 < versions }
    ensures { IfOk result (λ calls. All (IsBetween versions) calls.items) }
{
    let mut draws = Draws(2);
    let mut calls = Vec::new(alloc);
    for _ in 0..count {
        let caller = draws.next() % versions;
        let callee = draws.next() % versions;
        calls.push((caller, callee))?;
    }
    Ok(calls)
}
