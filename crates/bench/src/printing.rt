//! `printing SEED COUNT TIMES` generates the modules of COUNT functions from the seed, and prints them all as texts TIMES times.
use crate::words::Words;
use anyhow::Result;
use gimple_ir::{Module, NoMemory};
use gimple_print::print_module;
use std::alloc::Global;

pub fn measure(rt: &HostRuntime, words: &mut Words) -> Result<()> {
    let modules = words.modules(rt.alloc())?;
    let mut bytes = 0;
    for _ in 0..words.count()? {
        bytes = printed(rt.alloc(), modules.as_slice())?;
    }
    println!(rt; "{} modules, {bytes} bytes", modules.len())?;
    Ok(())
}

/// The number of bytes in the texts of all modules.
fn printed(alloc: Global, modules: &[Module]) -> Result<usize, NoMemory> {
    let mut bytes: usize = 0;
    for source in modules {
        let text = print_module(alloc, source)?;
        bytes = bytes.saturating_add(text.len());
    }
    Ok(bytes)
}
