//! `workload SEED COUNT` generates the modules of COUNT functions from the seed, and says how many modules and functions,
//! declarations among them, there are.
use crate::words::Words;
use anyhow::Result;

pub fn measure(rt: &HostRuntime, words: &mut Words) -> Result<()> {
    let modules = words.modules(rt.alloc())?;
    let mut functions: usize = 0;
    for module in modules.as_slice() {
        functions = functions.saturating_add(module.functions.len());
    }
    println!(rt; "{} modules, {functions} functions", modules.len())?;
    Ok(())
}
