//! Rows of generated modules.
use crate::lines::parted;
use anyhow::Result;
use gimple_ir::{Linkage, List, Module};
use gimple_print::print_module;
use std::alloc::Global;
use workload_gen::generate;

/// Whether the modules of a seed and a count are as the line says.
pub fn workload_row(alloc: Global, word: &str, line: &str) -> Result<bool> {
    let (seed, rest) = parted(line);
    let (count, rest) = parted(rest);
    let modules = generate(alloc, seed.parse::<u64>()?, count.parse::<u32>()?)?;
    match word {
        "modules" => Ok(modules.len() == rest.parse::<usize>()?),
        "defined" => Ok(defined(&modules) == rest.parse::<usize>()?),
        _ => {
            let (number, rest) = parted(rest);
            match modules.as_slice().get(number.parse::<usize>()?) {
                Some(module) => module_row(alloc, module, word, rest),
                None => Ok(false),
            }
        }
    }
}

/// Whether one of them is.
fn module_row(alloc: Global, module: &Module, word: &str, line: &str) -> Result<bool> {
    match word {
        "functions" => Ok(module.functions.len() == line.parse::<usize>()?),
        "declared" => Ok(declared(module) == line.parse::<usize>()?),
        _ => {
            let (place, wanted) = parted(line);
            let text = print_module(alloc, module)?;
            let before = place.parse::<usize>()?.saturating_sub(1);
            let found = str::from_utf8(&text)?.lines().nth(before);
            Ok(found == Some(wanted))
        }
    }
}

/// How many functions a module declares.
fn declared(module: &Module) -> usize {
    module
        .functions
        .as_slice()
        .iter()
        .filter(|function| function.linkage == Linkage::Extern)
        .count()
}

/// How many functions the modules define together.
fn defined(modules: &List<Module>) -> usize {
    let mut count: usize = 0;
    for module in modules.as_slice() {
        let own = module.functions.len().saturating_sub(declared(module));
        count = count.saturating_add(own);
    }
    count
}
