//! Texts of modules, read and checked TIMES times.
//!
//! `syntax SEED COUNT TIMES` generates the modules of COUNT functions from the seed and prints each as a text of its own.
//! `syntax one COUNT TIMES` has one text of COUNT functions of fifty statements: 16 MB for 20,000.
use crate::words::Words;
use anyhow::{Result, bail};
use gimple_ir::Module;
use gimple_print::print_module;
use gimple_syntax::read_module;
use std::alloc::{AllocError, Global};
use workload_gen::generate;

pub fn measure(rt: &HostRuntime, words: &mut Words) -> Result<()> {
    let texts = words.text()?;
    let count = words.count()?;
    let times = words.count()?;
    let bytes = if texts.as_str() == "one" {
        large_read(rt.alloc(), count, times)?
    } else {
        generated_read(rt.alloc(), texts.parse::<u64>()?, count, times)?
    };
    println!(rt; "{bytes} bytes of text")?;
    Ok(())
}

/// The number of bytes of the one text, which is read so many times.
fn large_read(alloc: Global, count: u32, times: u32) -> Result<usize> {
    let text = large_text(alloc, count)?;
    read_often(alloc, text.as_bytes(), times)?;
    Ok(text.len())
}

/// The number of bytes of the generated texts, each of which is read so many times.
fn generated_read(alloc: Global, seed: u64, count: u32, times: u32) -> Result<usize> {
    let modules = generate(alloc, seed, count)?;
    let mut bytes: usize = 0;
    for source in modules.as_slice() {
        bytes = bytes.saturating_add(printed_and_read(alloc, source, times)?);
    }
    Ok(bytes)
}

/// The number of bytes of the module's text, which is read so many times.
fn printed_and_read(alloc: Global, source: &Module, times: u32) -> Result<usize> {
    let text = print_module(alloc, source)?;
    read_often(alloc, &text, times)?;
    Ok(text.len())
}

/// Reads the text so many times.
fn read_often(alloc: Global, text: &[u8], times: u32) -> Result<()> {
    if text.len() >= u32::MAX as usize {
        bail!("a text has more than 2^32 - 2 bytes");
    }
    for _ in 0..times {
        let _module = read_module(alloc, text)?;
    }
    Ok(())
}

/// A text of so many functions, of which each calls the one before it.
fn large_text(alloc: Global, count: u32) -> Result<String, AllocError> {
    let mut text = String::new(alloc);
    for number in 0..count {
        let head = format!(in alloc;
            "static int f{number} (int a)\n{{\n  int x;\n  int y;\n  x = a + {number};\n"
        )?;
        text.push_str(head.as_str())?;
        for _ in 0..12 {
            text.push_str("  y = x * a;\n  x = y - x;\n")?;
            let call = format!(in alloc; "  y = f{} (x);\n  x = y;\n", number.saturating_sub(1))?;
            text.push_str(call.as_str())?;
        }
        text.push_str("  return x;\n}\n")?;
    }
    Ok(text)
}
