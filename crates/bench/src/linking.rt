//! `linking COUNT TIMES` makes the image of an object of COUNT functions and a `main` TIMES times, and says how many bytes the text
//! and the image have. Each function calls the one before it, so that all of them are needed, and has twelve sums and products of
//! what that gives; the code bounds of 20,000 are together 31 MiB.
use crate::objects::object_of;
use crate::words::Words;
use anyhow::{Result, bail};
use gimple_ir::Name;
use lto_object::read_object;
use plain_link::link_one;
use std::alloc::{AllocError, Global};
use symbol_resolution::resolve;

pub fn measure(rt: &HostRuntime, words: &mut Words) -> Result<()> {
    let text = text_of(rt.alloc(), words.count()?)?;
    let bytes = image_bytes(rt.alloc(), text.as_bytes(), words.count()?)?;
    println!(rt; "text {}, image {bytes} bytes", text.len())?;
    Ok(())
}

/// The text of so many functions and a `main`, which calls the last of them.
fn text_of(alloc: Global, count: u32) -> Result<String, AllocError> {
    let mut text = String::new(alloc);
    let mut value = String::from_str(alloc, "a")?;
    for number in 0..count {
        let head = format!(in alloc; "int f{number} (int a)\n{{\n  int x;\n  x = {value};\n")?;
        text.push_str(head.as_str())?;
        for _ in 0..6 {
            text.push_str("  x = x + a;\n  x = x * a;\n")?;
        }
        text.push_str("  return x;\n}\n")?;
        value = format!(in alloc; "f{number} (a)")?;
    }
    let main = format!(in alloc;
        "int main ()\n{{\n  int a;\n  int x;\n  a = 3;\n  x = {value};\n  return x;\n}}\n"
    )?;
    text.push_str(main.as_str())?;
    Ok(text)
}

/// The size of the image of the text's object, which is made so many times.
fn image_bytes(alloc: Global, text: &[u8], times: u32) -> Result<usize> {
    let file = object_of(alloc, text)?;
    if file.len() >= u32::MAX as usize {
        bail!("an object has more than 2^32 - 2 bytes");
    }
    let objects = vec![in alloc; read_object(alloc, file.as_slice())?]?;
    let Some(name) = Name::read(alloc, b"bench.o")? else {
        bail!("no name");
    };
    let names = vec![in alloc; name]?;
    let resolution = resolve(alloc, objects.as_slice(), names.as_slice())?;
    let mut bytes = 0;
    for _ in 0..times {
        bytes = link_one(alloc, objects.as_slice(), names.as_slice(), &resolution)?.len();
    }
    Ok(bytes)
}
