//! `objects HOW SEED COUNT TIMES` generates the modules of COUNT functions from the seed, prints each as a text of its own and
//! makes its object. Then it makes each object from its text again TIMES times (`lgen`), or each text from its object (`show`).
//! It says how many bytes the texts and the objects have, and how many were made again and differ.
ghost use Rattle.std.specs.Prelude.{◌<◌, ◌-◌, ◌^◌, length};
ghost use Rattle.gimple_syntax.specs.Reading.{SpellsModule};

use crate::words::Words;
use anyhow::{Result, bail};
use gimple_ir::{Module, NoMemory};
use gimple_print::print_module;
use gimple_syntax::read_module;
use lto_object::{lgen, read_object};
use std::alloc::Global;
use text_laws::read_is_checked;

/// How many bytes texts and objects have, and how many were made again and differ.
#[derive(Drop)]
struct Made {
    text: usize,
    object: usize,
    differ: u64,
}

pub fn measure(rt: &HostRuntime, words: &mut Words) -> Result<()> {
    let how = words.text()?;
    let modules = words.modules(rt.alloc())?;
    let times = words.count()?;
    let mut all = Made {
        text: 0,
        object: 0,
        differ: 0,
    };
    for source in modules.as_slice() {
        let made = made_again(rt.alloc(), how.as_str(), source, times)?;
        all.text = all.text.saturating_add(made.text);
        all.object = all.object.saturating_add(made.object);
        all.differ = all.differ.saturating_add(made.differ);
    }
    let Made {
        text,
        object,
        differ,
    } = all;
    println!(rt; "{text} bytes of text, {object} of objects, {differ} differ")?;
    Ok(())
}

/// Makes the text and the object of a module, and one of them again so many times.
fn made_again(alloc: Global, how: &str, source: &Module, times: u32) -> Result<Made> {
    let text = print_module(alloc, source)?;
    let object = object_of(alloc, &text)?;
    let differ = if how == "show" {
        texts_differ(alloc, &object, &text, times)?
    } else {
        objects_differ(alloc, &text, &object, times)?
    };
    Ok(Made {
        text: text.len(),
        object: object.len(),
        differ,
    })
}

/// The object of a text.
pub fn object_of(alloc: Global, text: &[u8]) -> Result<Vec<u8>> {
    if text.len() >= u32::MAX as usize {
        bail!("a text has more than 2^32 - 2 bytes");
    }
    let source = read_module(alloc, text)?;
    Ok(spelled_object(alloc, text, &source)?)
}

/// The object of a module that a text spells.
fn spelled_object(alloc: Global, text: &[u8], source: &Module) -> Result<Vec<u8>, NoMemory>
    requires short { length text.now < 2 ^ 32 - 1 }
    requires spelled { SpellsModule text.now source.now }
{
    read_is_checked();
    lgen(alloc, source)
}

/// The text of an object's module.
fn text_of(alloc: Global, object: &[u8]) -> Result<Vec<u8>> {
    if object.len() >= u32::MAX as usize {
        bail!("an object has more than 2^32 - 2 bytes");
    }
    let found = read_object(alloc, object)?;
    Ok(print_module(alloc, found.module())?)
}

/// How many of so many objects of the text are another one.
fn objects_differ(alloc: Global, text: &[u8], object: &[u8], times: u32) -> Result<u64> {
    let mut differ = 0u64;
    for _ in 0..times {
        if object_of(alloc, text)?.as_slice() != object {
            differ = differ.saturating_add(1);
        }
    }
    Ok(differ)
}

/// How many of so many texts of the object are another one.
fn texts_differ(alloc: Global, object: &[u8], text: &[u8], times: u32) -> Result<u64> {
    let mut differ = 0u64;
    for _ in 0..times {
        if text_of(alloc, object)?.as_slice() != text {
            differ = differ.saturating_add(1);
        }
    }
    Ok(differ)
}
