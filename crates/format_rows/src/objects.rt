//! Rows of relocatable objects.
use crate::containers::container_fault;
use crate::parts::{copied, hexadecimal};
use anyhow::{Result, bail};
use elf_container::{FormError, RelocObject, read_object_form, write_object};
use std::alloc::Global;

/// What a row asks of a file, which is read as a container or as an object.
pub fn object_row(alloc: Global, reader: &str, bytes: &[u8], part: &str) -> Result<String> {
    match reader {
        "container" => container_fault(alloc, bytes),
        "object" => object(alloc, bytes, part),
        _ => bail!("no reader: {reader}"),
    }
}

/// What a row asks of an object; its fault where the bytes are of another form.
fn object(alloc: Global, bytes: &[u8], part: &str) -> Result<String> {
    let found = match read_object_form(alloc, bytes) {
        Ok(found) => found,
        Err(FormError::Bad { offset }) => return Ok(format!(in alloc; "Bad {offset}")?),
        Err(FormError::NoMemory) => bail!("out of memory"),
    };
    if part != "is" {
        return shown(alloc, &found, part);
    }
    let again = write_object(alloc, &found)?;
    copied(
        alloc,
        if again.as_slice() == bytes {
            "read"
        } else {
            "written otherwise"
        },
    )
}

/// A part of an object.
fn shown(alloc: Global, object: &RelocObject, part: &str) -> Result<String> {
    match part {
        "words" => hexadecimal(alloc, object.words.as_slice()),
        "symbols" => {
            let symbols = object.symbols.as_slice();
            Ok(format!(in alloc; "{symbols:?}")?)
        }
        _ => {
            let relocations = object.relocations.as_slice();
            Ok(format!(in alloc; "{relocations:?}")?)
        }
    }
}
