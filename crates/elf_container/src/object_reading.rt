//! Reading the relocatable object of a unit: its sections are parsed into a value, which is tested, written again and compared.
ghost use Rattle.std.specs.Prelude.{◌≡◌, drop, length, IfOk};
ghost use Rattle.elf_container.specs.declared.relocatable.RelocObject.{RelocObject};
ghost use Rattle.elf_container.specs.Reading.{read_of};
ghost use Rattle.elf_container.specs.Relocatable.{IsObject, ObjectFits, object_bytes, IsUnlessMemory, BadAt, offset_of_fault};
ghost use Rattle.elf_container.specs.ObjectReading.{part, start_by, symbol_by, named_by, parsed, tested, object_in, Finds, Answers};

use crate::entries::{Sym, entries};
use crate::fault::ElfError;
use crate::format::STB_GLOBAL_STT_FUNC;
use crate::names::name_at;
use crate::object_form::is_object;
use crate::reading::{difference, read_rel};
use crate::relocatable::{FormError, RelSymbol, RelocObject, write_object};
use crate::sections::RelView;
use gimple_ir::{List, Name, NoMemory};
use std::alloc::Global;

fn start_of(entry: &Sym) -> Option<u64>
    ensures { result ≡ start_by entry.now }
{
    if entry.info == STB_GLOBAL_STT_FUNC {
        Some(entry.value)
    } else {
        None
    }
}

/// The symbols of entries, where each has a name.
fn named(
    alloc: Global,
    strings: &[u8],
    entries: &[Sym],
) -> Result<Option<List<RelSymbol>>, NoMemory>
    ensures { IfOk result (λ found. found ≡ named_by strings.now entries.now) }
{
    let mut symbols = List::new(alloc);
    for entry in entries {
        match name_at(alloc, strings, entry.name as usize)? {
            None => return Ok(None),
            Some(name) => symbols.push(RelSymbol {
                name,
                start: start_of(entry),
                size: entry.size,
            })?,
        }
    }
    Ok(Some(symbols))
}

/// The bytes after the zero symbol.
fn behind_zero(symtab: &[u8]) -> &[u8]
    ensures { result.now ≡ drop 24 symtab.now }
{
    if symtab.len() < 24 {
        return &[];
    }
    symtab.split_at(24).1
}

#[tactic(auto, unfolding(crate::specs::ObjectReading::parsed))]
fn parsed(
    alloc: Global,
    text: &[u8],
    rela: &[u8],
    symtab: &[u8],
    strtab: &[u8],
) -> Result<Option<RelocObject>, NoMemory>
    ensures { IfOk result (λ found. found ≡ parsed text.now rela.now symtab.now strtab.now) }
{
    let words = entries(alloc, text, text.len() / 4)?;
    let relocations = entries(alloc, rela, rela.len() / 24)?;
    let count = (symtab.len() / 24).saturating_sub(1);
    let listed = entries(alloc, behind_zero(symtab), count)?;
    match named(alloc, strtab, listed.as_slice())? {
        None => Ok(None),
        Some(symbols) => Ok(Some(RelocObject {
            symbols,
            words: List::from_vec(words),
            relocations: List::from_vec(relocations),
        })),
    }
}

/// The value, if it has the form and the bytes are its spelling.
#[tactic(auto, unfolding(crate::specs::ObjectReading::tested))]
fn tested(alloc: Global, bytes: &[u8], object: RelocObject) -> Result<Option<RelocObject>, NoMemory>
    ensures { IfOk result (λ found. found ≡ tested bytes.now object) }
{
    if !is_object(alloc, &object)? {
        return Ok(None);
    }
    let again = write_object(alloc, &object)?;
    match difference(bytes, again.as_slice()) {
        None => Ok(Some(object)),
        Some(_) => Ok(None),
    }
}

/// The bytes of the section at a place.
fn part<'a>(view: &RelView<'a>, place: usize) -> &'a [u8]
    ensures { result.now ≡ part place view.now }
{
    match view.sections().as_slice().get(place) {
        None => &[],
        Some(section) => section.bytes,
    }
}

#[tactic(auto, unfolding(crate::specs::ObjectReading::object_in))]
fn object_in(alloc: Global, bytes: &[u8], view: &RelView) -> Result<Option<RelocObject>, NoMemory>
    ensures { IfOk result (λ found. found ≡ object_in bytes.now view.now) }
{
    let found = parsed(
        alloc,
        part(view, 0),
        part(view, 1),
        part(view, 2),
        part(view, 3),
    )?;
    match found {
        None => Ok(None),
        Some(object) => tested(alloc, bytes, object),
    }
}

fn object_of(alloc: Global, bytes: &[u8], view: &RelView) -> Result<RelocObject, FormError>
    ensures { Finds result (object_in bytes.now view.now) }
{
    match object_in(alloc, bytes, view) {
        Err(_) => Err(FormError::NoMemory),
        Ok(None) => Err(FormError::Bad { offset: 0 }),
        Ok(Some(object)) => Ok(object),
    }
}

fn answer(alloc: Global, bytes: &[u8]) -> Result<RelocObject, FormError>
    ensures { Answers bytes.now result (read_of bytes.now) }
{
    match read_rel(alloc, bytes) {
        Err(ElfError::NoMemory) => Err(FormError::NoMemory),
        Err(ElfError::Fault(fault)) => Err(FormError::Bad {
            offset: fault.offset,
        }),
        Ok(view) => object_of(alloc, bytes, &view),
    }
}

/// The object whose spelling the bytes are. Bytes of another form are `Bad` at the file's fault where `read_rel` refuses them, and
/// else at 0.
pub fn read_object_form(alloc: Global, bytes: &[u8]) -> Result<RelocObject, FormError>
    // What is read has the form and is spelled so, and what is spelled so is read, unless memory runs out.
    ensures found { IfOk result (λ o. IsObject o × (bytes.now ≡ object_bytes o)) }
    ensures only { (o : RelocObject) → IsObject o → ObjectFits o → bytes.now ≡ object_bytes o → IsUnlessMemory result o }

    // Where bytes of another form are bad.
    ensures offset { BadAt result (offset_of_fault (read_of bytes.now)) }
{
    answer(alloc, bytes)
}
