//! The resolution of a link.
ghost use Rattle.std.specs.Prelude.{◌≡◌, ◌+◌, ◌<◌, ◌^◌, IfOk, length, map};
ghost use Rattle.resolution_text.specs.Answers.{Answers};
ghost use Rattle.symbol_resolution.specs.Symbols.{symbols_in, symbols_from, symbols_of_link};
ghost use Rattle.symbol_resolution.specs.Definitions.{prevailing_in, kind_in};
ghost use Rattle.symbol_resolution.specs.Resolving.{word_by, resolved_by, files_from, first_fault, resolve_of, GivesFault};

use crate::definitions::SymbolPlace;
use crate::table::NameTable;
use gimple_ir::{Linkage, List, Name, NoMemory};
use lto_object::{Object, Symbol};
use resolution_text::{Resolution, ResolutionError, Resolved, ResolvedFile, Word};
use std::alloc::Global;

fn word(prevailing: Option<SymbolPlace>, at: SymbolPlace, symbol: &Symbol) -> Word
    ensures { result ≡ word_by prevailing (record { at = at; symbol = symbol.now }) }
{
    if let Linkage::Extern = symbol.linkage {
        return Word::ResolvedIr;
    }
    match prevailing {
        None => Word::PreemptedIr,
        Some(first) => {
            if first.object == at.object && first.place == at.place {
                if symbol.name.as_str() == "main" {
                    Word::PrevailingDef
                } else {
                    Word::PrevailingDefIronly
                }
            } else {
                Word::PreemptedIr
            }
        }
    }
}

/// The fault of the first of these symbols' names that has one.
pub fn check_names(
    table: &NameTable<'_>,
    object: usize,
    symbols: &[Symbol],
) -> Result<(), ResolutionError>
    ensures { GivesFault result (first_fault (kind_in table.now.definitions) (symbols_in object 0 symbols.now)) }
{
    for symbol in symbols {
        if let Some(kind) = table.of(symbol.name.as_str()).fault() {
            let name = symbol.name.copy()?;
            return Err(ResolutionError::AtName { kind, name });
        }
    }
    Ok(())
}

// The fault of the first name of the link that has one.
fn check_link(table: &NameTable<'_>, objects: &[Object<'_>]) -> Result<(), ResolutionError>
    ensures { GivesFault result (first_fault (kind_in table.now.definitions) (symbols_of_link objects.now)) }
{
    for (object, item) in objects.iter().enumerate() {
        if let Err(error) = check_names(table, object, item.symbols().as_slice()) {
            return Err(error);
        }
    }
    Ok(())
}

/// What is answered of an object's symbols.
pub fn words(
    alloc: Global,
    table: &NameTable<'_>,
    object: usize,
    symbols: &[Symbol],
) -> Result<List<Resolved>, NoMemory>
    requires { object + 1 < 2 ^ 64 }
    ensures { IfOk result (λ words. words ≡ map (resolved_by (prevailing_in table.now.definitions)) (symbols_in object 0 symbols.now)) }
{
    let mut words: List<Resolved> = List::new(alloc);
    for (place, symbol) in symbols.iter().enumerate() {
        let prevailing = table.of(symbol.name.as_str()).prevailing();
        words.push(Resolved {
            word: word(prevailing, SymbolPlace { object, place }, symbol),
            name: symbol.name.copy()?,
            id: object as u64 + 1,
        })?;
    }
    Ok(words)
}

fn files(
    alloc: Global,
    table: &NameTable<'_>,
    objects: &[Object<'_>],
    names: &[Name],
) -> Result<List<ResolvedFile>, NoMemory>
    requires { length names.now ≡ length objects.now }
    ensures { IfOk result (λ files. files ≡ files_from (prevailing_in table.now.definitions) 0 objects.now names.now) }
{
    let mut files: List<ResolvedFile> = List::new(alloc);
    for (object, item) in objects.iter().enumerate() {
        files.push(ResolvedFile {
            name: names[object].copy()?,
            words: words(alloc, table, object, item.symbols().as_slice())?,
        })?;
    }
    Ok(files)
}

/// The resolution of objects under as many names: of each name the first strong definition prevails, or else the first weak one.
/// A fault is `AtName`, of the first symbol's name that has one: `TwoPrevailing` where it has two strong definitions, and
/// `NoPrevailing` where it has none at all.
pub fn resolve(
    alloc: Global,
    objects: &[Object<'_>],
    names: &[Name],
) -> Result<Resolution, ResolutionError>
    requires names { length names.now ≡ length objects.now }
    ensures exact { Answers result (resolve_of objects.now names.now) }
{
    let table = NameTable::of_link(alloc, objects)?;
    check_link(&table, objects)?;
    let files = files(alloc, &table, objects, names)?;
    Ok(Resolution { files })
}
