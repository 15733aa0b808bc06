//! The fault of the first line of a resolution that has one.
ghost use Rattle.std.specs.Prelude.{◌≡◌, ◌+◌, ◌<◌, ◌^◌, length, sum_by};
ghost use Rattle.symbol_resolution.specs.LineFaults.{is_native as native, is_misplaced as misplaced, word_fault, words_fault, header_fault, file_fault, files_fault, line_fault};
ghost use Rattle.symbol_resolution.specs.Lines.{lines_of};
ghost use Rattle.symbol_resolution.specs.Merging.{AreFew};
ghost use Rattle.symbol_resolution.specs.Resolving.{GivesFault};

use crate::marks::is_prevailing;
use gimple_ir::{Linkage, Name};
use lto_object::{Object, Symbol};
use resolution_text::{Resolution, ResolutionError, ResolutionKind, Resolved, ResolvedFile, Word};

fn is_native(word: Word) -> bool
    ensures { result ≡ native word }
{
    matches!(
        word,
        Word::Unknown | Word::Undef | Word::PreemptedReg | Word::ResolvedExec | Word::ResolvedDyn
    )
}

fn is_misplaced(linkage: Linkage, word: Word) -> bool
    ensures { result ≡ misplaced linkage word }
{
    match linkage {
        Linkage::Extern => matches!(word, Word::PreemptedIr) || is_prevailing(word),
        _ => matches!(word, Word::ResolvedIr),
    }
}

fn fault_of_word(symbol: &Symbol, resolved: &Resolved) -> Option<ResolutionKind>
    ensures { result ≡ word_fault symbol.now resolved.now }
{
    if symbol.name != resolved.name {
        Some(ResolutionKind::SymbolName)
    } else if is_native(resolved.word) {
        Some(ResolutionKind::NativeWord)
    } else if is_misplaced(symbol.linkage, resolved.word) {
        Some(ResolutionKind::WordKind)
    } else {
        None
    }
}

fn check_words(line: u32, symbols: &[Symbol], words: &[Resolved]) -> Result<(), ResolutionError>
    requires same { length symbols.now ≡ length words.now }
    requires room { line + length words.now < 2 ^ 32 }
    ensures { GivesFault result (words_fault line symbols.now words.now) }
{
    for (place, symbol) in symbols.iter().enumerate() {
        if let Some(kind) = fault_of_word(symbol, &words[place]) {
            return Err(ResolutionError::AtLine {
                kind,
                line: line + place as u32,
            });
        }
    }
    Ok(())
}

fn fault_of_header(name: &Name, object: &Object<'_>, file: &ResolvedFile) -> Option<ResolutionKind>
    ensures { result ≡ header_fault name.now object.now file.now }
{
    if *name != file.name {
        Some(ResolutionKind::FileName)
    } else if object.symbols().len() == file.words.len() {
        None
    } else {
        Some(ResolutionKind::SymbolCount)
    }
}

fn check_file(
    line: u32,
    name: &Name,
    object: &Object<'_>,
    file: &ResolvedFile,
) -> Result<(), ResolutionError>
    requires { line + 1 + length object.now.symbols < 2 ^ 32 }
    ensures { GivesFault result (file_fault line name.now object.now file.now) }
{
    if let Some(kind) = fault_of_header(name, object, file) {
        return Err(ResolutionError::AtLine { kind, line });
    }
    check_words(line + 1, object.symbols().as_slice(), file.words.as_slice())
}

fn check_files(
    names: &[Name],
    objects: &[Object<'_>],
    files: &[ResolvedFile],
) -> Result<(), ResolutionError>
    requires names { length names.now ≡ length objects.now }
    requires objects { length files.now ≡ length objects.now }
    requires room { 2 + sum_by lines_of objects.now < 2 ^ 32 }
    ensures { GivesFault result (files_fault 2 names.now objects.now files.now) }
{
    let mut line = 2u32;
    for (place, object) in objects.iter().enumerate() {
        let symbols = object.symbols().as_slice();
        let file = &files[place];
        if let Err(error) = check_file(line, &names[place], object, file) {
            return Err(error);
        }
        line += 1 + symbols.len() as u32;
    }
    Ok(())
}

/// Checks the lines of a resolution, one after the other.
pub fn check_lines(
    objects: &[Object<'_>],
    names: &[Name],
    resolution: &Resolution,
) -> Result<(), ResolutionError>
    requires names { length names.now ≡ length objects.now }
    requires few { AreFew objects.now }
    ensures { GivesFault result (line_fault objects.now names.now resolution.now) }
{
    if resolution.files.len() != objects.len() {
        return Err(ResolutionError::AtLine {
            kind: ResolutionKind::FileCount,
            line: 1,
        });
    }
    check_files(names, objects, resolution.files.as_slice())
}
