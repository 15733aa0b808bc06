//! Prints the one text of a resolution.
ghost use Rattle.std.specs.Prelude.{◌≡◌, ◌++◌, ◌∷◌, [], IfOk, OnOk, Ok, decimal, length, string_bytes, false};
ghost use Rattle.std.specs.Fmt.{digits};
ghost use Rattle.resolution_text.specs.declared.resolution.Resolution.{Resolution};
ghost use Rattle.resolution_text.specs.Printing.{word_line, word_lines, header_line, file_text, text_of, IsResolution};
ghost use Rattle.resolution_text.specs.Reading.{resolution_in};

use crate::fields::spelling;
use crate::resolution::{Resolution, Resolved, ResolvedFile};
use gimple_ir::NoMemory;
use std::alloc::Global;

fn word_text(
    alloc: Global,
    slot: usize,
    id: u64,
    word: &str,
    name: &str,
) -> Result<String, NoMemory>
    ensures { IfOk result (λ text. string_bytes text ≡ decimal slot ++ (32 ∷ (digits 16 false id ++ (32 ∷ (word.now ++ (32 ∷ (name.now ++ 10 ∷ []))))))) }
{
    format!(in alloc; "{slot} {id:x} {word} {name}\n")
}

fn line(alloc: Global, slot: usize, resolved: &Resolved) -> Result<String, NoMemory>
    ensures { IfOk result (λ line. string_bytes line ≡ word_line slot resolved.now) }
{
    word_text(
        alloc,
        slot,
        resolved.id,
        spelling(resolved.word),
        resolved.name.as_str(),
    )
}

fn header_text(alloc: Global, name: &str, count: usize) -> Result<String, NoMemory>
    ensures { IfOk result (λ text. string_bytes text ≡ name.now ++ (32 ∷ (decimal count ++ 10 ∷ []))) }
{
    format!(in alloc; "{name} {count}\n")
}

fn header(alloc: Global, file: &ResolvedFile) -> Result<String, NoMemory>
    ensures { IfOk result (λ line. string_bytes line ≡ header_line file.now) }
{
    header_text(alloc, file.name.as_str(), file.words.len())
}

fn put_words(alloc: Global, out: &mut Vec<u8>, words: &[Resolved]) -> Result<(), NoMemory>
    ensures { OnOk result (out.new.items ≡ out.old.items ++ word_lines 0 words.now) }
{
    for (slot, resolved) in words.iter().enumerate() {
        out.extend_from_slice(line(alloc, slot, resolved)?.as_bytes())?;
    }
    Ok(())
}

fn put_file(alloc: Global, out: &mut Vec<u8>, file: &ResolvedFile) -> Result<(), NoMemory>
    ensures { OnOk result (out.new.items ≡ out.old.items ++ file_text file.now) }
{
    out.extend_from_slice(header(alloc, file)?.as_bytes())?;
    put_words(alloc, out, file.words.as_slice())
}

/// The text of a resolution: ids in lower case without leading zeros, each line with its newline.
pub fn print_resolution(alloc: Global, resolution: &Resolution) -> Result<Vec<u8>, NoMemory>
    ensures { IfOk result (λ text. text.items ≡ text_of resolution.now) }
{
    let mut text = Vec::new(alloc);
    let count = resolution.files.len();
    text.extend_from_slice(format!(in alloc; "{count}\n")?.as_bytes())?;
    for file in resolution.files.as_slice() {
        put_file(alloc, &mut text, file)?;
    }
    Ok(text)
}

/// What is printed of a resolution is read back as that resolution.
pub fn printed_text_is_read()
    ensures { (r : Resolution) → IsResolution r → resolution_in (text_of r) ≡ Ok r }
{}
