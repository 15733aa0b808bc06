//! Reads the text of a resolution, line by line.
ghost use Rattle.std.specs.Prelude.{◌≡◌, ◌+◌, ◌<◌, ◌^◌, IfOk, length};
ghost use Rattle.cursors.specs.Decimals.{decimal_value};
ghost use Rattle.text_lines.specs.Reading.{Gives, GivesAll, Refuses, line_by, counted};
ghost use Rattle.resolution_text.specs.Answers.{Answers};
ghost use Rattle.resolution_text.specs.Reading.{is_number, resolved_at, header_at, resolved_by, file_by, file_at, resolution_by, resolution_in};

use crate::fault::{ResolutionError, ResolutionKind};
use crate::fields::{id, word};
use crate::resolution::{Resolution, Resolved, ResolvedFile};
use cursors::decimal;
use gimple_ir::{List, Name, NoMemory};
use std::alloc::Global;
use text_lines::{LineError, LineReader, name, words};

fn is_slot(text: &[u8], slot: u64) -> bool
    ensures { result ≡ is_number slot (decimal_value text.now) }
{
    match decimal(text) {
        Some(number) => number == slot,
        None => false,
    }
}

/// The line `SLOT ID WORD NAME`.
fn resolved(alloc: Global, slot: u64, line: &[u8]) -> Result<Option<Resolved>, NoMemory>
    ensures { IfOk result (λ found. found ≡ resolved_at slot line.now) }
{
    let words = words(alloc, line)?;
    if words.len() != 4 {
        return Ok(None);
    }
    let (at, digits, spelled, called) = (words[0], words[1], words[2], words[3]);
    if !is_slot(at, slot) {
        return Ok(None);
    }
    let Some(id) = id(digits) else {
        return Ok(None);
    };
    let Some(word) = word(spelled) else {
        return Ok(None);
    };
    match name(alloc, called)? {
        Some(name) => Ok(Some(Resolved { word, name, id })),
        None => Ok(None),
    }
}

/// The line `NAME COUNT`.
fn header(alloc: Global, line: &[u8]) -> Result<Option<(Name, u64)>, NoMemory>
    ensures { IfOk result (λ found. found ≡ header_at line.now) }
{
    let words = words(alloc, line)?;
    let [called, count] = words.as_slice() else {
        return Ok(None);
    };
    let Some(count) = decimal(count) else {
        return Ok(None);
    };
    match name(alloc, called)? {
        Some(name) => Ok(Some((name, count))),
        None => Ok(None),
    }
}

/// The next line, `SLOT ID WORD NAME`.
fn one_resolved(alloc: Global, slot: u64, lines: &mut LineReader<'_>) -> Result<Resolved, LineError>
    ensures { Gives result lines.new (resolved_by slot lines.old) }
{
    let number = lines.number();
    let Some(line) = lines.line() else {
        return Err(LineError::BadLine { line: number });
    };
    match resolved(alloc, slot, line)? {
        Some(resolved) => Ok(resolved),
        None => Err(LineError::BadLine { line: number }),
    }
}

/// As many lines as the count says, with the slots from 0 on.
fn resolved_lines(
    alloc: Global,
    count: u64,
    lines: &mut LineReader<'_>,
) -> Result<List<Resolved>, LineError>
    ensures { Gives result lines.new (counted resolved_by count 0 lines.old) }
{
    let mut words: List<Resolved> = List::new(alloc);
    for slot in 0..count {
        let word = one_resolved(alloc, slot, lines)?;
        words.push(word)?;
    }
    Ok(words)
}

/// The next line, `NAME COUNT`.
fn one_header(alloc: Global, lines: &mut LineReader<'_>) -> Result<(Name, u64), LineError>
    ensures { Gives result lines.new (line_by header_at lines.old) }
{
    let number = lines.number();
    let Some(line) = lines.line() else {
        return Err(LineError::BadLine { line: number });
    };
    match header(alloc, line)? {
        Some(header) => Ok(header),
        None => Err(LineError::BadLine { line: number }),
    }
}

/// The next line, `FILES`.
fn one_count(lines: &mut LineReader<'_>) -> Result<u64, LineError>
    ensures { Gives result lines.new (line_by decimal_value lines.old) }
{
    let number = lines.number();
    let Some(line) = lines.line() else {
        return Err(LineError::BadLine { line: number });
    };
    match decimal(line) {
        Some(count) => Ok(count),
        None => Err(LineError::BadLine { line: number }),
    }
}

fn one_file(alloc: Global, lines: &mut LineReader<'_>) -> Result<ResolvedFile, LineError>
    ensures { Gives result lines.new (file_by lines.old) }
{
    let (name, count) = one_header(alloc, lines)?;
    let words = resolved_lines(alloc, count, lines)?;
    Ok(ResolvedFile { name, words })
}

fn files(
    alloc: Global,
    count: u64,
    lines: &mut LineReader<'_>,
) -> Result<List<ResolvedFile>, LineError>
    ensures { Gives result lines.new (counted file_at count 0 lines.old) }
{
    let mut files: List<ResolvedFile> = List::new(alloc);
    for done in 0..count {
        let file = one_file(alloc, lines)?;
        files.push(file)?;
    }
    Ok(files)
}

fn resolution(alloc: Global, lines: &mut LineReader<'_>) -> Result<Resolution, LineError>
    ensures { GivesAll result (resolution_by lines.old) }
{
    let count = one_count(lines)?;
    let files = files(alloc, count, lines)?;
    lines.end()?;
    Ok(Resolution { files })
}

/// The resolution that a text of at most 2^32 - 2 bytes spells, or `AtLine` with `BadLine` and its first bad line. A line
/// that is missing is the one behind the last.
pub fn read_resolution(alloc: Global, text: &[u8]) -> Result<Resolution, ResolutionError>
    requires { length text.now + 1 < 2 ^ 32 }
    ensures { Answers result (resolution_in text.now) }
{
    let mut lines = LineReader::new(text);
    match resolution(alloc, &mut lines) {
        Ok(resolution) => Ok(resolution),
        Err(LineError::BadLine { line }) => Err(ResolutionError::AtLine {
            kind: ResolutionKind::BadLine,
            line,
        }),
        Err(LineError::NoMemory) => Err(ResolutionError::NoMemory),
    }
}
