//! Rows of texts of lines: their lines and words, and resolutions.
ghost use Rattle.std.specs.Prelude.{◌+◌, ◌<◌, ◌^◌, length};

use crate::parts::{copied, parted, spelled};
use anyhow::{Result, bail};
use cursors::TextCursor;
use resolution_text::{print_resolution, read_resolution};
use std::alloc::Global;
use text_lines::{LineReader, name, words};

/// The answer of a row on a text.
pub fn text_row(alloc: Global, kind: &str, input: &str) -> Result<String> {
    let (first, second) = parted(input);
    match kind {
        "lines" => lines(alloc, &spelled(alloc, input)?),
        "parts" => parts(alloc, &spelled(alloc, input)?),
        "end" => end(alloc, first.parse::<u32>()?, &spelled(alloc, second)?),
        "name" => name_row(alloc, &spelled(alloc, input)?),
        "resolution" => resolution(alloc, &spelled(alloc, input)?),
        _ => bail!("no row: {kind}"),
    }
}

/// Puts a bar and a part of a text.
fn put_part(alloc: Global, text: &mut String, part: &[u8]) -> Result<()> {
    let part = part.escape_ascii();
    text.push_str(format!(in alloc; "|{part}")?.as_str())?;
    Ok(())
}

/// The lines of a text.
fn lines(alloc: Global, bytes: &[u8]) -> Result<String> {
    let mut cursor = TextCursor::new(bytes);
    let mut text = String::new(alloc);
    for _ in bytes {
        if let Some(line) = cursor.line() {
            put_part(alloc, &mut text, line)?;
        }
    }
    Ok(text)
}

/// The words of a line.
fn parts(alloc: Global, line: &[u8]) -> Result<String> {
    let mut text = String::new(alloc);
    for word in words(alloc, line)? {
        put_part(alloc, &mut text, word)?;
    }
    Ok(text)
}

/// What the end of a text is behind so many lines, and what it is then.
fn end(alloc: Global, count: u32, bytes: &[u8]) -> Result<String> {
    if bytes.len() > 1_000_000 {
        bail!("too long a text");
    }
    let mut lines = LineReader::new(bytes);
    for _ in 0..count {
        lines.line();
    }
    let number = lines.number();
    let first = lines.end();
    let second = lines.end();
    Ok(format!(in alloc; "{number} {first:?} {second:?}")?)
}

/// The name that a word is.
fn name_row(alloc: Global, word: &[u8]) -> Result<String> {
    match name(alloc, word)? {
        Some(name) => copied(alloc, name.as_str()),
        None => copied(alloc, "none"),
    }
}

/// A resolution as it is printed.
fn resolution(alloc: Global, bytes: &[u8]) -> Result<String> {
    if bytes.len() > 1_000_000 {
        bail!("too long a text");
    }
    let found = read_resolution(alloc, bytes)?;
    let text = print_resolution(alloc, &found)?;
    let text = text.escape_ascii();
    Ok(format!(in alloc; "{text}")?)
}
