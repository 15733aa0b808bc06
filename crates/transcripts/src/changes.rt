//! Rows of one command over a file that is changed at a byte, or cut.
use crate::files::put_spelled;
use crate::stage::Stage;
use anyhow::{Result, bail};
use std::alloc::Global;

/// The first word of a line, and what stands behind it.
pub fn parted(line: &str) -> (&str, &str) {
    line.split_once(' ').unwrap_or((line, ""))
}

// ---- bytes in the middle of a file

/// Puts bytes over those that stand at a place.
fn put_over(bytes: &mut [u8], offset: usize, new: &[u8]) -> Result<()> {
    for (place, byte) in new.iter().enumerate() {
        match bytes.get_mut(offset.saturating_add(place)) {
            Some(found) => *found = *byte,
            None => bail!("the file ends before them"),
        }
    }
    Ok(())
}

/// The bytes that words of hexadecimal digits spell, two digits each.
fn bytes_of(alloc: Global, words: &str) -> Result<Vec<u8>> {
    let mut bytes = Vec::new(alloc);
    for word in words.split_whitespace() {
        for pair in word.as_bytes().chunks(2) {
            bytes.push(u8::from_str_radix(str::from_utf8(pair)?, 16)?)?;
        }
    }
    Ok(bytes)
}

/// Puts the bytes that a line spells in hexadecimal at the offset with which it begins.
pub fn put_bytes(alloc: Global, bytes: &mut [u8], line: &str) -> Result<()> {
    let (offset, words) = parted(line);
    let new = bytes_of(alloc, words)?;
    put_over(bytes, offset.parse::<usize>()?, &new)
}

/// Puts the word that a line spells in hexadecimal at the offset with which it begins, its lowest byte first.
pub fn put_word(bytes: &mut [u8], line: &str) -> Result<()> {
    let (offset, word) = parted(line);
    let number = u32::from_str_radix(word, 16)?;
    let new = number.to_le_bytes();
    put_over(bytes, offset.parse::<usize>()?, new.as_slice())
}

// ---- rows

/// The line that a row says is printed: none where it is empty.
fn printed_line(alloc: Global, line: &str, turn: u64) -> Result<Vec<u8>> {
    let mut bytes = Vec::new(alloc);
    put_spelled(&mut bytes, line, turn)?;
    if bytes.len() > 0 {
        bytes.push(b'\n')?;
    }
    Ok(bytes)
}

/// A row: with one byte of a file changed, the command does what the line says.
pub fn changed(alloc: Global, stage: &mut Stage, name: &str, line: &str) -> Result<bool> {
    let (offset, more) = parted(line);
    let (number, more) = parted(more);
    let (status, text) = parted(more);
    let wanted = printed_line(alloc, text, 0)?;
    let before = stage.replace(name, offset.parse::<usize>()?, number.parse::<u8>()?)?;
    stage.again(alloc)?;
    stage.replace(name, offset.parse::<usize>()?, before)?;
    Ok(stage.printed(status.parse::<u8>()?, &wanted))
}

/// A row for each length below that of a file: cut to it, the command does what the line says. Ends with the first that differs.
pub fn cuts(alloc: Global, stage: &mut Stage, name: &str, line: &str) -> Result<bool> {
    let (status, text) = parted(line);
    let status = status.parse::<u8>()?;
    let whole = Vec::from_slice(alloc, stage.file(name)?)?;
    for length in 0..whole.len() {
        stage.file(name)?.truncate(0);
        stage
            .file(name)?
            .extend_from_slice(whole.get(..length).unwrap_or(b""))?;
        stage.again(alloc)?;
        let wanted = printed_line(alloc, text, length as u64)?;
        let holds = stage.printed(status, &wanted);
        if !stage.count(holds) {
            return Ok(false);
        }
    }
    stage.put_file(alloc, name, whole)?;
    Ok(true)
}

/// A row for each byte of an object: with it inverted, `show` refuses the object, or `lgen` makes this very object of the text that
/// is shown. Ends with the first that differs.
pub fn inverts(alloc: Global, stage: &mut Stage, name: &str) -> Result<bool> {
    for offset in 0..stage.file(name)?.len() {
        let before = stage.replace(name, offset, 0)?;
        stage.replace(name, offset, before ^ 0xff)?;
        let holds = is_refused_or_shown(alloc, stage, name)?;
        stage.replace(name, offset, before)?;
        if !stage.count(holds) {
            return Ok(false);
        }
    }
    Ok(true)
}

/// Whether `show` refuses the object, or shows the text whose object it is.
fn is_refused_or_shown(alloc: Global, stage: &mut Stage, name: &str) -> Result<bool> {
    let line = format!(in alloc; "show {name}")?;
    stage.run(alloc, line.as_str())?;
    let (status, text) = stage.answer();
    if status == 3 {
        return Ok(true);
    }
    let text = Vec::from_slice(alloc, text)?;
    stage.put_file(alloc, "shown.g", text)?;
    stage.run(alloc, "lgen shown.g shown.o")?;
    stage.is_same("shown.o", name)
}
