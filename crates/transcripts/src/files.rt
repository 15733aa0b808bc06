//! The files that a command finds, and the bytes that a line spells.
use anyhow::{Result, bail};
use std::alloc::{AllocError, Global};

/// Files by their names.
pub type Files = Vec<(String, Vec<u8>)>;

/// Copies of the files.
pub fn copied(alloc: Global, files: &[(String, Vec<u8>)]) -> Result<Files, AllocError> {
    let mut copies = Vec::new(alloc);
    for (name, bytes) in files {
        let name = String::from_str(alloc, name.as_str())?;
        copies.push((name, Vec::from_slice(alloc, bytes)?))?;
    }
    Ok(copies)
}

/// The bytes of a file.
pub fn held<'a>(files: &'a mut [(String, Vec<u8>)], name: &str) -> Result<&'a mut Vec<u8>> {
    for (found, bytes) in files {
        if found.as_str() == name {
            return Ok(bytes);
        }
    }
    bail!("there is no file {name}")
}

/// Puts a file in the place of the one of this name.
pub fn put(alloc: Global, files: &mut Files, name: &str, bytes: Vec<u8>) -> Result<(), AllocError> {
    files.retain(|file| file.0.as_str() != name);
    files.push((String::from_str(alloc, name)?, bytes))?;
    Ok(())
}

/// Puts the bytes that a part of a line spells, behind a backslash.
fn put_escaped(bytes: &mut Vec<u8>, part: &[u8], turn: u64) -> Result<()> {
    let rest = match part {
        [b'n', rest @ ..] => {
            bytes.push(b'\n')?;
            rest
        }
        [b'r', rest @ ..] => {
            bytes.push(b'\r')?;
            rest
        }
        [b't', rest @ ..] => {
            bytes.push(b'\t')?;
            rest
        }
        [b'x', high, low, rest @ ..] => {
            let digits = [*high, *low];
            let byte = u8::from_str_radix(str::from_utf8(digits.as_slice())?, 16)?;
            bytes.push(byte)?;
            rest
        }
        [b'#', rest @ ..] => {
            let number = format!(in *bytes.allocator(); "{turn}")?;
            bytes.extend_from_slice(number.as_bytes())?;
            rest
        }
        _ => bail!("a backslash before no byte"),
    };
    bytes.extend_from_slice(rest)?;
    Ok(())
}

/// Puts the bytes that a line spells: `\n`, `\r`, `\t` and `\xHH` are one byte each, and `\#` is the number of the turn.
pub fn put_spelled(bytes: &mut Vec<u8>, line: &str, turn: u64) -> Result<()> {
    for (place, part) in line.split('\\').enumerate() {
        if place == 0 {
            bytes.extend_from_slice(part.as_bytes())?;
        } else {
            put_escaped(bytes, part.as_bytes(), turn)?;
        }
    }
    Ok(())
}

/// The bytes that a line spells.
pub fn spelled(alloc: Global, line: &str) -> Result<Vec<u8>> {
    let mut bytes = Vec::new(alloc);
    put_spelled(&mut bytes, line, 0)?;
    Ok(bytes)
}

/// The words of a line.
pub fn words_of(alloc: Global, line: &str) -> Result<Vec<String>, AllocError> {
    let mut words = Vec::new(alloc);
    for word in line.split_whitespace() {
        words.push(String::from_str(alloc, word)?)?;
    }
    Ok(words)
}

/// The numbers of a line.
pub fn numbers_of(alloc: Global, line: &str) -> Result<Vec<u64>> {
    let mut numbers = Vec::new(alloc);
    for word in line.split_whitespace() {
        numbers.push(word.parse::<u64>()?)?;
    }
    Ok(numbers)
}
