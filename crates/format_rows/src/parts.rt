//! The parts of a line: its first word, the bytes that a text spells, and numbers.
use anyhow::{Result, bail};
use std::alloc::Global;

/// The first word of a line, and what stands behind it.
pub fn parted(line: &str) -> (&str, &str) {
    line.split_once(' ').unwrap_or((line, ""))
}

/// Puts the bytes that a part of a text spells, behind a backslash.
fn put_escaped(bytes: &mut Vec<u8>, part: &[u8]) -> Result<()> {
    let rest = match part {
        [b'n', rest @ ..] => {
            bytes.push(b'\n')?;
            rest
        }
        [b'r', rest @ ..] => {
            bytes.push(b'\r')?;
            rest
        }
        [b'x', high, low, rest @ ..] => {
            let digits = [*high, *low];
            let byte = u8::from_str_radix(str::from_utf8(digits.as_slice())?, 16)?;
            bytes.push(byte)?;
            rest
        }
        _ => bail!("a backslash before no byte"),
    };
    bytes.extend_from_slice(rest)?;
    Ok(())
}

/// The bytes that a text spells: `\n`, `\r` and `\xHH` are one byte each.
pub fn spelled(alloc: Global, text: &str) -> Result<Vec<u8>> {
    let mut bytes = Vec::new(alloc);
    for (place, part) in text.split('\\').enumerate() {
        if place == 0 {
            bytes.extend_from_slice(part.as_bytes())?;
        } else {
            put_escaped(&mut bytes, part.as_bytes())?;
        }
    }
    Ok(bytes)
}

/// The hexadecimal numbers of a line.
pub fn numbers(alloc: Global, line: &str) -> Result<Vec<u64>> {
    let mut numbers = Vec::new(alloc);
    for word in line.split_whitespace() {
        numbers.push(u64::from_str_radix(word, 16)?)?;
    }
    Ok(numbers)
}

/// Puts bytes over those that stand at an offset.
pub fn put_over(bytes: &mut [u8], offset: usize, others: &[u8]) -> Result<()> {
    for (place, other) in others.iter().enumerate() {
        match bytes.get_mut(offset.saturating_add(place)) {
            Some(byte) => *byte = *other,
            None => bail!("there is no byte {offset} and {place}"),
        }
    }
    Ok(())
}

/// Words in hexadecimal, with a space before each.
pub fn hexadecimal(alloc: Global, words: &[u32]) -> Result<String> {
    let mut text = String::new(alloc);
    for (place, word) in words.iter().enumerate() {
        if place > 0 {
            text.push_str(" ")?;
        }
        text.push_str(format!(in alloc; "{word:08x}")?.as_str())?;
    }
    Ok(text)
}

/// A copy of a text.
pub fn copied(alloc: Global, text: &str) -> Result<String> {
    Ok(String::from_str(alloc, text)?)
}
