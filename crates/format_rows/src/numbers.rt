//! Rows of numbers: in LEB128, of fixed width, and in decimal.
use crate::parts::{copied, parted, spelled};
use anyhow::{Result, bail};
use cursors::{
    ByteCursor, ReadError, decimal, put_decimal, put_le16, put_le32, put_le64, put_uleb,
};
use std::alloc::Global;

/// The answer of a row on numbers.
pub fn number_row(alloc: Global, kind: &str, input: &str) -> Result<String> {
    let (first, second) = parted(input);
    match kind {
        "uleb" => read(alloc, &spelled(alloc, input)?),
        "number" => written(alloc, first.parse::<u64>()?),
        "fields" => fields(alloc, &spelled(alloc, input)?),
        "little" => little(alloc, first, second),
        "slice" => slice(alloc, first.parse::<u64>()?, &spelled(alloc, second)?),
        "decimal" => decimal_row(alloc, &spelled(alloc, input)?),
        _ => bail!("no row: {kind}"),
    }
}

/// Why a number could not be read, and where the cursor stands then.
fn fault(alloc: Global, cursor: &ByteCursor, error: ReadError) -> Result<String> {
    let offset = cursor.offset();
    Ok(format!(in alloc; "{error:?} at {offset}")?)
}

/// The number behind the first byte.
fn read(alloc: Global, bytes: &[u8]) -> Result<String> {
    let mut cursor = ByteCursor::new(bytes);
    let _first = cursor.byte()?;
    match cursor.uleb() {
        Ok(number) => Ok(format!(in alloc; "{number}")?),
        Err(error) => fault(alloc, &cursor, error),
    }
}

/// The bytes that spell a number, behind another byte.
fn written(alloc: Global, number: u64) -> Result<String> {
    let mut out = vec![in alloc; 9u8]?;
    put_uleb(&mut out, number)?;
    let text = out.escape_ascii();
    Ok(format!(in alloc; "{text}")?)
}

/// Numbers of 16, 32 and 64 bits that stand one behind the other, and whether that is all.
fn fields(alloc: Global, bytes: &[u8]) -> Result<String> {
    let mut cursor = ByteCursor::new(bytes);
    let small = match cursor.le16() {
        Ok(small) => small,
        Err(error) => return fault(alloc, &cursor, error),
    };
    let middle = match cursor.le32() {
        Ok(middle) => middle,
        Err(error) => return fault(alloc, &cursor, error),
    };
    let large = match cursor.le64() {
        Ok(large) => large,
        Err(error) => return fault(alloc, &cursor, error),
    };
    let all = cursor.at_end();
    Ok(format!(in alloc; "{small:x} {middle:x} {large:x} {all}")?)
}

/// The bytes of numbers of 16, 32 and 64 bits.
fn little(alloc: Global, small: &str, others: &str) -> Result<String> {
    let (middle, large) = parted(others);
    let mut out = Vec::new(alloc);
    put_le16(&mut out, u16::from_str_radix(small, 16)?)?;
    put_le32(&mut out, u32::from_str_radix(middle, 16)?)?;
    put_le64(&mut out, u64::from_str_radix(large, 16)?)?;
    let text = out.escape_ascii();
    Ok(format!(in alloc; "{text}")?)
}

/// The first bytes, and the one behind them.
fn slice(alloc: Global, length: u64, bytes: &[u8]) -> Result<String> {
    let mut cursor = ByteCursor::new(bytes);
    let found = match cursor.slice(length) {
        Ok(found) => found.escape_ascii(),
        Err(error) => return fault(alloc, &cursor, error),
    };
    match cursor.byte() {
        Ok(byte) => Ok(format!(in alloc; "{found} {byte}")?),
        Err(error) => {
            let offset = cursor.offset();
            Ok(format!(in alloc; "{found} {error:?} at {offset}")?)
        }
    }
}

/// The number of a decimal, which is written so again.
fn decimal_row(alloc: Global, text: &[u8]) -> Result<String> {
    let Some(number) = decimal(text) else {
        return copied(alloc, "none");
    };
    let mut out = Vec::new(alloc);
    put_decimal(&mut out, number)?;
    if out.as_slice() != text {
        return copied(alloc, "written otherwise");
    }
    Ok(format!(in alloc; "{number}")?)
}
