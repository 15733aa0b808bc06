//! `numbers HOW COUNT` writes COUNT numbers of 1 to 10 bytes by `put_uleb`, and then goes over the bytes: `read` reads the
//! numbers by `ByteCursor::uleb`, `sum` adds the bytes in a plain loop, `write` does nothing more. The time of `read` or `sum`
//! less that of `write` is the time of the reading.
use crate::words::Words;
use anyhow::Result;
use cursors::{ByteCursor, NoMemory, ReadError, put_uleb};
use std::alloc::Global;

/// An odd number whose multiples spread over 64 bits (2^64 over the golden ratio).
const SPREAD: u64 = 0x9e37_79b9_7f4a_7c15;

pub fn measure(rt: &HostRuntime, words: &mut Words) -> Result<()> {
    let how = words.text()?;
    let count = words.number()?;
    let bytes = written(rt.alloc(), count)?;
    let sum = match how.as_str() {
        "read" => read(&bytes, count)?,
        "sum" => sum_of(&bytes),
        _ => 0,
    };
    println!(rt; "{} bytes, sum {sum}", bytes.len())?;
    Ok(())
}

/// The spellings of so many numbers, short ones and long ones.
fn written(alloc: Global, count: u64) -> Result<Vec<u8>, NoMemory> {
    let mut bytes = Vec::new(alloc);
    for place in 0..count {
        put_uleb(&mut bytes, place.wrapping_mul(SPREAD) >> (place % 64))?;
    }
    Ok(bytes)
}

/// The sum of the numbers, modulo 2^64.
fn read(bytes: &[u8], count: u64) -> Result<u64, ReadError> {
    let mut cursor = ByteCursor::new(bytes);
    let mut sum = 0u64;
    for _ in 0..count {
        sum = sum.wrapping_add(cursor.uleb()?);
    }
    Ok(sum)
}

/// The sum of the bytes, modulo 2^64.
fn sum_of(bytes: &[u8]) -> u64 {
    let mut sum = 0u64;
    for byte in bytes {
        sum = sum.wrapping_add(u64::from(*byte));
    }
    sum
}
