//! Rows of the machine: one instruction behind words that load registers and before words that write what it left.
use crate::parts::{numbers, parted, put_over};
use anyhow::{Result, bail};
use rv64_meaning::{Event, Machine};
use std::alloc::Global;

/// How many words stand before the instruction, and where it stands in the image.
const LOADING: u32 = 8;

const PLACE: usize = 0x1020;
/// The words behind it.
const BEHIND: usize = 0x1024;
/// Where a7, a0, a1, a2, t0 and t1 stand.
const REGISTERS: usize = 0x2010;

/// A machine with three bytes of input that stands before a word.
fn machine(alloc: Global, image: &[u8]) -> Result<Machine> {
    let input = Vec::from_slice(alloc, b"abc")?;
    let Ok(mut machine) = Machine::load(image, input) else {
        bail!("no image");
    };
    for _ in 0..LOADING {
        machine.step();
    }
    Ok(machine)
}

/// What the next step does.
fn step(alloc: Global, machine: &mut Machine) -> Result<String> {
    match machine.step() {
        Event::Wrote { address, length } => {
            let bytes = machine.bytes(address, length).escape_ascii();
            Ok(format!(in alloc; "Wrote {address:x} {bytes}")?)
        }
        Event::Trapped { address } => Ok(format!(in alloc; "Trapped {address:x}")?),
        event => Ok(format!(in alloc; "{event:?}")?),
    }
}

/// The eight bytes of what was written at a place, as a number.
fn number(alloc: Global, written: &[u8], place: usize) -> Result<String> {
    let bytes = written.get(place..).unwrap_or(&[]);
    match bytes {
        [a, b, c, d, e, f, g, h, ..] => {
            let number = u64::from_le_bytes([*a, *b, *c, *d, *e, *f, *g, *h]);
            Ok(format!(in alloc; "{number:x}")?)
        }
        _ => Ok(String::from_str(alloc, "-")?),
    }
}

/// The image with this word and these registers.
fn image(alloc: Global, image: &[u8], kind: &str, line: &str) -> Result<Vec<u8>> {
    let (word, registers) = parted(line);
    let mut bytes = Vec::from_slice(alloc, image)?;
    let word = u32::from_str_radix(word, 16)?;
    put_over(&mut bytes, PLACE, &word.to_le_bytes())?;
    let mut offset = if kind == "called" {
        REGISTERS
    } else {
        REGISTERS + 32
    };
    for register in numbers(alloc, registers)? {
        put_over(&mut bytes, offset, &register.to_le_bytes())?;
        offset = offset.saturating_add(8);
    }
    Ok(bytes)
}

/// What the step of a word does, the number that it left, and what the step behind it does where no other words stand.
pub fn stepped(alloc: Global, base: &[u8], kind: &str, line: &str) -> Result<String> {
    let mut bytes = image(alloc, base, kind, line)?;
    let mut first = machine(alloc, &bytes)?;
    let event = step(alloc, &mut first)?;
    let mut written = Vec::new(alloc);
    first.run(100, &mut written)?;
    let place = match kind {
        "stored" => 8,
        "result" => 16,
        _ => 24,
    };
    let left = number(alloc, &written, place)?;
    put_over(&mut bytes, BEHIND, &[0; 40])?;
    let mut second = machine(alloc, &bytes)?;
    second.step();
    let next = step(alloc, &mut second)?;
    Ok(format!(in alloc; "{event} {left} {next}")?)
}
