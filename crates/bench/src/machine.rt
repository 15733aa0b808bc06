//! `machine STEPS` runs a program of a loop without an end for so many steps: seven instructions, of which one loads, one stores,
//! one multiplies and one branches. It says how the machine stands and how much it wrote, which is nothing.
use crate::words::Words;
use anyhow::{Result, bail};
use rv64_meaning::{LoadError, Machine, MachineState, NoMemory};
use std::alloc::Global;

/// The header of an image of ten words and a page of data, eight bytes at a time.
const HEADER: [u64; 22] = [
    0x0001_0102_464c_457f,
    0,
    0x0000_0001_00f3_0002,
    0x10000,
    64,
    0,
    0x0038_0040_0000_0000,
    2,
    0x0000_0005_0000_0001,
    0x1000,
    0x10000,
    0x10000,
    40,
    40,
    0x1000,
    0x0000_0006_0000_0001,
    0x2000,
    0x11000,
    0x11000,
    0,
    0x1000,
    0x1000,
];

/// `lui t0, 0x11; addi t1, zero, 0`, and from here on for ever `ld t2, 0(t0); add t2, t2, t1; sd t2, 0(t0); addi t1, t1, 1;
/// mul t3, t1, t2; srli t3, t3, 3; bne t1, zero, .-24`.
const WORDS: [u32; 10] = [
    0x0001_12b7,
    0x0000_0313,
    0x0002_b383,
    0x0063_83b3,
    0x0072_b023,
    0x0013_0313,
    0x0273_0e33,
    0x003e_5e13,
    0xfe03_14e3,
    0x0000_0073,
];

pub fn measure(rt: &HostRuntime, words: &mut Words) -> Result<()> {
    let steps = words.number()?;
    let image = image(rt.alloc())?;
    match Machine::load(&image, Vec::new(rt.alloc())) {
        Ok(machine) => report(rt, machine, steps),
        Err(LoadError::Fault(fault)) => bail!("no image at byte {}", fault.offset),
        Err(LoadError::NoMemory) => bail!("out of memory"),
    }
}

fn image(alloc: Global) -> Result<Vec<u8>, NoMemory> {
    let mut bytes = Vec::with_capacity(alloc, 0x2000)?;
    for field in HEADER {
        bytes.extend_from_slice(&field.to_le_bytes())?;
    }
    bytes.resize(0x1000, 0)?;
    for word in WORDS {
        bytes.extend_from_slice(&word.to_le_bytes())?;
    }
    bytes.resize(0x2000, 0)?;
    Ok(bytes)
}

fn report(rt: &HostRuntime, mut machine: Machine, steps: u64) -> Result<()> {
    let mut out = Vec::new(rt.alloc());
    let state = match machine.run(steps, &mut out)? {
        MachineState::Running => "running",
        MachineState::Ended(_) => "ended",
        MachineState::Trapped { .. } => "trapped",
    };
    println!(rt; "{state} after {steps} steps, {} bytes written", out.len())?;
    Ok(())
}
