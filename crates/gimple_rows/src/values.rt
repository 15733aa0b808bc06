//! Rows of plain data: lists, names, and the lattice of constants.
use crate::lines::parted;
use crate::partitions::numbers_of;
use anyhow::Result;
use gimple_ir::{Arg, Args, Bytes, Lattice, List, Name, NoMemory, ScalarType, Value, lattice_meet};
use std::alloc::Global;

/// Whether a list, bytes and arguments hold the numbers that are pushed to them, and their copies too.
pub fn pushed(alloc: Global, line: &str) -> Result<bool> {
    let numbers = numbers_of(alloc, line)?;
    let mut list = List::new(alloc);
    let mut bytes = Bytes::new(alloc);
    let mut args = Args::new(alloc);
    for number in &numbers {
        list.push(*number)?;
        bytes.push(*number)?;
        args.push(Arg::Whole(u32::from(*number)))?;
    }
    let hold = list.as_slice() == numbers.as_slice() && bytes.as_slice() == numbers.as_slice();
    let copied = list == list.copy()? && bytes == bytes.copy()?;
    let whole = are_whole(&args, &numbers) && are_whole(&args.copy()?, &numbers);
    Ok(hold && copied && whole)
}

/// Whether the arguments are whole variables with these numbers.
fn are_whole(args: &Args, numbers: &[u8]) -> bool {
    args.len() == numbers.len()
        && args.as_slice().iter().zip(numbers).all(|(
            arg,
            number,
        )| matches!(arg, Arg::Whole(place) if *place == u32::from(*number)))
}

/// Whether a text is a name that is shown as it stands, and so is its copy.
pub fn is_name(alloc: Global, text: &str) -> Result<bool, NoMemory> {
    match Name::read(alloc, text.as_bytes())? {
        Some(name) => Ok(name.as_str() == text && name == name.copy()?),
        None => Ok(false),
    }
}

/// Whether the third word of a line is the meet of the first two.
pub fn meets(line: &str) -> Result<bool> {
    let (left, rest) = parted(line);
    let (right, wanted) = parted(rest);
    let found = lattice_meet(lattice_of(left)?, lattice_of(right)?);
    Ok(found == lattice_of(wanted)?)
}

/// What a word says is known: `top`, `bottom`, or a constant of `int`.
fn lattice_of(word: &str) -> Result<Lattice> {
    match word {
        "top" => Ok(Lattice::Top),
        "bottom" => Ok(Lattice::Bottom),
        _ => {
            let num = i128::from(word.parse::<i32>()?);
            Ok(Lattice::Const(Value {
                ty: ScalarType::Int,
                num,
            }))
        }
    }
}
