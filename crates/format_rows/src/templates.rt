//! Rows of the code templates: the words of an operator at a type, of a constant, and of a slot of the frame.
ghost use Rattle.std.specs.Prelude.{◌<◌, ◌^◌, IfOk};

use crate::parts::{numbers, parted};
use anyhow::{Result, bail};
use gimple_ir::{BinaryOp, ElementType, ScalarType, UnaryOp};
use rv64_abi::{A0, T0};
use rv64_isa::{Instr, decode};
use rv64_select::Item;
use rv64_select::constants::put_constant;
use rv64_select::operations::{put_branch, put_conversion, put_operation, put_scaling, put_unary};
use rv64_select::slots::{put_load, put_store};
use std::alloc::Global;

const TYPES: [ScalarType; 4] = [
    ScalarType::Int,
    ScalarType::UnsignedInt,
    ScalarType::LongInt,
    ScalarType::LongUnsignedInt,
];

const OPERATORS: [BinaryOp; 16] = [
    BinaryOp::Add,
    BinaryOp::Sub,
    BinaryOp::Mul,
    BinaryOp::Div,
    BinaryOp::Rem,
    BinaryOp::And,
    BinaryOp::Or,
    BinaryOp::Xor,
    BinaryOp::Shl,
    BinaryOp::Shr,
    BinaryOp::Eq,
    BinaryOp::Ne,
    BinaryOp::Lt,
    BinaryOp::Le,
    BinaryOp::Gt,
    BinaryOp::Ge,
];

/// The type that a word names.
fn scalar(alloc: Global, word: &str) -> Result<ScalarType> {
    for ty in TYPES {
        if format!(in alloc; "{ty:?}")?.as_str() == word {
            return Ok(ty);
        }
    }
    bail!("no type: {word}")
}

/// The operator that a word names.
fn operator(alloc: Global, word: &str) -> Result<BinaryOp> {
    for op in OPERATORS {
        if format!(in alloc; "{op:?}")?.as_str() == word {
            return Ok(op);
        }
    }
    bail!("no operator: {word}")
}

/// The elements that a word names.
fn element(alloc: Global, word: &str) -> Result<ElementType> {
    if word == "UnsignedChar" {
        Ok(ElementType::UnsignedChar)
    } else {
        Ok(ElementType::Scalar(scalar(alloc, word)?))
    }
}

/// A slot's offset, below 2^36.
fn slot(word: &str) -> Result<u64>
    ensures { IfOk result (λ slot. slot < 2 ^ 36) }
{
    let slot = word.parse::<u64>()?;
    if slot >= 1 << 36 {
        bail!("no slot: {word}");
    }
    Ok(slot)
}

/// The instructions of a template, as they are printed.
pub fn template(alloc: Global, kind: &str, input: &str) -> Result<String> {
    let (first, second) = parted(input);
    let mut out = Vec::new(alloc);
    match kind {
        "operation" => put_operation(&mut out, operator(alloc, first)?, scalar(alloc, second)?)?,
        "branch" => put_branch(&mut out, operator(alloc, first)?, scalar(alloc, second)?)?,
        "unary" => {
            let op = if first == "Neg" {
                UnaryOp::Neg
            } else {
                UnaryOp::Not
            };
            put_unary(&mut out, op, scalar(alloc, second)?)?;
        }
        "conversion" => put_conversion(&mut out, scalar(alloc, first)?, scalar(alloc, second)?)?,
        "scaling" => put_scaling(&mut out, element(alloc, first)?)?,
        "constant" => put_constant(&mut out, T0, first.parse::<i64>()?)?,
        "load" => put_load(&mut out, A0, slot(first)?)?,
        _ => put_store(&mut out, A0, slot(first)?)?,
    }
    printed(alloc, &out)
}

/// Puts an instruction behind others, as it is printed.
fn put_instruction(alloc: Global, text: &mut String, instr: Instr) -> Result<()> {
    let printed = format!(in alloc; "{instr:?};")?;
    text.push_str(printed.as_str())?;
    Ok(())
}

fn printed(alloc: Global, items: &[Item]) -> Result<String> {
    let mut text = String::new(alloc);
    for item in items {
        match *item {
            Item::Plain(instr) => put_instruction(alloc, &mut text, instr)?,
            _ => text.push_str("another item;")?,
        }
    }
    Ok(text)
}

/// The instructions of words, as they are printed.
pub fn meant(alloc: Global, words: &str) -> Result<String> {
    let mut text = String::new(alloc);
    for number in numbers(alloc, words)? {
        match decode(u32::try_from(number)?) {
            Some(instr) => put_instruction(alloc, &mut text, instr)?,
            None => bail!("no instruction: {number:x}"),
        }
    }
    Ok(text)
}
