//! Rows of words and of the code of a whole function.
ghost use Rattle.std.specs.Prelude.{◌≡◌, true, IfOk};
ghost use Rattle.gimple_ir.specs.Statements.{is_literal};
ghost use Rattle.gimple_meaning.specs.Versioned.{IsVersioned};

use crate::parts::{copied, hexadecimal};
use anyhow::{Result, anyhow};
use gimple_ir::{List, Name, Operand, ScalarType, Step, Value, VersionedFunction};
use rv64_frame::frame;
use rv64_isa::{decode, encode};
use rv64_select::code;
use std::alloc::Global;

/// The instruction of a word, and its own word where that is another.
pub fn instruction(alloc: Global, line: &str) -> Result<String> {
    let word = u32::from_str_radix(line, 16)?;
    let Some(instr) = decode(word) else {
        return copied(alloc, "none");
    };
    let again = encode(instr);
    if again == word {
        Ok(format!(in alloc; "{instr:?}")?)
    } else {
        Ok(format!(in alloc; "{instr:?} encoded as {again:08x}")?)
    }
}

fn literal(num: i128) -> Operand
    ensures { is_literal result ≡ true }
{
    Operand::Literal(Value {
        ty: ScalarType::Int,
        num,
    })
}

/// `int main () { __builtin_putchar (72); __builtin_putchar (105); return 7; }`
fn main_of(alloc: Global) -> Result<VersionedFunction>
    ensures { IfOk result (λ function. IsVersioned function) }
{
    let symbol = Name::read(alloc, b"main.0")?;
    let body = vec![in alloc;
        Step::Putchar(literal(72)),
        Step::Putchar(literal(105)),
        Step::Return(Some(literal(7))),
    ]?;
    Ok(VersionedFunction {
        symbol: symbol.ok_or(anyhow!("no name"))?,
        types: List::new(alloc),
        bindings: List::new(alloc),
        labels: 0,
        arrays: List::new(alloc),
        calls: List::new(alloc),
        body: List::from_vec(body),
    })
}

/// The words, the relocations or the names of the code of `main`.
pub fn code_row(alloc: Global, part: &str) -> Result<String> {
    let function = main_of(alloc)?;
    let layout = frame(&function);
    let found = code(alloc, &function, &layout)?;
    match part {
        "words" => hexadecimal(alloc, found.words.as_slice()),
        "relocations" => {
            let relocations = found.relocations.as_slice();
            Ok(format!(in alloc; "{relocations:?}")?)
        }
        _ => {
            let names = found.names.as_slice();
            Ok(format!(in alloc; "{names:?}")?)
        }
    }
}
