//! What items name, and where.
ghost use Rattle.std.specs.Prelude.{◌≡◌, ◌*◌, ◌++◌, ◌≤◌, ◌^◌, OnOk, IfOk};
ghost use Rattle.rv64_select.specs.Code.{words_in};
ghost use Rattle.rv64_select.specs.Selected.{reference_of, references};

use crate::item::{Item, Symbol};
use elf_container::{R_RISCV_CALL_PLT, R_RISCV_HI20, R_RISCV_LO12_I, R_RISCV_LO12_S};
use gimple_ir::NoMemory;
use std::alloc::Global;

/// A field that a symbol fills: at an offset of the function in bytes, by the psABI's number of the relocation.
#[derive(Clone, Copy)]
pub struct Reference {
    pub offset: u64,
    pub kind: u32,
    pub symbol: Symbol,
}

fn put_reference(out: &mut Vec<Reference>, at: u32, item: Item) -> Result<(), NoMemory>
    ensures { OnOk result (out.new.items ≡ out.old.items ++ reference_of at item) }
{
    let (kind, symbol) = match item {
        Item::Plain(_) | Item::Label(_) | Item::Jump(_) => return Ok(()),
        Item::Call(symbol) => (R_RISCV_CALL_PLT, symbol),
        Item::Upper { symbol, .. } => (R_RISCV_HI20, symbol),
        Item::Load { symbol, .. } => (R_RISCV_LO12_I, symbol),
        Item::Store { symbol, .. } => (R_RISCV_LO12_S, symbol),
    };
    out.push(Reference {
        offset: u64::from(at),
        kind,
        symbol,
    })?;
    Ok(())
}

/// The references of items, by ascending offsets.
pub fn references_of(alloc: Global, items: &[Item]) -> Result<Vec<Reference>, NoMemory>
    requires { 4 * words_in items.now ≤ 2 ^ 19 }
    ensures { IfOk result (λ found. found.items ≡ references items.now) }
{
    let mut found = Vec::new(alloc);
    let mut at = 0;
    for item in items {
        put_reference(&mut found, at, *item)?;
        at += 4 * item.words();
    }
    Ok(found)
}
