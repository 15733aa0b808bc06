//! The words of items.
ghost use Rattle.std.specs.Prelude.{◌≡◌, ◌*◌, ◌++◌, ◌≤◌, ◌^◌, map, OnOk, IfOk, slice_index, pos, [], ◌∷◌};
ghost use Rattle.std.specs.List.{AllByRecursion};
ghost use Rattle.rv64_isa.specs.declared.instr.Instr.TheVariants.{Auipc, Jalr};
ghost use Rattle.rv64_abi.specs.Registers.{ra};
ghost use Rattle.rv64_isa.specs.Words.{InRange, word_of};
ghost use Rattle.rv64_select.specs.Code.{words_of, words_in, laid, blank};

use crate::item::Item;
use crate::operations::{element_load, element_store};
use gimple_ir::NoMemory;
use rv64_abi::RA;
use rv64_isa::{Instr, encode};
use std::alloc::Global;

fn put(words: &mut Vec<u32>, instr: Instr) -> Result<(), NoMemory>
    requires { InRange instr }
    ensures { OnOk result (words.new.items ≡ words.old.items ++ word_of instr ∷ []) }
{
    words.push(encode(instr))?;
    Ok(())
}

fn offset_of(offsets: &[u32], label: u32) -> u32
    ensures { result ≡ slice_index offsets.now label }
{
    offsets.get(label as usize).copied().unwrap_or(0)
}

// A call whose distance is left to fill.
fn put_call(words: &mut Vec<u32>) -> Result<(), NoMemory>
    ensures { OnOk result (words.new.items ≡ words.old.items ++ (word_of (Auipc ra (pos 0)) ∷ (word_of (Jalr ra ra (pos 0)) ∷ []))) }
{
    put(words, Instr::Auipc { rd: RA, imm: 0 })?;
    put(
        words,
        Instr::Jalr {
            rd: RA,
            rs1: RA,
            imm: 0,
        },
    )
}

// An item at an offset of its function, where labels have these offsets.
fn put_item(words: &mut Vec<u32>, offsets: &[u32], at: u32, item: Item) -> Result<(), NoMemory>
    requires { AllByRecursion InRange (blank (slice_index offsets.now) at item) }
    ensures { OnOk result (words.new.items ≡ words.old.items ++ map word_of (blank (slice_index offsets.now) at item)) }
{
    match item {
        Item::Plain(instr) => put(words, instr),
        Item::Label(_) => Ok(()),
        Item::Jump(label) => {
            let distance = i64::from(offset_of(offsets, label)) - i64::from(at);
            put(
                words,
                Instr::Jal {
                    rd: 0,
                    imm: distance as i32,
                },
            )
        }
        Item::Call(_) => put_call(words),
        Item::Upper { rd, .. } => put(words, Instr::Lui { rd, imm: 0 }),
        Item::Load {
            element,
            rd,
            rs1,
            ..
        } => put(words, element_load(element, rd, rs1)),
        Item::Store {
            element,
            rs1,
            rs2,
            ..
        } => put(words, element_store(element, rs1, rs2)),
    }
}

/// The words of items, where labels have these offsets, with 0 in each field that a symbol fills.
pub fn words_of(alloc: Global, offsets: &[u32], items: &[Item]) -> Result<Vec<u32>, NoMemory>
    requires short { 4 * words_in items.now ≤ 2 ^ 19 }
    requires in_range { AllByRecursion InRange (laid (blank (slice_index offsets.now)) 0 items.now) }
    ensures { IfOk result (λ words. words.items ≡ map word_of (laid (blank (slice_index offsets.now)) 0 items.now)) }
{
    let mut words = Vec::new(alloc);
    let mut at = 0;
    for item in items {
        put_item(&mut words, offsets, at, *item)?;
        at += 4 * item.words();
    }
    Ok(words)
}
