//! Numbers and instructions at the end of a file, least byte first.
ghost use Rattle.std.specs.Prelude.{◌≡◌, ◌+◌, ◌*◌, ◌++◌, OnOk, vec_len, length};
ghost use Rattle.std.specs.List.{flat_map};
ghost use Rattle.rv64_isa.specs.Words.{InRange};
ghost use Rattle.final_link.specs.Image.{AllInRange, word_bytes, code_bytes, word, xword};

use gimple_ir::NoMemory;
use rv64_isa::{Instr, encode};

/// Appends a number of 32 bits.
#[tactic(auto, unfolding(crate::specs::Image::word))]
pub fn put_word(out: &mut Vec<u8>, value: u32) -> Result<(), NoMemory>
    ensures bytes { OnOk result (out.new.items ≡ out.old.items ++ word value) }
    ensures len { OnOk result (vec_len out.new ≡ vec_len out.old + 4) }
{
    out.extend_from_slice(&value.to_le_bytes())
}

/// Appends a number of 64 bits.
#[tactic(auto, unfolding(crate::specs::Image::xword))]
pub fn put_xword(out: &mut Vec<u8>, value: u64) -> Result<(), NoMemory>
    ensures bytes { OnOk result (out.new.items ≡ out.old.items ++ xword value) }
    ensures len { OnOk result (vec_len out.new ≡ vec_len out.old + 8) }
{
    out.extend_from_slice(&value.to_le_bytes())
}

/// Appends numbers of 32 bits.
pub fn put_words(out: &mut Vec<u8>, values: &[u32]) -> Result<(), NoMemory>
    ensures bytes { OnOk result (out.new.items ≡ out.old.items ++ flat_map word values.now) }
    ensures len { OnOk result (vec_len out.new ≡ vec_len out.old + 4 * length values.now) }
{
    for value in values {
        put_word(out, *value)?;
    }
    Ok(())
}

/// Appends numbers of 64 bits.
pub fn put_xwords(out: &mut Vec<u8>, values: &[u64]) -> Result<(), NoMemory>
    ensures bytes { OnOk result (out.new.items ≡ out.old.items ++ flat_map xword values.now) }
    ensures len { OnOk result (vec_len out.new ≡ vec_len out.old + 8 * length values.now) }
{
    for value in values {
        put_xword(out, *value)?;
    }
    Ok(())
}

#[tactic(auto, unfolding(crate::specs::Image::word_bytes))]
fn put(out: &mut Vec<u8>, instr: Instr) -> Result<(), NoMemory>
    requires { InRange instr }
    ensures word { OnOk result (out.new.items ≡ out.old.items ++ word_bytes instr) }
    ensures len { OnOk result (vec_len out.new ≡ vec_len out.old + 4) }
{
    out.extend_from_slice(&encode(instr).to_le_bytes())
}

/// Appends the words of instructions.
pub fn put_all(out: &mut Vec<u8>, instrs: &[Instr]) -> Result<(), NoMemory>
    requires { AllInRange instrs.now }
    ensures words { OnOk result (out.new.items ≡ out.old.items ++ code_bytes instrs.now) }
    ensures len { OnOk result (vec_len out.new ≡ vec_len out.old + 4 * length instrs.now) }
{
    for instr in instrs {
        put(out, *instr)?;
    }
    Ok(())
}
