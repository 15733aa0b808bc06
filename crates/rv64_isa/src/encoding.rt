//! From an instruction to its word: one function a format, and the table.

ghost use Rattle.std.specs.Prelude.{◌≡◌, ◌≢◌, ◌≤◌, ◌+◌, ◌*◌, ◌/◌, ◌%◌, ◌<◌, ◌^◌, pos, ◌<ℤ◌, ℕ};
ghost use Rattle.rv64_isa.specs.declared.instr.Instr.{Instr};
ghost use Rattle.rv64_isa.specs.Format.{word_of_fields, fields_of_format, residue, Fits, RType, IType, Shift6, Shift5, SType, BType, UType, JType};
ghost use Rattle.rv64_isa.specs.Words.{InRange, word_of, instr_of};

use crate::fields::Fields;
use crate::instr::Instr;
use crate::opcode::{
    AUIPC, BRANCH, JAL, JALR, LOAD, LUI, OP, OP_32, OP_IMM, OP_IMM_32, STORE, SYSTEM,
};

/// The word of an instruction.
pub fn encode(instr: Instr) -> u32
    // registers are below 32, and `imm` is in its format's range
    requires in_range { InRange instr }
    ensures word { result ≡ word_of instr }
    // it is the word that is decoded as this instruction
    ensures again { instr_of result ≡ Some instr }
{
    match instr {
        Instr::Lui { rd, imm } => u_type(LUI, rd, imm),
        Instr::Auipc { rd, imm } => u_type(AUIPC, rd, imm),
        Instr::Jal { rd, imm } => j_type(JAL, rd, imm),
        Instr::Jalr { rd, rs1, imm } => i_type(JALR, 0, rd, rs1, imm),
        Instr::Beq { rs1, rs2, imm } => b_type(BRANCH, 0, rs1, rs2, imm),
        Instr::Bne { rs1, rs2, imm } => b_type(BRANCH, 1, rs1, rs2, imm),
        Instr::Blt { rs1, rs2, imm } => b_type(BRANCH, 4, rs1, rs2, imm),
        Instr::Bge { rs1, rs2, imm } => b_type(BRANCH, 5, rs1, rs2, imm),
        Instr::Bltu { rs1, rs2, imm } => b_type(BRANCH, 6, rs1, rs2, imm),
        Instr::Bgeu { rs1, rs2, imm } => b_type(BRANCH, 7, rs1, rs2, imm),
        Instr::Lb { rd, rs1, imm } => i_type(LOAD, 0, rd, rs1, imm),
        Instr::Lh { rd, rs1, imm } => i_type(LOAD, 1, rd, rs1, imm),
        Instr::Lw { rd, rs1, imm } => i_type(LOAD, 2, rd, rs1, imm),
        Instr::Ld { rd, rs1, imm } => i_type(LOAD, 3, rd, rs1, imm),
        Instr::Lbu { rd, rs1, imm } => i_type(LOAD, 4, rd, rs1, imm),
        Instr::Lhu { rd, rs1, imm } => i_type(LOAD, 5, rd, rs1, imm),
        Instr::Lwu { rd, rs1, imm } => i_type(LOAD, 6, rd, rs1, imm),
        Instr::Sb { rs1, rs2, imm } => s_type(STORE, 0, rs1, rs2, imm),
        Instr::Sh { rs1, rs2, imm } => s_type(STORE, 1, rs1, rs2, imm),
        Instr::Sw { rs1, rs2, imm } => s_type(STORE, 2, rs1, rs2, imm),
        Instr::Sd { rs1, rs2, imm } => s_type(STORE, 3, rs1, rs2, imm),
        Instr::Addi { rd, rs1, imm } => i_type(OP_IMM, 0, rd, rs1, imm),
        Instr::Slti { rd, rs1, imm } => i_type(OP_IMM, 2, rd, rs1, imm),
        Instr::Sltiu { rd, rs1, imm } => i_type(OP_IMM, 3, rd, rs1, imm),
        Instr::Xori { rd, rs1, imm } => i_type(OP_IMM, 4, rd, rs1, imm),
        Instr::Ori { rd, rs1, imm } => i_type(OP_IMM, 6, rd, rs1, imm),
        Instr::Andi { rd, rs1, imm } => i_type(OP_IMM, 7, rd, rs1, imm),
        Instr::Slli { rd, rs1, imm } => shift6(OP_IMM, 1, 0, rd, rs1, imm),
        Instr::Srli { rd, rs1, imm } => shift6(OP_IMM, 5, 0, rd, rs1, imm),
        Instr::Srai { rd, rs1, imm } => shift6(OP_IMM, 5, 0x10, rd, rs1, imm),
        Instr::Addiw { rd, rs1, imm } => i_type(OP_IMM_32, 0, rd, rs1, imm),
        Instr::Slliw { rd, rs1, imm } => shift5(OP_IMM_32, 1, 0, rd, rs1, imm),
        Instr::Srliw { rd, rs1, imm } => shift5(OP_IMM_32, 5, 0, rd, rs1, imm),
        Instr::Sraiw { rd, rs1, imm } => shift5(OP_IMM_32, 5, 0x20, rd, rs1, imm),
        Instr::Add { rd, rs1, rs2 } => r_type(OP, 0, 0, rd, rs1, rs2),
        Instr::Sll { rd, rs1, rs2 } => r_type(OP, 1, 0, rd, rs1, rs2),
        Instr::Slt { rd, rs1, rs2 } => r_type(OP, 2, 0, rd, rs1, rs2),
        Instr::Sltu { rd, rs1, rs2 } => r_type(OP, 3, 0, rd, rs1, rs2),
        Instr::Xor { rd, rs1, rs2 } => r_type(OP, 4, 0, rd, rs1, rs2),
        Instr::Srl { rd, rs1, rs2 } => r_type(OP, 5, 0, rd, rs1, rs2),
        Instr::Or { rd, rs1, rs2 } => r_type(OP, 6, 0, rd, rs1, rs2),
        Instr::And { rd, rs1, rs2 } => r_type(OP, 7, 0, rd, rs1, rs2),
        Instr::Sub { rd, rs1, rs2 } => r_type(OP, 0, 0x20, rd, rs1, rs2),
        Instr::Sra { rd, rs1, rs2 } => r_type(OP, 5, 0x20, rd, rs1, rs2),
        Instr::Mul { rd, rs1, rs2 } => r_type(OP, 0, 1, rd, rs1, rs2),
        Instr::Mulh { rd, rs1, rs2 } => r_type(OP, 1, 1, rd, rs1, rs2),
        Instr::Mulhsu { rd, rs1, rs2 } => r_type(OP, 2, 1, rd, rs1, rs2),
        Instr::Mulhu { rd, rs1, rs2 } => r_type(OP, 3, 1, rd, rs1, rs2),
        Instr::Div { rd, rs1, rs2 } => r_type(OP, 4, 1, rd, rs1, rs2),
        Instr::Divu { rd, rs1, rs2 } => r_type(OP, 5, 1, rd, rs1, rs2),
        Instr::Rem { rd, rs1, rs2 } => r_type(OP, 6, 1, rd, rs1, rs2),
        Instr::Remu { rd, rs1, rs2 } => r_type(OP, 7, 1, rd, rs1, rs2),
        Instr::Addw { rd, rs1, rs2 } => r_type(OP_32, 0, 0, rd, rs1, rs2),
        Instr::Sllw { rd, rs1, rs2 } => r_type(OP_32, 1, 0, rd, rs1, rs2),
        Instr::Srlw { rd, rs1, rs2 } => r_type(OP_32, 5, 0, rd, rs1, rs2),
        Instr::Subw { rd, rs1, rs2 } => r_type(OP_32, 0, 0x20, rd, rs1, rs2),
        Instr::Sraw { rd, rs1, rs2 } => r_type(OP_32, 5, 0x20, rd, rs1, rs2),
        Instr::Mulw { rd, rs1, rs2 } => r_type(OP_32, 0, 1, rd, rs1, rs2),
        Instr::Divw { rd, rs1, rs2 } => r_type(OP_32, 4, 1, rd, rs1, rs2),
        Instr::Divuw { rd, rs1, rs2 } => r_type(OP_32, 5, 1, rd, rs1, rs2),
        Instr::Remw { rd, rs1, rs2 } => r_type(OP_32, 6, 1, rd, rs1, rs2),
        Instr::Remuw { rd, rs1, rs2 } => r_type(OP_32, 7, 1, rd, rs1, rs2),
        Instr::Ecall => 0x73,
    }
}

// Two registers to one.
fn r_type(opcode: u8, funct3: u8, funct7: u8, rd: u8, rs1: u8, rs2: u8) -> u32
    requires opcode { opcode < 2 ^ 7 }
    requires funct3 { funct3 < 2 ^ 3 }
    requires funct7 { funct7 < 2 ^ 7 }
    requires fits { Fits (RType opcode funct3 funct7 rd rs1 rs2) }
    ensures { result ≡ word_of_fields (fields_of_format (RType opcode funct3 funct7 rd rs1 rs2)) }
{
    let fields = Fields {
        opcode,
        rd,
        funct3,
        rs1,
        rs2,
        funct7,
    };
    fields.word()
}

// A register and an immediate of 12 bits.
fn i_type(opcode: u8, funct3: u8, rd: u8, rs1: u8, imm: i32) -> u32
    requires opcode { opcode < 2 ^ 7 }
    requires funct3 { funct3 < 2 ^ 3 }
    requires fits { Fits (IType opcode funct3 rd rs1 imm) }
    ensures { result ≡ word_of_fields (fields_of_format (IType opcode funct3 rd rs1 imm)) }
{
    let v = residue_of(imm, 1 << 12);
    let fields = Fields {
        opcode,
        rd,
        funct3,
        rs1,
        rs2: (v % 32) as u8,
        funct7: (v / 32) as u8,
    };
    fields.word()
}

// A shift by 0 to 63, under six top bits.
fn shift6(opcode: u8, funct3: u8, top: u8, rd: u8, rs1: u8, imm: i32) -> u32
    requires opcode { opcode < 2 ^ 7 }
    requires funct3 { funct3 < 2 ^ 3 }
    requires top { top < 2 ^ 6 }
    requires fits { Fits (Shift6 opcode funct3 top rd rs1 imm) }
    ensures { result ≡ word_of_fields (fields_of_format (Shift6 opcode funct3 top rd rs1 imm)) }
{
    let v = residue_of(imm, 1 << 6);
    let fields = Fields {
        opcode,
        rd,
        funct3,
        rs1,
        rs2: (v % 32) as u8,
        funct7: (v / 32) as u8 + top * 2,
    };
    fields.word()
}

// A shift by 0 to 31, under seven top bits.
fn shift5(opcode: u8, funct3: u8, top: u8, rd: u8, rs1: u8, imm: i32) -> u32
    requires opcode { opcode < 2 ^ 7 }
    requires funct3 { funct3 < 2 ^ 3 }
    requires top { top < 2 ^ 7 }
    requires fits { Fits (Shift5 opcode funct3 top rd rs1 imm) }
    ensures { result ≡ word_of_fields (fields_of_format (Shift5 opcode funct3 top rd rs1 imm)) }
{
    let fields = Fields {
        opcode,
        rd,
        funct3,
        rs1,
        rs2: residue_of(imm, 1 << 5) as u8,
        funct7: top,
    };
    fields.word()
}

// An address, a value and an immediate of 12 bits.
fn s_type(opcode: u8, funct3: u8, rs1: u8, rs2: u8, imm: i32) -> u32
    requires opcode { opcode < 2 ^ 7 }
    requires funct3 { funct3 < 2 ^ 3 }
    requires fits { Fits (SType opcode funct3 rs1 rs2 imm) }
    ensures { result ≡ word_of_fields (fields_of_format (SType opcode funct3 rs1 rs2 imm)) }
{
    let v = residue_of(imm, 1 << 12);
    let fields = Fields {
        opcode,
        rd: (v % 32) as u8,
        funct3,
        rs1,
        rs2,
        funct7: (v / 32) as u8,
    };
    fields.word()
}

// Two registers and an even offset of 13 bits.
fn b_type(opcode: u8, funct3: u8, rs1: u8, rs2: u8, imm: i32) -> u32
    requires opcode { opcode < 2 ^ 7 }
    requires funct3 { funct3 < 2 ^ 3 }
    requires fits { Fits (BType opcode funct3 rs1 rs2 imm) }
    ensures { result ≡ word_of_fields (fields_of_format (BType opcode funct3 rs1 rs2 imm)) }
{
    let v = residue_of(imm, 1 << 13);
    let rd = (v / (1 << 11) % 2 + v / 2 % 16 * 2) as u8;
    let funct7 = (v / 32 % 64 + v / (1 << 12) * 64) as u8;
    let fields = Fields {
        opcode,
        rd,
        funct3,
        rs1,
        rs2,
        funct7,
    };
    fields.word()
}

// A register and an immediate of 20 bits.
fn u_type(opcode: u8, rd: u8, imm: i32) -> u32
    requires opcode { opcode < 2 ^ 7 }
    requires fits { Fits (UType opcode rd imm) }
    ensures { result ≡ word_of_fields (fields_of_format (UType opcode rd imm)) }
{
    let v = residue_of(imm, 1 << 20);
    let fields = Fields {
        opcode,
        rd,
        funct3: (v % 8) as u8,
        rs1: (v / 8 % 32) as u8,
        rs2: (v / 256 % 32) as u8,
        funct7: (v / 8192) as u8,
    };
    fields.word()
}

// A register and an even offset of 21 bits.
fn j_type(opcode: u8, rd: u8, imm: i32) -> u32
    requires opcode { opcode < 2 ^ 7 }
    requires fits { Fits (JType opcode rd imm) }
    ensures { result ≡ word_of_fields (fields_of_format (JType opcode rd imm)) }
{
    let v = residue_of(imm, 1 << 21);
    let rs2 = (v / (1 << 11) % 2 + v / 2 % 16 * 2) as u8;
    let funct7 = (v / 32 % 64 + v / (1 << 20) * 64) as u8;
    let fields = Fields {
        opcode,
        rd,
        funct3: (v / (1 << 12) % 8) as u8,
        rs1: (v / (1 << 15) % 32) as u8,
        rs2,
        funct7,
    };
    fields.word()
}

// The number modulo m.
fn residue_of(number: i32, m: i32) -> u32
    requires { pos 0 <ℤ m }
    ensures value { (n : ℕ) → m ≡ pos n → result ≡ residue n number }
    ensures below { pos result <ℤ m }
{
    number.rem_euclid(m).unsigned_abs()
}
