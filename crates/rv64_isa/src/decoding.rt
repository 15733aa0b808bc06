//! From a word to its instruction: the immediate of each format, and the table, an opcode at a time.

ghost use Rattle.std.specs.Prelude.{◌≡◌, ◌≢◌, IfSome, IfNone, ◌≤◌, ◌+◌, ◌*◌, ◌/◌, ◌%◌, ◌<◌, ◌^◌, option_and_then, pos, ◌<ℤ◌, ℕ};
ghost use Rattle.rv64_isa.specs.Format.{InFields, format_of_fields, signed, RType, IType, Shift6, Shift5, SType, BType};
ghost use Rattle.rv64_isa.specs.Table.{instr_of_format};
ghost use Rattle.rv64_isa.specs.Words.{InRange, word_of, instr_of};
ghost use Rattle.rv64_isa.specs.declared.instr.Instr.{Instr};

use crate::fields::Fields;
use crate::instr::Instr;
use crate::opcode::{
    AUIPC, BRANCH, JAL, JALR, LOAD, LUI, OP, OP_32, OP_IMM, OP_IMM_32, STORE, SYSTEM,
};

/// The instruction of a word; None for a word outside the table.
pub fn decode(word: u32) -> Option<Instr>
    ensures value { result ≡ instr_of word }
    // what is decoded is in range and has this word
    ensures found { IfSome result (λ i. InRange i × (word_of i ≡ word)) }
    // an instruction in range with this word is what is decoded
    ensures again { (i : Instr) → InRange i → word_of i ≡ word → result ≡ Some i }
    // where nothing is decoded, no instruction in range has this word
    ensures none { IfNone result ((i : Instr) → InRange i → word_of i ≢ word) }
{
    instr_of_fields(Fields::of_word(word))
}

fn instr_of_fields(f: Fields) -> Option<Instr>
    requires { InFields f }
    ensures { result ≡ option_and_then instr_of_format (format_of_fields f) }
{
    match f.opcode {
        OP => operation(f.funct3, f.funct7, f.rd, f.rs1, f.rs2),
        OP_32 => word_operation(f.funct3, f.funct7, f.rd, f.rs1, f.rs2),
        OP_IMM if f.funct3 == 1 || f.funct3 == 5 => shift(
            f.funct3,
            f.funct7 / 2,
            f.rd,
            f.rs1,
            shift_amount(f),
        ),
        OP_IMM_32 if f.funct3 == 1 || f.funct3 == 5 => word_shift(
            f.funct3,
            f.funct7,
            f.rd,
            f.rs1,
            i32::from(f.rs2),
        ),
        OP_IMM => immediate(f.funct3, f.rd, f.rs1, i_immediate(f)),
        OP_IMM_32 => word_immediate(f.funct3, f.rd, f.rs1, i_immediate(f)),
        LOAD => load(f.funct3, f.rd, f.rs1, i_immediate(f)),
        JALR => jump(f.funct3, f.rd, f.rs1, i_immediate(f)),
        STORE => store(f.funct3, f.rs1, f.rs2, s_immediate(f)),
        BRANCH => branch(f.funct3, f.rs1, f.rs2, b_immediate(f)),
        LUI => Some(Instr::Lui {
            rd: f.rd,
            imm: u_immediate(f),
        }),
        AUIPC => Some(Instr::Auipc {
            rd: f.rd,
            imm: u_immediate(f),
        }),
        JAL => Some(Instr::Jal {
            rd: f.rd,
            imm: j_immediate(f),
        }),
        SYSTEM => if f.word() == 0x73 {
            Some(Instr::Ecall)
        } else {
            None
        },
        _ => None,
    }
}

// Two registers.
fn operation(funct3: u8, funct7: u8, rd: u8, rs1: u8, rs2: u8) -> Option<Instr>
    ensures { result ≡ instr_of_format (RType OP funct3 funct7 rd rs1 rs2) }
{
    match funct7 {
        0 => match funct3 {
            0 => Some(Instr::Add { rd, rs1, rs2 }),
            1 => Some(Instr::Sll { rd, rs1, rs2 }),
            2 => Some(Instr::Slt { rd, rs1, rs2 }),
            3 => Some(Instr::Sltu { rd, rs1, rs2 }),
            4 => Some(Instr::Xor { rd, rs1, rs2 }),
            5 => Some(Instr::Srl { rd, rs1, rs2 }),
            6 => Some(Instr::Or { rd, rs1, rs2 }),
            7 => Some(Instr::And { rd, rs1, rs2 }),
            _ => None,
        },
        0x20 => match funct3 {
            0 => Some(Instr::Sub { rd, rs1, rs2 }),
            5 => Some(Instr::Sra { rd, rs1, rs2 }),
            _ => None,
        },
        1 => match funct3 {
            0 => Some(Instr::Mul { rd, rs1, rs2 }),
            1 => Some(Instr::Mulh { rd, rs1, rs2 }),
            2 => Some(Instr::Mulhsu { rd, rs1, rs2 }),
            3 => Some(Instr::Mulhu { rd, rs1, rs2 }),
            4 => Some(Instr::Div { rd, rs1, rs2 }),
            5 => Some(Instr::Divu { rd, rs1, rs2 }),
            6 => Some(Instr::Rem { rd, rs1, rs2 }),
            7 => Some(Instr::Remu { rd, rs1, rs2 }),
            _ => None,
        },
        _ => None,
    }
}

// The low words of two registers.
fn word_operation(funct3: u8, funct7: u8, rd: u8, rs1: u8, rs2: u8) -> Option<Instr>
    ensures { result ≡ instr_of_format (RType OP_32 funct3 funct7 rd rs1 rs2) }
{
    match funct7 {
        0 => match funct3 {
            0 => Some(Instr::Addw { rd, rs1, rs2 }),
            1 => Some(Instr::Sllw { rd, rs1, rs2 }),
            5 => Some(Instr::Srlw { rd, rs1, rs2 }),
            _ => None,
        },
        0x20 => match funct3 {
            0 => Some(Instr::Subw { rd, rs1, rs2 }),
            5 => Some(Instr::Sraw { rd, rs1, rs2 }),
            _ => None,
        },
        1 => match funct3 {
            0 => Some(Instr::Mulw { rd, rs1, rs2 }),
            4 => Some(Instr::Divw { rd, rs1, rs2 }),
            5 => Some(Instr::Divuw { rd, rs1, rs2 }),
            6 => Some(Instr::Remw { rd, rs1, rs2 }),
            7 => Some(Instr::Remuw { rd, rs1, rs2 }),
            _ => None,
        },
        _ => None,
    }
}

// Loads.
fn load(funct3: u8, rd: u8, rs1: u8, imm: i32) -> Option<Instr>
    ensures { result ≡ instr_of_format (IType LOAD funct3 rd rs1 imm) }
{
    match funct3 {
        0 => Some(Instr::Lb { rd, rs1, imm }),
        1 => Some(Instr::Lh { rd, rs1, imm }),
        2 => Some(Instr::Lw { rd, rs1, imm }),
        3 => Some(Instr::Ld { rd, rs1, imm }),
        4 => Some(Instr::Lbu { rd, rs1, imm }),
        5 => Some(Instr::Lhu { rd, rs1, imm }),
        6 => Some(Instr::Lwu { rd, rs1, imm }),
        _ => None,
    }
}

// The indirect jump.
fn jump(funct3: u8, rd: u8, rs1: u8, imm: i32) -> Option<Instr>
    ensures { result ≡ instr_of_format (IType JALR funct3 rd rs1 imm) }
{
    match funct3 {
        0 => Some(Instr::Jalr { rd, rs1, imm }),
        _ => None,
    }
}

// A register and an immediate.
fn immediate(funct3: u8, rd: u8, rs1: u8, imm: i32) -> Option<Instr>
    ensures { result ≡ instr_of_format (IType OP_IMM funct3 rd rs1 imm) }
{
    match funct3 {
        0 => Some(Instr::Addi { rd, rs1, imm }),
        2 => Some(Instr::Slti { rd, rs1, imm }),
        3 => Some(Instr::Sltiu { rd, rs1, imm }),
        4 => Some(Instr::Xori { rd, rs1, imm }),
        6 => Some(Instr::Ori { rd, rs1, imm }),
        7 => Some(Instr::Andi { rd, rs1, imm }),
        _ => None,
    }
}

// The low word of a register and an immediate.
fn word_immediate(funct3: u8, rd: u8, rs1: u8, imm: i32) -> Option<Instr>
    ensures { result ≡ instr_of_format (IType OP_IMM_32 funct3 rd rs1 imm) }
{
    match funct3 {
        0 => Some(Instr::Addiw { rd, rs1, imm }),
        _ => None,
    }
}

// Stores.
fn store(funct3: u8, rs1: u8, rs2: u8, imm: i32) -> Option<Instr>
    ensures { result ≡ instr_of_format (SType STORE funct3 rs1 rs2 imm) }
{
    match funct3 {
        0 => Some(Instr::Sb { rs1, rs2, imm }),
        1 => Some(Instr::Sh { rs1, rs2, imm }),
        2 => Some(Instr::Sw { rs1, rs2, imm }),
        3 => Some(Instr::Sd { rs1, rs2, imm }),
        _ => None,
    }
}

// Branches.
fn branch(funct3: u8, rs1: u8, rs2: u8, imm: i32) -> Option<Instr>
    ensures { result ≡ instr_of_format (BType BRANCH funct3 rs1 rs2 imm) }
{
    match funct3 {
        0 => Some(Instr::Beq { rs1, rs2, imm }),
        1 => Some(Instr::Bne { rs1, rs2, imm }),
        4 => Some(Instr::Blt { rs1, rs2, imm }),
        5 => Some(Instr::Bge { rs1, rs2, imm }),
        6 => Some(Instr::Bltu { rs1, rs2, imm }),
        7 => Some(Instr::Bgeu { rs1, rs2, imm }),
        _ => None,
    }
}

// Shifts by a constant.
fn shift(funct3: u8, top: u8, rd: u8, rs1: u8, imm: i32) -> Option<Instr>
    ensures { result ≡ instr_of_format (Shift6 OP_IMM funct3 top rd rs1 imm) }
{
    match (funct3, top) {
        (1, 0) => Some(Instr::Slli { rd, rs1, imm }),
        (5, 0) => Some(Instr::Srli { rd, rs1, imm }),
        (5, 0x10) => Some(Instr::Srai { rd, rs1, imm }),
        _ => None,
    }
}

// Shifts of the low word by a constant.
fn word_shift(funct3: u8, top: u8, rd: u8, rs1: u8, imm: i32) -> Option<Instr>
    ensures { result ≡ instr_of_format (Shift5 OP_IMM_32 funct3 top rd rs1 imm) }
{
    match (funct3, top) {
        (1, 0) => Some(Instr::Slliw { rd, rs1, imm }),
        (5, 0) => Some(Instr::Srliw { rd, rs1, imm }),
        (5, 0x20) => Some(Instr::Sraiw { rd, rs1, imm }),
        _ => None,
    }
}

fn i_immediate(f: Fields) -> i32
    requires { InFields f }
    ensures { result ≡ signed (2 ^ 12) (f.rs2 + f.funct7 * 2 ^ 5) }
{
    signed_of(u32::from(f.rs2) + u32::from(f.funct7) * 32, 1 << 12)
}

fn shift_amount(f: Fields) -> i32
    requires { InFields f }
    ensures { result ≡ pos (f.rs2 + f.funct7 % 2 * 2 ^ 5) }
{
    i32::from(f.rs2) + i32::from(f.funct7 % 2) * 32
}

fn s_immediate(f: Fields) -> i32
    requires { InFields f }
    ensures { result ≡ signed (2 ^ 12) (f.rd + f.funct7 * 2 ^ 5) }
{
    signed_of(u32::from(f.rd) + u32::from(f.funct7) * 32, 1 << 12)
}

fn b_immediate(f: Fields) -> i32
    requires { InFields f }
    ensures { result ≡ signed (2 ^ 13) (f.rd / 2 * 2 + f.funct7 % 2 ^ 6 * 2 ^ 5 + f.rd % 2 * 2 ^ 11 + f.funct7 / 2 ^ 6 * 2 ^ 12) }
{
    let (rd, funct7) = (u32::from(f.rd), u32::from(f.funct7));
    signed_of(
        rd / 2 * 2 + funct7 % 64 * 32 + rd % 2 * (1 << 11) + funct7 / 64 * (1 << 12),
        1 << 13,
    )
}

fn u_immediate(f: Fields) -> i32
    requires { InFields f }
    ensures { result ≡ pos (f.funct3 + f.rs1 * 2 ^ 3 + f.rs2 * 2 ^ 8 + f.funct7 * 2 ^ 13) }
{
    i32::from(f.funct3) + i32::from(f.rs1) * 8 + i32::from(f.rs2) * 256 + i32::from(f.funct7) * 8192
}

fn j_immediate(f: Fields) -> i32
    requires { InFields f }
    ensures { result ≡ signed (2 ^ 21) (f.rs2 / 2 * 2 + f.funct7 % 2 ^ 6 * 2 ^ 5 + f.rs2 % 2 * 2 ^ 11 + f.funct3 * 2 ^ 12 + f.rs1 * 2 ^ 15 + f.funct7 / 2 ^ 6 * 2 ^ 20) }
{
    let (rs2, funct7) = (u32::from(f.rs2), u32::from(f.funct7));
    let low = rs2 / 2 * 2 + funct7 % 64 * 32 + rs2 % 2 * (1 << 11);
    let high = u32::from(f.funct3) * (1 << 12) + u32::from(f.rs1) * (1 << 15);
    signed_of(low + high + funct7 / 64 * (1 << 20), 1 << 21)
}

// The number of either sign with this residue modulo m.
fn signed_of(residue: u32, m: u32) -> i32
    requires below { residue < m }
    requires small { m ≤ 2 ^ 21 }
    ensures { result ≡ signed m residue }
{
    if residue < m / 2 {
        residue.cast_signed()
    } else {
        -1 - (m - 1 - residue).cast_signed()
    }
}
