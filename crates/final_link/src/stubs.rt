//! The code of the stubs.
ghost use Rattle.std.specs.Prelude.{◌≡◌, ◌+◌, ◌++◌, OnOk, vec_len};
ghost use Rattle.final_link.specs.Stubs.{start_stub, putchar_stub, getchar_stub, stubs};
ghost use Rattle.final_link.specs.Image.{code_bytes};

use crate::bytes::put_all;
use gimple_ir::NoMemory;
use rv64_abi::{A0, A1, A2, A7, RA, SP, lower, upper};
use rv64_isa::Instr;

/// Where the stubs begin that a program calls.
pub const PUTCHAR: u32 = 0x10018;

pub const GETCHAR: u32 = 0x10038;

fn put_start_stub(out: &mut Vec<u8>, top: u32, main: u32) -> Result<(), NoMemory>
    ensures words { OnOk result (out.new.items ≡ out.old.items ++ code_bytes (start_stub top main)) }
    ensures len { OnOk result (vec_len out.new ≡ vec_len out.old + 24) }
{
    let upper_top = upper(i64::from(top));
    let lower_top = lower(i64::from(top));
    let distance = i64::from(main) - 0x10008;
    let upper_main = upper(distance);
    let lower_main = lower(distance);
    put_all(
        out,
        &[
            Instr::Lui {
                rd: SP,
                imm: upper_top,
            },
            Instr::Addi {
                rd: SP,
                rs1: SP,
                imm: lower_top,
            },
            Instr::Auipc {
                rd: RA,
                imm: upper_main,
            },
            Instr::Jalr {
                rd: RA,
                rs1: RA,
                imm: lower_main,
            },
            Instr::Addi {
                rd: A7,
                rs1: 0,
                imm: 93,
            },
            Instr::Ecall,
        ],
    )
}

fn put_putchar_stub(out: &mut Vec<u8>, scratch: u32) -> Result<(), NoMemory>
    ensures words { OnOk result (out.new.items ≡ out.old.items ++ code_bytes (putchar_stub scratch)) }
    ensures len { OnOk result (vec_len out.new ≡ vec_len out.old + 32) }
{
    let upper = upper(i64::from(scratch));
    let lower = lower(i64::from(scratch));
    put_all(
        out,
        &[
            Instr::Lui { rd: A1, imm: upper },
            Instr::Addi {
                rd: A1,
                rs1: A1,
                imm: lower,
            },
            Instr::Sb {
                rs1: A1,
                rs2: A0,
                imm: 0,
            },
            Instr::Addi {
                rd: A0,
                rs1: 0,
                imm: 1,
            },
            Instr::Addi {
                rd: A2,
                rs1: 0,
                imm: 1,
            },
            Instr::Addi {
                rd: A7,
                rs1: 0,
                imm: 64,
            },
            Instr::Ecall,
            Instr::Jalr {
                rd: 0,
                rs1: RA,
                imm: 0,
            },
        ],
    )
}

fn put_getchar_stub(out: &mut Vec<u8>, scratch: u32) -> Result<(), NoMemory>
    ensures words { OnOk result (out.new.items ≡ out.old.items ++ code_bytes (getchar_stub scratch)) }
    ensures len { OnOk result (vec_len out.new ≡ vec_len out.old + 44) }
{
    let upper = upper(i64::from(scratch));
    let lower = lower(i64::from(scratch));
    put_all(
        out,
        &[
            Instr::Lui { rd: A1, imm: upper },
            Instr::Addi {
                rd: A1,
                rs1: A1,
                imm: lower,
            },
            Instr::Addi {
                rd: A0,
                rs1: 0,
                imm: 0,
            },
            Instr::Addi {
                rd: A2,
                rs1: 0,
                imm: 1,
            },
            Instr::Addi {
                rd: A7,
                rs1: 0,
                imm: 63,
            },
            Instr::Ecall,
            Instr::Beq {
                rs1: A0,
                rs2: 0,
                imm: 12,
            },
            Instr::Lbu {
                rd: A0,
                rs1: A1,
                imm: 0,
            },
            Instr::Jalr {
                rd: 0,
                rs1: RA,
                imm: 0,
            },
            Instr::Addi {
                rd: A0,
                rs1: 0,
                imm: -1,
            },
            Instr::Jalr {
                rd: 0,
                rs1: RA,
                imm: 0,
            },
        ],
    )
}

/// The stubs at the front of the text.
pub fn put_stubs(out: &mut Vec<u8>, top: u32, scratch: u32, main: u32) -> Result<(), NoMemory>
    ensures words { OnOk result (out.new.items ≡ out.old.items ++ code_bytes (stubs top scratch main)) }
    ensures len { OnOk result (vec_len out.new ≡ vec_len out.old + 100) }
{
    put_start_stub(out, top, main)?;
    put_putchar_stub(out, scratch)?;
    put_getchar_stub(out, scratch)
}
