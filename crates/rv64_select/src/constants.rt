//! Instructions behind one another, and constants of 64 bits.
ghost use Rattle.std.specs.Prelude.{◌≡◌, ◌++◌, ◌^◌, ◌≤ℤ◌, pos, negsuc, true, OnOk};
ghost use Rattle.rv64_isa.specs.Format.{residue, signed};
ghost use Rattle.rv64_abi.specs.Offsets.{hi, lo};
ghost use Rattle.rv64_select.specs.Templates.{is_signed_in, long_constant, constant_in, constant, machine_form};
ghost use Rattle.rv64_select.specs.Assembly.{plain};

use crate::item::Item;
use gimple_ir::{NoMemory, Value};
use rv64_abi::{lower, upper};
use rv64_isa::Instr;

/// Appends instructions as they stand.
pub fn put_all(out: &mut Vec<Item>, code: &[Instr]) -> Result<(), NoMemory>
    ensures { OnOk result (out.new.items ≡ out.old.items ++ plain code.now) }
{
    for instr in code {
        out.push(Item::Plain(*instr))?;
    }
    Ok(())
}

// ---- numbers

fn low_32(number: i128) -> u32
    ensures { result ≡ residue (2 ^ 32) number }
{
    number.rem_euclid(1 << 32) as u32
}

fn low_64(number: i128) -> u64
    ensures { result ≡ residue (2 ^ 64) number }
{
    number.rem_euclid(1 << 64) as u64
}

fn signed_32(bits: u32) -> i64
    ensures { result ≡ signed (2 ^ 32) bits }
{
    let number = i64::from(bits);
    if bits < 1 << 31 {
        number
    } else {
        number - (1 << 32)
    }
}

fn signed_64(bits: u64) -> i64
    ensures { result ≡ signed (2 ^ 64) bits }
{
    bits.cast_signed()
}

/// A value's machine form: numbers of the 32-bit types are sign-extended, the unsigned too.
pub fn machine_form(value: Value) -> i64
    ensures { result ≡ machine_form value.ty value.num }
{
    match value.ty.width() {
        32 => signed_32(low_32(value.num)),
        _ => signed_64(low_64(value.num)),
    }
}

fn hi(number: i64) -> i64
    ensures { result ≡ hi number }
{
    ((i128::from(number) + 0x800) >> 12) as i64
}

fn upper_part(number: i128) -> i128
    requires low { negsuc (2 ^ 64) ≤ℤ number }
    requires high { number ≤ℤ pos (2 ^ 64) }
    ensures { result ≡ hi number }
{
    (number + 0x800) >> 12
}

fn lower_part(number: i128) -> i32
    requires low { negsuc (2 ^ 64) ≤ℤ number }
    requires high { number ≤ℤ pos (2 ^ 64) }
    ensures { result ≡ lo number }
{
    (number - 4096 * upper_part(number)) as i32
}

fn lo(number: i64) -> i32
    ensures { result ≡ lo number }
{
    lower_part(i128::from(number))
}

fn fits_12(number: i64) -> bool
    ensures { result ≡ is_signed_in 12 number }
{
    -0x800 <= number && number <= 0x7ff
}

fn fits_32(number: i64) -> bool
    ensures { result ≡ is_signed_in 32 number }
{
    -0x8000_0000 <= number && number <= 0x7fff_ffff
}

// ---- constants

// A number of 32 bits by its upper and its lower part.
fn put_long_constant(out: &mut Vec<Item>, register: u8, number: i64) -> Result<(), NoMemory>
    requires { is_signed_in 32 number ≡ true }
    ensures { OnOk result (out.new.items ≡ out.old.items ++ plain (long_constant register number)) }
{
    let upper = upper(number);
    let lower = lower(number);
    put_all(
        out,
        &[
            Instr::Lui {
                rd: register,
                imm: upper,
            },
            Instr::Addiw {
                rd: register,
                rs1: register,
                imm: lower,
            },
        ],
    )
}

// A number by at most so many parts.
fn put_parts(out: &mut Vec<Item>, parts: u32, register: u8, number: i64) -> Result<(), NoMemory>
    ensures { OnOk result (out.new.items ≡ out.old.items ++ plain (constant_in parts register number)) }
{
    if parts == 0 {
        return Ok(());
    }
    if fits_12(number) {
        return put_all(
            out,
            &[Instr::Addi {
                rd: register,
                rs1: 0,
                imm: number as i32,
            }],
        );
    }
    if fits_32(number) {
        return put_long_constant(out, register, number);
    }
    put_parts(out, parts - 1, register, hi(number))?;
    let lower = lo(number);
    put_all(
        out,
        &[
            Instr::Slli {
                rd: register,
                rs1: register,
                imm: 12,
            },
            Instr::Addi {
                rd: register,
                rs1: register,
                imm: lower,
            },
        ],
    )
}

/// Appends what puts a number into a register.
#[tactic(auto, unfolding(crate::specs::Templates::constant))]
pub fn put_constant(out: &mut Vec<Item>, register: u8, number: i64) -> Result<(), NoMemory>
    ensures { OnOk result (out.new.items ≡ out.old.items ++ plain (constant register number)) }
{
    put_parts(out, 4, register, number)
}
