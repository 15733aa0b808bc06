//! The instructions that an operator and types choose, on the temporaries `t0` and `t1`.
ghost use Rattle.std.specs.Prelude.{◌≡◌, ◌++◌, OnOk, false, pos, if◌then◌else◌};
ghost use Rattle.gimple_ir.specs.Values.{is_signed};
ghost use Rattle.gimple_ir.specs.Statements.{is_comparison};
ghost use Rattle.rv64_select.specs.Operations.{by_type, branch, less, operation, unary_operation, conversion, zero_extension, scaling, element_load, element_store};
ghost use Rattle.rv64_select.specs.Assembly.{plain};

use crate::constants::put_all;
use crate::item::Item;
use gimple_ir::{BinaryOp, ElementType, NoMemory, ScalarType, UnaryOp};
use rv64_abi::{T0, T1};
use rv64_isa::Instr;

// An instruction of three registers on the temporaries, into the first.
macro_rules! both {
    ($name:ident) => {
        Instr::$name {
            rd: T0,
            rs1: T0,
            rs2: T1,
        }
    };
}

// A branch to the second word behind it.
macro_rules! branch {
    ($name:ident, $first:expr, $second:expr) => {
        Instr::$name {
            rs1: $first,
            rs2: $second,
            imm: 8,
        }
    };
}

// One for each type: `int`, `unsigned int`, `long int`, `long unsigned int`.
fn by_type(ty: ScalarType, int: Instr, unsigned: Instr, long: Instr, long_unsigned: Instr) -> Instr
    ensures { result ≡ by_type ty int unsigned long long_unsigned }
{
    match ty {
        ScalarType::Int => int,
        ScalarType::UnsignedInt => unsigned,
        ScalarType::LongInt => long,
        ScalarType::LongUnsignedInt => long_unsigned,
    }
}

fn by_sign(ty: ScalarType, signed: Instr, unsigned: Instr) -> Instr
    ensures { result ≡ (if is_signed ty then signed else unsigned) }
{
    if ty.is_signed() { signed } else { unsigned }
}

/// Appends the branch of a comparison of operands of this type, to the second word behind it.
pub fn put_branch(out: &mut Vec<Item>, op: BinaryOp, ty: ScalarType) -> Result<(), NoMemory>
    ensures { OnOk result (out.new.items ≡ out.old.items ++ plain (branch op ty)) }
{
    let branch = match op {
        BinaryOp::Eq => branch!(Beq, T0, T1),
        BinaryOp::Ne => branch!(Bne, T0, T1),
        BinaryOp::Lt => by_sign(ty, branch!(Blt, T0, T1), branch!(Bltu, T0, T1)),
        BinaryOp::Ge => by_sign(ty, branch!(Bge, T0, T1), branch!(Bgeu, T0, T1)),
        BinaryOp::Gt => by_sign(ty, branch!(Blt, T1, T0), branch!(Bltu, T1, T0)),
        BinaryOp::Le => by_sign(ty, branch!(Bge, T1, T0), branch!(Bgeu, T1, T0)),
        _ => return Ok(()),
    };
    put_all(out, &[branch])
}

// Whether one register is less than another, in this type.
fn less(ty: ScalarType, first: u8, second: u8) -> Instr
    ensures { result ≡ less ty first second }
{
    if ty.is_signed() {
        Instr::Slt {
            rd: T0,
            rs1: first,
            rs2: second,
        }
    } else {
        Instr::Sltu {
            rd: T0,
            rs1: first,
            rs2: second,
        }
    }
}

// The operators of arithmetic, of one instruction each; any operator else is a comparison.
fn put_arithmetic(out: &mut Vec<Item>, op: BinaryOp, ty: ScalarType) -> Result<(), NoMemory>
    requires { is_comparison op ≡ false }
    ensures { OnOk result (out.new.items ≡ out.old.items ++ plain (operation op ty)) }
{
    let instr = match op {
        BinaryOp::Add => by_type(ty, both!(Addw), both!(Addw), both!(Add), both!(Add)),
        BinaryOp::Sub => by_type(ty, both!(Subw), both!(Subw), both!(Sub), both!(Sub)),
        BinaryOp::Mul => by_type(ty, both!(Mulw), both!(Mulw), both!(Mul), both!(Mul)),
        BinaryOp::Div => by_type(ty, both!(Divw), both!(Divuw), both!(Div), both!(Divu)),
        BinaryOp::Rem => by_type(ty, both!(Remw), both!(Remuw), both!(Rem), both!(Remu)),
        BinaryOp::And => both!(And),
        BinaryOp::Or => both!(Or),
        BinaryOp::Xor => both!(Xor),
        BinaryOp::Shl => by_type(ty, both!(Sllw), both!(Sllw), both!(Sll), both!(Sll)),
        BinaryOp::Shr => by_type(ty, both!(Sraw), both!(Srlw), both!(Sra), both!(Srl)),
        _ => unreachable!(),
    };
    put_all(out, &[instr])
}

/// Appends the operation on operands of this type.
pub fn put_operation(out: &mut Vec<Item>, op: BinaryOp, ty: ScalarType) -> Result<(), NoMemory>
    ensures { OnOk result (out.new.items ≡ out.old.items ++ plain (operation op ty)) }
{
    let is_zero = Instr::Sltiu {
        rd: T0,
        rs1: T0,
        imm: 1,
    };
    let is_other = Instr::Sltu {
        rd: T0,
        rs1: 0,
        rs2: T0,
    };
    let inverted = Instr::Xori {
        rd: T0,
        rs1: T0,
        imm: 1,
    };
    match op {
        BinaryOp::Eq => put_all(out, &[both!(Sub), is_zero]),
        BinaryOp::Ne => put_all(out, &[both!(Sub), is_other]),
        BinaryOp::Lt => put_all(out, &[less(ty, T0, T1)]),
        BinaryOp::Gt => put_all(out, &[less(ty, T1, T0)]),
        BinaryOp::Le => put_all(out, &[less(ty, T1, T0), inverted]),
        BinaryOp::Ge => put_all(out, &[less(ty, T0, T1), inverted]),
        _ => put_arithmetic(out, op, ty),
    }
}

/// Appends a unary operation on an operand of this type.
pub fn put_unary(out: &mut Vec<Item>, op: UnaryOp, ty: ScalarType) -> Result<(), NoMemory>
    ensures { OnOk result (out.new.items ≡ out.old.items ++ plain (unary_operation op ty)) }
{
    let narrow = Instr::Subw {
        rd: T0,
        rs1: 0,
        rs2: T0,
    };
    let wide = Instr::Sub {
        rd: T0,
        rs1: 0,
        rs2: T0,
    };
    let complement = Instr::Xori {
        rd: T0,
        rs1: T0,
        imm: -1,
    };
    match op {
        UnaryOp::Neg => put_all(out, &[by_type(ty, narrow, narrow, wide, wide)]),
        UnaryOp::Not => put_all(out, &[complement]),
    }
}

// To 64 bits from `unsigned int`.
fn put_zero_extension(out: &mut Vec<Item>) -> Result<(), NoMemory>
    ensures { OnOk result (out.new.items ≡ out.old.items ++ plain zero_extension) }
{
    put_all(
        out,
        &[
            Instr::Slli {
                rd: T0,
                rs1: T0,
                imm: 32,
            },
            Instr::Srli {
                rd: T0,
                rs1: T0,
                imm: 32,
            },
        ],
    )
}

/// Appends the conversion to a type from another.
pub fn put_conversion(out: &mut Vec<Item>, to: ScalarType, from: ScalarType) -> Result<(), NoMemory>
    ensures { OnOk result (out.new.items ≡ out.old.items ++ plain (conversion to from)) }
{
    let narrowing = Instr::Addiw {
        rd: T0,
        rs1: T0,
        imm: 0,
    };
    match to {
        ScalarType::Int | ScalarType::UnsignedInt => put_all(out, &[narrowing]),
        ScalarType::LongInt | ScalarType::LongUnsignedInt => match from {
            ScalarType::UnsignedInt => put_zero_extension(out),
            _ => Ok(()),
        },
    }
}

/// Appends what multiplies the index in `t0` by the size of an element.
pub fn put_scaling(out: &mut Vec<Item>, element: ElementType) -> Result<(), NoMemory>
    ensures { OnOk result (out.new.items ≡ out.old.items ++ plain (scaling element)) }
{
    let narrow = Instr::Slli {
        rd: T0,
        rs1: T0,
        imm: 2,
    };
    let wide = Instr::Slli {
        rd: T0,
        rs1: T0,
        imm: 3,
    };
    match element {
        ElementType::UnsignedChar => Ok(()),
        ElementType::Scalar(ty) => put_all(out, &[by_type(ty, narrow, narrow, wide, wide)]),
    }
}

/// The load of an element, which an offset of 0 is left to fill.
pub fn element_load(element: ElementType, rd: u8, rs1: u8) -> Instr
    ensures { result ≡ element_load element rd rs1 (pos 0) }
{
    let narrow = Instr::Lw { rd, rs1, imm: 0 };
    let wide = Instr::Ld { rd, rs1, imm: 0 };
    match element {
        ElementType::UnsignedChar => Instr::Lbu { rd, rs1, imm: 0 },
        ElementType::Scalar(ty) => by_type(ty, narrow, narrow, wide, wide),
    }
}

/// The store of an element, which an offset of 0 is left to fill.
pub fn element_store(element: ElementType, rs1: u8, rs2: u8) -> Instr
    ensures { result ≡ element_store element rs1 rs2 (pos 0) }
{
    let narrow = Instr::Sw { rs1, rs2, imm: 0 };
    let wide = Instr::Sd { rs1, rs2, imm: 0 };
    match element {
        ElementType::UnsignedChar => Instr::Sb { rs1, rs2, imm: 0 },
        ElementType::Scalar(ty) => by_type(ty, narrow, narrow, wide, wide),
    }
}
