//! The bytes that stand for opcodes, operators, types, linkage and flags.
ghost use Rattle.std.specs.Prelude.{◌≡◌};
ghost use Rattle.module_stream.specs.Readers.{pick};

use gimple_ir::{BinaryOp, ElementType, Linkage, ResultType, ScalarType, UnaryOp};

/// What one byte of a stream stands for.
pub trait Coded: Copy {
    ghost use Rattle.std.specs.Prelude.{List, ℕ};

    /// The bytes, each with what it stands for.
    ghost table: { List (ℕ × Self) };

    /// The byte of each.
    ghost code_of: { Self → ℕ };

    /// What the byte stands for, or None where it stands for nothing.
    fn from_code(code: u8) -> Option<Self>
        ensures { result ≡ pick code table };

    /// The byte that stands for it.
    fn code(self) -> u8
        ensures { result ≡ code_of self };
}

/// The forms of statements. A call and a `getchar` have two each: without a target and with one.
#[derive(Clone, Copy)]
pub enum Opcode {
    Nop,
    Label,
    Goto,
    Cond,
    Switch,
    ReturnVoid,
    Return,
    Copy,
    Unary,
    Convert,
    Binary,
    Load,
    Store,
    CopyStruct,
    CallVoid,
    Call,
    Putchar,
    GetcharVoid,
    Getchar,
    Exit,
}

impl Coded for Opcode {
    ghost use Rattle.module_stream.specs.Codes.{opcode_table, opcode_code};

    ghost table = { opcode_table };

    ghost code_of = { opcode_code };

    fn from_code(code: u8) -> Option<Opcode> {
        match code {
            0 => Some(Opcode::Nop),
            1 => Some(Opcode::Label),
            2 => Some(Opcode::Goto),
            3 => Some(Opcode::Cond),
            4 => Some(Opcode::Switch),
            5 => Some(Opcode::ReturnVoid),
            6 => Some(Opcode::Return),
            7 => Some(Opcode::Copy),
            8 => Some(Opcode::Unary),
            9 => Some(Opcode::Convert),
            10 => Some(Opcode::Binary),
            11 => Some(Opcode::Load),
            12 => Some(Opcode::Store),
            13 => Some(Opcode::CopyStruct),
            14 => Some(Opcode::CallVoid),
            15 => Some(Opcode::Call),
            16 => Some(Opcode::Putchar),
            17 => Some(Opcode::GetcharVoid),
            18 => Some(Opcode::Getchar),
            19 => Some(Opcode::Exit),
            _ => None,
        }
    }

    fn code(self) -> u8 {
        match self {
            Opcode::Nop => 0,
            Opcode::Label => 1,
            Opcode::Goto => 2,
            Opcode::Cond => 3,
            Opcode::Switch => 4,
            Opcode::ReturnVoid => 5,
            Opcode::Return => 6,
            Opcode::Copy => 7,
            Opcode::Unary => 8,
            Opcode::Convert => 9,
            Opcode::Binary => 10,
            Opcode::Load => 11,
            Opcode::Store => 12,
            Opcode::CopyStruct => 13,
            Opcode::CallVoid => 14,
            Opcode::Call => 15,
            Opcode::Putchar => 16,
            Opcode::GetcharVoid => 17,
            Opcode::Getchar => 18,
            Opcode::Exit => 19,
        }
    }
}

impl Coded for BinaryOp {
    ghost use Rattle.module_stream.specs.Codes.{binary_table, binary_code};

    ghost table = { binary_table };

    ghost code_of = { binary_code };

    fn from_code(code: u8) -> Option<BinaryOp> {
        match code {
            0 => Some(BinaryOp::Add),
            1 => Some(BinaryOp::Sub),
            2 => Some(BinaryOp::Mul),
            3 => Some(BinaryOp::Div),
            4 => Some(BinaryOp::Rem),
            5 => Some(BinaryOp::And),
            6 => Some(BinaryOp::Or),
            7 => Some(BinaryOp::Xor),
            8 => Some(BinaryOp::Shl),
            9 => Some(BinaryOp::Shr),
            10 => Some(BinaryOp::Eq),
            11 => Some(BinaryOp::Ne),
            12 => Some(BinaryOp::Lt),
            13 => Some(BinaryOp::Le),
            14 => Some(BinaryOp::Gt),
            15 => Some(BinaryOp::Ge),
            _ => None,
        }
    }

    fn code(self) -> u8 {
        match self {
            BinaryOp::Add => 0,
            BinaryOp::Sub => 1,
            BinaryOp::Mul => 2,
            BinaryOp::Div => 3,
            BinaryOp::Rem => 4,
            BinaryOp::And => 5,
            BinaryOp::Or => 6,
            BinaryOp::Xor => 7,
            BinaryOp::Shl => 8,
            BinaryOp::Shr => 9,
            BinaryOp::Eq => 10,
            BinaryOp::Ne => 11,
            BinaryOp::Lt => 12,
            BinaryOp::Le => 13,
            BinaryOp::Gt => 14,
            BinaryOp::Ge => 15,
        }
    }
}

impl Coded for UnaryOp {
    ghost use Rattle.module_stream.specs.Codes.{unary_table, unary_code};

    ghost table = { unary_table };

    ghost code_of = { unary_code };

    fn from_code(code: u8) -> Option<UnaryOp> {
        match code {
            0 => Some(UnaryOp::Neg),
            1 => Some(UnaryOp::Not),
            _ => None,
        }
    }

    fn code(self) -> u8 {
        match self {
            UnaryOp::Neg => 0,
            UnaryOp::Not => 1,
        }
    }
}

impl Coded for ScalarType {
    ghost use Rattle.module_stream.specs.Codes.{type_table, type_code};

    ghost table = { type_table };

    ghost code_of = { type_code };

    fn from_code(code: u8) -> Option<ScalarType> {
        match code {
            1 => Some(ScalarType::Int),
            2 => Some(ScalarType::UnsignedInt),
            3 => Some(ScalarType::LongInt),
            4 => Some(ScalarType::LongUnsignedInt),
            _ => None,
        }
    }

    fn code(self) -> u8 {
        match self {
            ScalarType::Int => 1,
            ScalarType::UnsignedInt => 2,
            ScalarType::LongInt => 3,
            ScalarType::LongUnsignedInt => 4,
        }
    }
}

impl Coded for ElementType {
    ghost use Rattle.module_stream.specs.Codes.{element_table, element_code};

    ghost table = { element_table };

    ghost code_of = { element_code };

    fn from_code(code: u8) -> Option<ElementType> {
        match code {
            1 => Some(ElementType::Scalar(ScalarType::Int)),
            2 => Some(ElementType::Scalar(ScalarType::UnsignedInt)),
            3 => Some(ElementType::Scalar(ScalarType::LongInt)),
            4 => Some(ElementType::Scalar(ScalarType::LongUnsignedInt)),
            5 => Some(ElementType::UnsignedChar),
            _ => None,
        }
    }

    fn code(self) -> u8 {
        match self {
            ElementType::Scalar(ScalarType::Int) => 1,
            ElementType::Scalar(ScalarType::UnsignedInt) => 2,
            ElementType::Scalar(ScalarType::LongInt) => 3,
            ElementType::Scalar(ScalarType::LongUnsignedInt) => 4,
            ElementType::UnsignedChar => 5,
        }
    }
}

impl Coded for ResultType {
    ghost use Rattle.module_stream.specs.Codes.{result_table, result_code};

    ghost table = { result_table };

    ghost code_of = { result_code };

    fn from_code(code: u8) -> Option<ResultType> {
        match code {
            0 => Some(ResultType::Void),
            1 => Some(ResultType::Scalar(ScalarType::Int)),
            2 => Some(ResultType::Scalar(ScalarType::UnsignedInt)),
            3 => Some(ResultType::Scalar(ScalarType::LongInt)),
            4 => Some(ResultType::Scalar(ScalarType::LongUnsignedInt)),
            _ => None,
        }
    }

    fn code(self) -> u8 {
        match self {
            ResultType::Void => 0,
            ResultType::Scalar(ScalarType::Int) => 1,
            ResultType::Scalar(ScalarType::UnsignedInt) => 2,
            ResultType::Scalar(ScalarType::LongInt) => 3,
            ResultType::Scalar(ScalarType::LongUnsignedInt) => 4,
        }
    }
}

impl Coded for Linkage {
    ghost use Rattle.module_stream.specs.Codes.{linkage_table, linkage_code};

    ghost table = { linkage_table };

    ghost code_of = { linkage_code };

    fn from_code(code: u8) -> Option<Linkage> {
        match code {
            0 => Some(Linkage::Extern),
            1 => Some(Linkage::Strong),
            2 => Some(Linkage::Weak),
            3 => Some(Linkage::Static),
            _ => None,
        }
    }

    fn code(self) -> u8 {
        match self {
            Linkage::Extern => 0,
            Linkage::Strong => 1,
            Linkage::Weak => 2,
            Linkage::Static => 3,
        }
    }
}

impl Coded for bool {
    ghost use Rattle.module_stream.specs.Codes.{flag_table, flag_code};

    ghost table = { flag_table };

    ghost code_of = { flag_code };

    fn from_code(code: u8) -> Option<bool> {
        match code {
            0 => Some(false),
            1 => Some(true),
            _ => None,
        }
    }

    fn code(self) -> u8 {
        if self { 1 } else { 0 }
    }
}
