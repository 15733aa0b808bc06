//! The bytes that stand for the kinds of jump functions.
ghost use Rattle.std.specs.Prelude.{◌≡◌};
ghost use Rattle.lto_object.specs.JumpCodes.{kind_of};

use gimple_ir::JumpFunction;
use module_stream::Coded;

/// The kinds of jump functions.
#[derive(Clone, Copy)]
pub enum JumpKind {
    Unknown,
    Const,
    Pass,
    Unary,
    Convert,
    Left,
    Right,
}

impl Coded for JumpKind {
    ghost use Rattle.lto_object.specs.JumpCodes.{jump_table, jump_code};

    ghost table = { jump_table };

    ghost code_of = { jump_code };

    fn from_code(code: u8) -> Option<JumpKind> {
        match code {
            0 => Some(JumpKind::Unknown),
            1 => Some(JumpKind::Const),
            2 => Some(JumpKind::Pass),
            3 => Some(JumpKind::Unary),
            4 => Some(JumpKind::Convert),
            5 => Some(JumpKind::Left),
            6 => Some(JumpKind::Right),
            _ => None,
        }
    }

    fn code(self) -> u8 {
        match self {
            JumpKind::Unknown => 0,
            JumpKind::Const => 1,
            JumpKind::Pass => 2,
            JumpKind::Unary => 3,
            JumpKind::Convert => 4,
            JumpKind::Left => 5,
            JumpKind::Right => 6,
        }
    }
}

/// The kind of a jump function.
pub fn kind_of(jump: JumpFunction) -> JumpKind
    ensures { result ≡ kind_of jump }
{
    match jump {
        JumpFunction::Unknown => JumpKind::Unknown,
        JumpFunction::Const(_) => JumpKind::Const,
        JumpFunction::Pass(_) => JumpKind::Pass,
        JumpFunction::Unary(..) => JumpKind::Unary,
        JumpFunction::Convert(..) => JumpKind::Convert,
        JumpFunction::Left(..) => JumpKind::Left,
        JumpFunction::Right(..) => JumpKind::Right,
    }
}
