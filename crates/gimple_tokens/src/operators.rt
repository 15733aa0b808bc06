// The binary operators as signs: `specs/Operators.antt`.
ghost use Rattle.std.specs.Prelude.{◌≡◌};
ghost use Rattle.gimple_tokens.specs.Operators.{operator_of};

use crate::token::Mark;
use gimple_ir::BinaryOp;

/// The operator that a sign is.
pub(crate) fn operator_of(mark: Mark) -> Option<BinaryOp>
    ensures { result ≡ operator_of mark }
{
    match mark {
        Mark::Plus => Some(BinaryOp::Add),
        Mark::Minus => Some(BinaryOp::Sub),
        Mark::Asterisk => Some(BinaryOp::Mul),
        Mark::Slash => Some(BinaryOp::Div),
        Mark::Percent => Some(BinaryOp::Rem),
        Mark::Ampersand => Some(BinaryOp::And),
        Mark::VerticalBar => Some(BinaryOp::Or),
        Mark::Caret => Some(BinaryOp::Xor),
        Mark::ShiftLeft => Some(BinaryOp::Shl),
        Mark::ShiftRight => Some(BinaryOp::Shr),
        Mark::EqualsEquals => Some(BinaryOp::Eq),
        Mark::NotEquals => Some(BinaryOp::Ne),
        Mark::Less => Some(BinaryOp::Lt),
        Mark::LessEquals => Some(BinaryOp::Le),
        Mark::Greater => Some(BinaryOp::Gt),
        Mark::GreaterEquals => Some(BinaryOp::Ge),
        _ => None,
    }
}
