//! The faults of a text.
ghost use Rattle.std.specs.Prelude.{◌≡◌};
ghost use Rattle.gimple_syntax.specs.Reading.{text_kind, syntax_fault};

use gimple_grammar::SyntaxFault;
use gimple_ir::TypeKind;
use std::alloc::AllocError;
use thiserror::Error;

/// What is wrong at a line of a text.
#[derive(Clone, Copy, Debug, PartialEq, Eq)]
pub enum TextKind {
    /// A byte that no text has.
    Byte,
    /// A byte or token that cannot come next, or an end that comes too early.
    Syntax,
    /// A number that is spelled as none, or out of its range.
    Literal,
    /// A fault of the checks.
    Check(TypeKind),
}

/// The first fault of a text. Lines count from 1.
#[derive(Clone, Copy, Debug, PartialEq, Eq)]
pub struct TextFault {
    pub line: u32,
    pub kind: TextKind,
}

/// Why a text is refused.
#[derive(Debug, Drop, Error)]
pub enum TextError {
    #[error("line {}: {:?}", .0.line, .0.kind)]
    Fault(TextFault),
    #[error("out of memory")]
    NoMemory,
}

impl From<AllocError> for TextError {
    ghost use Rattle.gimple_syntax.specs.declared.text.TextError.TheVariants.{NoMemory};

    ghost from_gives = { λ _ error. error ≡ NoMemory };

    fn from(_error: AllocError) -> TextError {
        TextError::NoMemory
    }
}

fn text_kind(kind: gimple_tokens::TextKind) -> TextKind
    ensures { result ≡ text_kind kind }
{
    match kind {
        gimple_tokens::TextKind::Byte => TextKind::Byte,
        gimple_tokens::TextKind::Syntax => TextKind::Syntax,
        gimple_tokens::TextKind::Literal => TextKind::Literal,
    }
}

/// A fault of the syntax as one of a text.
pub(crate) fn syntax_fault(fault: SyntaxFault) -> TextFault
    ensures { result ≡ syntax_fault fault.line fault.kind }
{
    TextFault {
        line: fault.line,
        kind: text_kind(fault.kind),
    }
}
