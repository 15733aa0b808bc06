// What stands between two places where the text may go on in several ways. A form of `syntax` is made of these.

use crate::syntax::{ArrayText, Body, FunctionText, Operand};
use gimple_ir::{BinaryOp, ElementType, List, ResultType};
use gimple_tokens::Identifier;

/// What stands after the first operand on the right of `=`: `;` or `+ b;`.
#[derive(Drop)]
pub(crate) enum After<'a> {
    End,
    Binary(BinaryOp, Operand<'a>),
}

/// What stands after a name on the right of `=`.
#[derive(Drop)]
pub(crate) enum NameTail<'a> {
    /// `[a];`
    Load(Operand<'a>),
    /// `(a, s);`
    Call(List<Operand<'a>>),
    /// `.f` or nothing, and what stands after that operand
    Value(Option<Identifier<'a>>, After<'a>),
}

/// The type and the name of an array or a function, and the bracket after them: `int A [` or `int f (`.
#[derive(Drop)]
pub(crate) enum Head<'a> {
    Array(ElementType, Identifier<'a>),
    Function(ResultType, Identifier<'a>),
}

/// A definition without its linkage.
#[derive(Drop)]
pub(crate) enum Defined<'a> {
    Array(ArrayText<'a>),
    Function(FunctionText<'a>, Body<'a>),
}
