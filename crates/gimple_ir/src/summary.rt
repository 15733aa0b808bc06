//! What is known of one function without its body: its code bound, how its parameters are used, and its calls.
use crate::list::List;
use crate::types::{BinaryOp, ScalarType, UnaryOp, Value};

/// What an argument component is, said over the caller's parameter components.
#[derive(Clone, Copy, Debug, PartialEq, Eq)]
pub enum JumpFunction {
    Unknown,
    Const(Value),
    /// The caller's parameter component of this number.
    Pass(u32),
    /// One operation on such a component.
    Unary(UnaryOp, u32),
    Convert(ScalarType, u32),
    /// The component is the left operand.
    Left(BinaryOp, u32, Value),
    /// The component is the right operand.
    Right(BinaryOp, Value, u32),
}

/// An argument component of a call.
#[derive(Clone, Copy, Debug, PartialEq, Eq)]
pub struct EdgeArg {
    pub jump: JumpFunction,
    /// The caller's parameter component that stands directly as the argument.
    pub source: Option<u32>,
}

/// A call to a function.
#[derive(Debug, Drop, PartialEq, Eq)]
pub struct Edge {
    /// The place of the call in the body.
    pub statement: u32,
    pub callee: u32,
    /// Whether the call stores the result.
    pub assigns: bool,
    pub args: List<EdgeArg>,
}

/// How a body uses a parameter component.
#[derive(Clone, Copy, Debug, PartialEq, Eq)]
pub struct ParamFacts {
    /// The number of operand places that name the component.
    pub weight: u32,
    /// Whether one of these places is no argument of a call to a function.
    pub used_here: bool,
}

/// The summary of a function.
#[derive(Debug, Drop, PartialEq, Eq)]
pub struct Summary {
    /// In bytes; no version of the function has longer code.
    pub code_bound: u64,
    /// One for each parameter component.
    pub params: List<ParamFacts>,
    /// The arrays that statements name, ascending.
    pub arrays: List<u32>,
    /// The calls to functions, in statement order.
    pub edges: List<Edge>,
}
