//! A version of a function as the back end takes it: components alone, and calls by the argument components that they pass.
use crate::lattice::Binding;
use crate::list::List;
use crate::name::Name;
use crate::types::{BinaryOp, Case, Operand, ScalarType, UnaryOp};
use crate::unit::ArrayUse;

/// A move of one component.
#[derive(Clone, Copy)]
pub struct Pair {
    pub to: u32,
    pub from: Operand,
}

/// A statement of a version; `to` is a component, and labels, arrays and calls are numbers in the version's lists.
#[derive(Drop)]
pub enum Step {
    Nop,
    Label(u32),
    Goto(u32),
    Cond {
        op: BinaryOp,
        left: Operand,
        right: Operand,
        yes: u32,
        no: u32,
    },
    Switch {
        on: Operand,
        cases: List<Case>,
        otherwise: u32,
    },
    Return(Option<Operand>),
    /// The pairs one after the other, in order.
    Copies(List<Pair>),
    Unary {
        to: u32,
        op: UnaryOp,
        from: Operand,
    },
    Convert {
        to: u32,
        from: Operand,
    },
    Binary {
        to: u32,
        op: BinaryOp,
        left: Operand,
        right: Operand,
    },
    Load {
        to: u32,
        array: u32,
        index: Operand,
    },
    Store {
        array: u32,
        index: Operand,
        from: Operand,
    },
    Call {
        to: Option<u32>,
        call: u32,
        args: List<Operand>,
    },
    Putchar(Operand),
    Getchar(Option<u32>),
    Exit(Operand),
}

/// A version of a function.
#[derive(Drop)]
pub struct VersionedFunction {
    pub symbol: Name,
    /// The type of each component, those of parameters first.
    pub types: List<ScalarType>,
    /// One for each parameter component.
    pub bindings: List<Binding>,
    /// The number of labels.
    pub labels: u32,
    pub arrays: List<ArrayUse>,
    /// The symbol of each call's target.
    pub calls: List<Name>,
    pub body: List<Step>,
}
