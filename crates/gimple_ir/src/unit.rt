//! A version of a function as a unit holds it: the body of its object, and what becomes of arrays, calls and parameters.
use crate::lattice::Binding;
use crate::list::List;
use crate::name::Name;
use crate::types::{ElementType, ScalarType, Statement};

/// An array that a body names.
#[derive(Drop)]
pub struct ArrayUse {
    /// Its number in the body's object.
    pub local: u32,
    pub symbol: Name,
    pub element: ElementType,
}

/// A call to a function.
#[derive(Drop)]
pub struct CallUse {
    /// The symbol of the target version.
    pub symbol: Name,
    /// The places of the argument components that are passed, ascending.
    pub kept: List<u32>,
}

/// A member of a unit.
#[derive(Drop)]
pub struct Member {
    pub symbol: Name,
    /// How many of the variables are parameters.
    pub parameters: u32,
    /// The component types of each variable, parameters first.
    pub variables: List<List<ScalarType>>,
    /// One for each parameter component.
    pub bindings: List<Binding>,
    /// Whether the result is kept.
    pub result: bool,
    /// The number of labels.
    pub labels: u32,
    /// By local number, ascending.
    pub arrays: List<ArrayUse>,
    /// One for each call to a function, in statement order.
    pub calls: List<CallUse>,
    /// The body, with the numbers of its own object.
    pub body: List<Statement>,
}
