//! What is known of a component in every call: nothing yet, one constant, or nothing in common.
ghost use Rattle.std.specs.Prelude.{◌≡◌};
ghost use Rattle.gimple_ir.specs.Lattices.{meet_of};

use crate::types::Value;

/// The lattice of constants.
#[derive(Clone, Copy, Debug, PartialEq, Eq)]
pub enum Lattice {
    /// No value has been seen.
    Top,
    /// Every value that was seen is this one.
    Const(Value),
    /// Two values may differ.
    Bottom,
}

/// How a version of a function gets a component of its parameters.
#[derive(Clone, Copy, Debug, PartialEq, Eq)]
pub enum Binding {
    /// It is never read.
    Dead,
    /// It is the argument of this number.
    Arg(u32),
    /// It is this constant in every call.
    Const(Value),
}

/// The greatest value that is below both.
pub fn lattice_meet(left: Lattice, right: Lattice) -> Lattice
    ensures { result ≡ meet_of left right }
{
    match (left, right) {
        (Lattice::Top, _) => right,
        (_, Lattice::Top) => left,
        (Lattice::Const(a), Lattice::Const(b)) if a == b => left,
        _ => Lattice::Bottom,
    }
}
