//! What the whole program's analysis decides: which versions of each function there are, and what each call becomes.
use crate::lattice::{Binding, Lattice};
use crate::list::List;
use crate::name::Name;

/// A version of a function.
#[derive(Drop)]
pub struct Version {
    /// The function's number in the merged program.
    pub function: u32,
    /// The version's number among those of the function, from 0.
    pub number: u32,
    /// One for each parameter component.
    pub vector: List<Lattice>,
    /// One for each parameter component.
    pub bindings: List<Binding>,
    /// Whether the result is kept.
    pub result: bool,
    pub symbol: Name,
    /// The code bound of the function, in bytes.
    pub size: u64,
    /// One for each call to a function, in statement order.
    pub calls: List<CallPlan>,
}

/// What a call of a version becomes.
#[derive(Drop)]
pub struct CallPlan {
    /// A place in the plan's versions.
    pub target: u32,
    /// The places of the argument components that are passed, ascending.
    pub kept: List<u32>,
}

/// The plan of a link.
#[derive(Drop)]
pub struct Plan {
    /// By function, then by number.
    pub versions: List<Version>,
    /// The arrays that are kept, ascending.
    pub arrays: List<u32>,
    /// Which code is made.
    pub code: u8,
}

/// The choices of one link.
#[derive(Clone, Copy, Debug, PartialEq, Eq)]
pub struct Options {
    pub partitions: u32,
    pub workers: u32,
    /// By how much versions may enlarge the code, in percent.
    pub growth: u32,
    /// The most versions of one function.
    pub versions: u32,
    /// Which code is made.
    pub code: u8,
}
