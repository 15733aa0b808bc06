//! A symbol of an object.
use gimple_ir::{Linkage, Name};

/// An array or a function that other modules see, or that this one takes from another.
#[derive(Debug, Drop, PartialEq, Eq)]
pub struct Symbol {
    pub name: Name,
    /// A function, and not an array.
    pub function: bool,
    pub linkage: Linkage,
    /// The number of the function or array in its module.
    pub place: u32,
}
