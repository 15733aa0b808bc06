//! The whole program as summaries alone: the functions and arrays of all objects under numbers of their own.
use crate::list::List;
use crate::name::Name;
use crate::summary::Summary;
use crate::types::{Array, ResultType, ScalarType};

/// A function of the merged program.
#[derive(Drop)]
pub struct MergedFunction {
    pub object: u32,
    /// The function's number in its object.
    pub place: u32,
    pub name: Name,
    pub exported: bool,
    pub result: ResultType,
    /// One for each parameter component.
    pub parameter_types: List<ScalarType>,
    /// Its callees and arrays are numbers of the merged program.
    pub summary: Summary,
}

/// An array of the merged program.
#[derive(Drop)]
pub struct MergedArray {
    pub object: u32,
    /// The array's number in its object.
    pub place: u32,
    pub name: Name,
    pub exported: bool,
    pub item: Array,
}

/// The merged program; `main` is a number of a function.
#[derive(Drop)]
pub struct Merged {
    pub functions: List<MergedFunction>,
    pub arrays: List<MergedArray>,
    pub main: u32,
}
