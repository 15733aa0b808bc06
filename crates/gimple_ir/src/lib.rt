//! The intermediate language: types, values, statements, modules and whole programs, and the plain data that the
//! stages of a link hand to each other.
//!
//! In specs/, `Values` says what the operations on values give, `Lattices` the meet of two facts, `Names` what a name
//! is, `Statements` and `Checks` which fault of a module is the first, `CodeBound` how long code may get, and
//! `Programs` what a checked module and a well formed program are.
#![tactic(auto)]

mod args;
mod bytes;
mod fault;
mod lattice;
mod list;
mod merged;
mod name;
mod plan;
mod summary;
mod types;
mod unit;
mod values;
mod versioned;

pub use args::Args;
pub use bytes::Bytes;
pub use fault::{TypeFault, TypeKind};
pub use lattice::{Binding, Lattice, lattice_meet};
pub use list::List;
pub use merged::{Merged, MergedArray, MergedFunction};
pub use name::Name;
pub use plan::{CallPlan, Options, Plan, Version};
pub use std::alloc::AllocError as NoMemory;
pub use summary::{Edge, EdgeArg, JumpFunction, ParamFacts, Summary};
pub use types::{
    Arg, Array, BinaryOp, Case, ElementType, Field, Function, Linkage, Module, Operand, Program,
    ResultType, ScalarType, Statement, StructDef, UnaryOp, Value, VarType, Variable,
};
pub use unit::{ArrayUse, CallUse, Member};
pub use values::{convert, eval_binary, eval_unary};
pub use versioned::{Pair, Step, VersionedFunction};
