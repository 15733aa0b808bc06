//! What a name in a function stands for.

use gimple_ir::Operand;

/// What a place or a literal names. A variable of a scalar type and a field of a struct variable are components.
#[derive(Clone, Copy)]
pub enum Named {
    /// Nothing.
    Unknown,
    /// A struct variable, by its number.
    Whole(u32),
    /// A component, or a literal's value.
    Single(Operand),
}
