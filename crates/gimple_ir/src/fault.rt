//! The first fault that the checks find in a module.

/// The kinds of fault, in the order in which they are looked for within an item.
#[derive(Clone, Copy, Debug, PartialEq, Eq)]
pub enum TypeKind {
    /// A name that an earlier item of the same name space, or an earlier field, variable or label, already has.
    DoubleName,
    /// A name, or a number, that names nothing of the sort that stands here.
    UnknownName,
    /// A count outside its limits, or more initial values than the array is long.
    TooMany,
    /// A label that stands twice, or is used and stands nowhere.
    BadLabel,
    /// A body whose last statement may go on to the next place.
    OpenEnd,
    /// A call with another number of arguments than the function has parameters.
    WrongCount,
    /// Types that do not fit.
    WrongType,
    /// A negation of a literal.
    NegLiteral,
    /// Case values that do not ascend.
    BadCase,
}

/// The kind of a fault and its place.
#[derive(Clone, Copy, Debug, PartialEq, Eq)]
pub struct TypeFault {
    pub kind: TypeKind,
    /// Counts the structs, then the arrays, then the functions, from 0.
    pub item: u32,
    /// The place in the function's body, and 0 where the fault is of the item itself.
    pub statement: u32,
}
