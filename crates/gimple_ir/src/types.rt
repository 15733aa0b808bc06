//! The language: its types, values, operations and statements, and modules and programs of them, as plain data.
//! A component is a scalar variable or a field of a struct variable. Components, variables, labels, arrays, functions
//! and structs are named by their numbers, from 0.
use crate::args::Args;
use crate::list::List;
use crate::name::Name;

/// The types that are computed with: 32 and 64 bits, with and without a sign.
#[derive(Clone, Copy, Debug, PartialEq, Eq)]
pub enum ScalarType {
    Int,
    UnsignedInt,
    LongInt,
    LongUnsignedInt,
}

/// The type of an array's elements; an `unsigned char` is read as `int`.
#[derive(Clone, Copy, Debug, PartialEq, Eq)]
pub enum ElementType {
    Scalar(ScalarType),
    UnsignedChar,
}

/// The type of a variable; a struct by its number.
#[derive(Clone, Copy, Debug, PartialEq, Eq)]
pub enum VarType {
    Scalar(ScalarType),
    Struct(u32),
}

/// What a function returns.
#[derive(Clone, Copy, Debug, PartialEq, Eq)]
pub enum ResultType {
    Void,
    Scalar(ScalarType),
}

/// How a name is seen by other modules; `Extern` is a declaration, the others are definitions.
#[derive(Clone, Copy, Debug, PartialEq, Eq)]
pub enum Linkage {
    Extern,
    Strong,
    Weak,
    Static,
}

/// A number of a scalar type: in range where it is well formed.
#[derive(Clone, Copy, Debug, PartialEq, Eq)]
pub struct Value {
    pub ty: ScalarType,
    pub num: i128,
}

/// Negation `-` and complement `~`.
#[derive(Clone, Copy, Debug, PartialEq, Eq)]
pub enum UnaryOp {
    Neg,
    Not,
}

/// The binary operators, in the order of their codes: `+ - * / % & | ^ << >> == != < <= > >=`.
#[derive(Clone, Copy, Debug, PartialEq, Eq)]
pub enum BinaryOp {
    Add,
    Sub,
    Mul,
    Div,
    Rem,
    And,
    Or,
    Xor,
    Shl,
    Shr,
    Eq,
    Ne,
    Lt,
    Le,
    Gt,
    Ge,
}

/// What is read: a component, or a number that stands in the text.
#[derive(Clone, Copy, Debug, PartialEq, Eq)]
pub enum Operand {
    Component(u32),
    Literal(Value),
}

/// An argument of a call; `Whole` is a struct variable, by its number.
#[derive(Clone, Copy, Debug)]
pub enum Arg {
    One(Operand),
    Whole(u32),
}

/// What the unused inline places of `Args` hold.
impl Default for Arg {
    ghost use Rattle.std.specs.Prelude.{◌≡◌};
    ghost use Rattle.gimple_ir.specs.declared.types.Arg.TheVariants.{Whole};

    ghost is_default = { λ arg. arg ≡ Whole 0 };

    fn default() -> Arg {
        Arg::Whole(0)
    }
}

/// A case of a switch: the value, and the label that it goes to.
#[derive(Clone, Copy, Debug)]
pub struct Case {
    pub value: Value,
    pub label: u32,
}

/// A statement; `to` is a component, and `yes`, `no`, `otherwise` are labels.
#[derive(Debug, Drop)]
pub enum Statement {
    Nop,
    Label(u32),
    Goto(u32),
    Cond {
        op: BinaryOp,
        left: Operand,
        right: Operand,
        yes: u32,
        no: u32,
    },
    Switch {
        on: Operand,
        cases: List<Case>,
        otherwise: u32,
    },
    ReturnVoid,
    Return(Operand),
    Copy {
        to: u32,
        from: Operand,
    },
    Unary {
        to: u32,
        op: UnaryOp,
        from: Operand,
    },
    Convert {
        to: u32,
        from: Operand,
    },
    Binary {
        to: u32,
        op: BinaryOp,
        left: Operand,
        right: Operand,
    },
    Load {
        to: u32,
        array: u32,
        index: Operand,
    },
    Store {
        array: u32,
        index: Operand,
        from: Operand,
    },
    /// Both are variables.
    CopyStruct {
        to: u32,
        from: u32,
    },
    Call {
        to: Option<u32>,
        function: u32,
        args: Args,
    },
    Putchar(Operand),
    Getchar(Option<u32>),
    Exit(Operand),
}

/// A struct type.
#[derive(Debug, Drop)]
pub struct StructDef {
    pub name: Name,
    pub fields: List<Field>,
}

/// A field of a struct.
#[derive(Debug, Drop)]
pub struct Field {
    pub name: Name,
    pub ty: ScalarType,
}

/// A variable of a function; `types` has the type of each of its components.
#[derive(Debug, Drop)]
pub struct Variable {
    pub name: Name,
    pub ty: VarType,
    pub types: List<ScalarType>,
}

/// An array of static storage; initial values that are missing at the end are 0.
#[derive(Debug, Drop)]
pub struct Array {
    pub name: Name,
    pub linkage: Linkage,
    pub element: ElementType,
    /// In elements.
    pub length: u32,
    /// The first elements' values, of which the last is not 0.
    pub initial: List<i128>,
}

/// A function; the first `parameters` of its variables are its parameters, and a declaration has no locals, labels and
/// statements.
#[derive(Debug, Drop)]
pub struct Function {
    pub name: Name,
    pub linkage: Linkage,
    pub result: ResultType,
    pub parameters: u32,
    pub variables: List<Variable>,
    pub labels: List<Name>,
    pub body: List<Statement>,
}

/// One source file.
#[derive(Debug, Drop)]
pub struct Module {
    pub structs: List<StructDef>,
    pub arrays: List<Array>,
    pub functions: List<Function>,
}

/// A whole program: definitions alone, without structs; `main` is a number of a function.
#[derive(Drop)]
pub struct Program {
    pub arrays: List<Array>,
    pub functions: List<Function>,
    pub main: u32,
}
