//! A module's text as it stands: its items and statements, each with its line, with names where a module has numbers.

use gimple_ir::{BinaryOp, ElementType, Linkage, List, ResultType, ScalarType};
use gimple_tokens::{Identifier, Suffix};

/// A number, with `-` before it or not. It is in the range of its suffix's type or, as an initial value, of its element's.
#[derive(Clone, Copy, Debug, PartialEq, Eq)]
pub struct Literal {
    pub negative: bool,
    pub number: u64,
    pub suffix: Suffix,
}

/// A variable, or a field of one: `a` or `a.f`.
#[derive(Drop)]
pub struct Place<'a> {
    pub name: Identifier<'a>,
    pub field: Option<Identifier<'a>>,
}

/// What is read or passed.
#[derive(Drop)]
pub enum Operand<'a> {
    Place(Place<'a>),
    Literal(Literal),
}

/// `a + b`.
#[derive(Drop)]
pub struct Binary<'a> {
    pub left: Operand<'a>,
    pub op: BinaryOp,
    pub right: Operand<'a>,
}

/// What stands after `=`. A `-` before a number belongs to the literal.
#[derive(Drop)]
pub enum Right<'a> {
    /// `a;`
    Value(Operand<'a>),
    /// `a + b;`
    Binary(Binary<'a>),
    /// `-a;`, where `- -5;` negates the literal -5
    Negate(Operand<'a>),
    /// `~a;`
    Complement(Operand<'a>),
    /// `(unsigned int) a;`
    Convert(ScalarType, Operand<'a>),
    /// `A[a];`
    Load(Identifier<'a>, Operand<'a>),
    /// `f (a, s);`
    Call(Identifier<'a>, List<Operand<'a>>),
}

/// What stands after a name that begins a statement.
#[derive(Drop)]
pub enum Tail<'a> {
    /// `:`
    Label,
    /// `(a, s);`
    Call(List<Operand<'a>>),
    /// `[a] = b;`
    Store(Operand<'a>, Operand<'a>),
    /// `= right`
    Assign(Right<'a>),
    /// `.f = right`
    AssignField(Identifier<'a>, Right<'a>),
}

/// `if (left op right) goto met; else goto missed;`, with any binary operator.
#[derive(Drop)]
pub struct Condition<'a> {
    pub left: Operand<'a>,
    pub op: BinaryOp,
    pub right: Operand<'a>,
    pub met: Identifier<'a>,
    pub missed: Identifier<'a>,
}

/// `case value: label`.
#[derive(Drop)]
pub struct CaseLabel<'a> {
    pub value: Literal,
    pub label: Identifier<'a>,
}

/// `switch (on) <default: otherwise, case 1: M>;`. There may be no case.
#[derive(Drop)]
pub struct Choice<'a> {
    pub on: Operand<'a>,
    pub otherwise: Identifier<'a>,
    pub cases: List<CaseLabel<'a>>,
}

/// A statement or a label.
#[derive(Drop)]
pub enum Form<'a> {
    /// `;`
    Empty,
    /// `goto L;`
    Goto(Identifier<'a>),
    If(Condition<'a>),
    Switch(Choice<'a>),
    /// `return;` or `return a;`
    Return(Option<Operand<'a>>),
    /// All that begins with a name.
    Named(Identifier<'a>, Tail<'a>),
}

/// A statement and the line of its first token, from 1.
#[derive(Drop)]
pub struct Line<'a> {
    pub line: u32,
    pub form: Form<'a>,
}

/// The type of a variable; a struct by its name.
#[derive(Drop)]
pub enum Type<'a> {
    Scalar(ScalarType),
    Struct(Identifier<'a>),
}

/// A variable: `int x` or `struct p s`.
#[derive(Drop)]
pub struct Declared<'a> {
    pub ty: Type<'a>,
    pub name: Identifier<'a>,
}

/// A field of a struct: `int x;`.
#[derive(Drop)]
pub struct FieldText<'a> {
    pub ty: ScalarType,
    pub name: Identifier<'a>,
}

/// `struct p { int x; int y; };`.
#[derive(Drop)]
pub struct StructText<'a> {
    pub name: Identifier<'a>,
    pub fields: List<FieldText<'a>>,
}

/// `int A[4] = {1, 2};`. The initial values are empty where no `=` stands, and only there.
#[derive(Drop)]
pub struct ArrayText<'a> {
    pub element: ElementType,
    pub name: Identifier<'a>,
    /// In elements.
    pub length: u32,
    pub initial: List<Literal>,
}

/// What stands between the brackets after a function's name: nothing, `void`, or one variable at least.
#[derive(Drop)]
pub enum Parameters<'a> {
    None,
    Void,
    Some(List<Declared<'a>>),
}

/// The head of a function: `int f (int a, struct p b)`.
#[derive(Drop)]
pub struct FunctionText<'a> {
    pub result: ResultType,
    pub name: Identifier<'a>,
    pub parameters: Parameters<'a>,
}

/// What stands between the braces of a function.
#[derive(Drop)]
pub struct Body<'a> {
    pub locals: List<Declared<'a>>,
    pub lines: List<Line<'a>>,
}

/// A declaration, or a definition with its linkage, which is not `Extern`.
#[derive(Drop)]
pub enum Item<'a> {
    Struct(StructText<'a>),
    /// Without initial values.
    ExternArray(ArrayText<'a>),
    ExternFunction(FunctionText<'a>),
    Array(Linkage, ArrayText<'a>),
    Function(Linkage, FunctionText<'a>, Body<'a>),
}

/// An item and the line of its first token, from 1.
#[derive(Drop)]
pub struct ItemLine<'a> {
    pub line: u32,
    pub item: Item<'a>,
}
