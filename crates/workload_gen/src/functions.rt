//! The functions that are generated.
ghost use Rattle.std.specs.Prelude.{◌≡◌, ◌<◌, ◌+◌, ◌++◌, ◌∷◌, [], ◌^◌, ◌*◌, length, IfOk, OnOk, IfSome};
ghost use Rattle.gimple_ir.specs.Names.{IsName};
ghost use Rattle.workload_gen.specs.Functions.{scalar, name_of, parameters, variables, main_variables, call_to, declaration, body_of, definition, main_end, main_body, main_of};
ghost use Rattle.workload_gen.specs.Modules.{place_in};
ghost use Rattle.workload_gen.specs.Places.{IsCalled};
ghost use Rattle.workload_gen.specs.Choices.{unsigned};
ghost use Rattle.gimple_ir.specs.declared.types.BinaryOp.TheVariants.{Xor};
ghost use Rattle.gimple_ir.specs.declared.types.Operand.TheVariants.{Component};
ghost use Rattle.gimple_ir.specs.declared.types.Statement.TheVariants.{Binary};

use crate::choices::{Choice, unsigned};
use crate::draws::Draws;
use crate::places::Places;
use gimple_ir::{
    Arg, Args, BinaryOp, Function, Linkage, List, Name, NoMemory, Operand, ResultType, ScalarType,
    Statement, Value, VarType, Variable,
};
use itoa::Buffer;
use std::alloc::Global;

// The components of a function, and the first three of `main`'s.
const A: Operand = Operand::Component(0);

const B: Operand = Operand::Component(1);

const R: Operand = Operand::Component(2);

const S: Operand = Operand::Component(3);

fn name(alloc: Global, text: &[u8]) -> Result<Name, NoMemory>
    requires { IsName text.now }
    ensures { IfOk result (λ name. name ≡ text.now) }
{
    let name = Name::read(alloc, text)?;
    Ok(name.unwrap())
}

/// `f` and the number.
fn name_of(alloc: Global, number: u32) -> Result<Name, NoMemory>
    ensures { IfOk result (λ name. name ≡ name_of number) }
{
    let mut buffer = Buffer::new();
    let mut text = Vec::from_slice(alloc, b"f")?;
    text.extend_from_slice(buffer.format(number).as_bytes())?;
    name(alloc, text.as_slice())
}

fn scalar(alloc: Global, text: &[u8], ty: ScalarType) -> Result<Variable, NoMemory>
    requires { IsName text.now }
    ensures { IfOk result (λ variable. variable ≡ scalar text.now ty) }
{
    Ok(Variable {
        name: name(alloc, text)?,
        ty: VarType::Scalar(ty),
        types: List::from_vec(vec![in alloc; ty]?),
    })
}

/// `a` and `b`.
fn parameters(alloc: Global) -> Result<List<Variable>, NoMemory>
    ensures { IfOk result (λ list. list ≡ parameters) }
{
    let a = scalar(alloc, b"a", ScalarType::UnsignedInt)?;
    let b = scalar(alloc, b"b", ScalarType::UnsignedInt)?;
    Ok(List::from_vec(vec![in alloc; a, b]?))
}

/// `a`, `b`, `r` and `s`.
fn variables(alloc: Global) -> Result<List<Variable>, NoMemory>
    ensures { IfOk result (λ list. list ≡ variables) }
{
    let a = scalar(alloc, b"a", ScalarType::UnsignedInt)?;
    let b = scalar(alloc, b"b", ScalarType::UnsignedInt)?;
    let r = scalar(alloc, b"r", ScalarType::UnsignedInt)?;
    let s = scalar(alloc, b"s", ScalarType::UnsignedInt)?;
    Ok(List::from_vec(vec![in alloc; a, b, r, s]?))
}

/// `t`, `u` and `c`.
fn main_variables(alloc: Global) -> Result<List<Variable>, NoMemory>
    ensures { IfOk result (λ list. list ≡ main_variables) }
{
    let t = scalar(alloc, b"t", ScalarType::UnsignedInt)?;
    let u = scalar(alloc, b"u", ScalarType::UnsignedInt)?;
    let c = scalar(alloc, b"c", ScalarType::Int)?;
    Ok(List::from_vec(vec![in alloc; t, u, c]?))
}

/// `to = f (first, second);`
pub fn call_to(
    alloc: Global,
    function: u32,
    to: u32,
    first: Operand,
    second: Operand,
) -> Result<Statement, NoMemory>
    ensures { IfOk result (λ statement. statement ≡ call_to function to first second) }
{
    let mut args = Args::new(alloc);
    args.push(Arg::One(first))?;
    args.push(Arg::One(second))?;
    Ok(Statement::Call {
        to: Some(to),
        function,
        args,
    })
}

/// `extern unsigned int fI (unsigned int a, unsigned int b);`
#[tactic(auto, unfolding(crate::specs::Functions::declaration))]
pub fn declaration(alloc: Global, number: u32) -> Result<Function, NoMemory>
    ensures { IfOk result (λ function. function ≡ declaration number) }
{
    Ok(Function {
        name: name_of(alloc, number)?,
        linkage: Linkage::Extern,
        result: ResultType::Scalar(ScalarType::UnsignedInt),
        parameters: 2,
        variables: parameters(alloc)?,
        labels: List::new(alloc),
        body: List::new(alloc),
    })
}

/// `to = left op right;`
fn binary(to: u32, op: BinaryOp, left: Operand, right: Operand) -> Statement
    ensures { result ≡ Binary to op left right }
{
    Statement::Binary {
        to,
        op,
        left,
        right,
    }
}

/// `r = a + 1u; s = b + r; s = fJ (r, b); r = r ^ s; return r;`, as it was drawn.
fn body_of(alloc: Global, places: &Places<'_>, choice: Choice) -> Result<List<Statement>, NoMemory>
    requires { IfSome choice.call (λ call. IsCalled places.now.choices.now places.now.module_number call.callee) }
    ensures { IfOk result (λ body. body ≡ body_of (place_in places.now.choices.now places.now.module_number) choice) }
{
    let mut body = Vec::with_capacity(alloc, 5)?;
    body.push(binary(2, choice.first, A, unsigned(choice.constant)))?;
    body.push(binary(3, choice.second, B, R))?;
    if let Some(call) = choice.call {
        let function = places.place(call.callee);
        body.push(call_to(alloc, function, 3, R, call.argument)?)?;
    }
    body.push(binary(2, BinaryOp::Xor, R, S))?;
    body.push(Statement::Return(R))?;
    Ok(List::from_vec(body))
}

/// A function that is defined.
#[tactic(auto, unfolding(crate::specs::Functions::definition))]
pub fn definition(
    alloc: Global,
    places: &Places<'_>,
    number: u32,
    choice: Choice,
) -> Result<Function, NoMemory>
    requires { IfSome choice.call (λ call. IsCalled places.now.choices.now places.now.module_number call.callee) }
    ensures { IfOk result (λ function. function ≡ definition (place_in places.now.choices.now places.now.module_number) number choice) }
{
    Ok(Function {
        name: name_of(alloc, number)?,
        linkage: Linkage::Strong,
        result: ResultType::Scalar(ScalarType::UnsignedInt),
        parameters: 2,
        variables: variables(alloc)?,
        labels: List::new(alloc),
        body: body_of(alloc, places, choice)?,
    })
}

/// `u = fI (Iu, 1u); t = t ^ u;`
fn push_round(
    alloc: Global,
    body: &mut Vec<Statement>,
    function: u32,
    number: u32,
    drawn: u32,
) -> Result<(), NoMemory>
    ensures { OnOk result (body.new.items ≡ body.old.items ++ call_to function 1 (unsigned number) (unsigned drawn) ∷ Binary 0 Xor (Component 0) (Component 1) ∷ []) }
{
    body.push(call_to(alloc, function, 1, unsigned(number), unsigned(drawn))?)?;
    body.push(binary(0, BinaryOp::Xor, A, B))?;
    Ok(())
}

/// The statements of `main`.
fn main_body(
    alloc: Global,
    places: &Places<'_>,
    draws: &mut Draws,
) -> Result<List<Statement>, NoMemory>
    requires numbered { length places.now.choices.now < 2 ^ 32 }
    requires first { places.now.module_number ≡ 0 }
    ensures { IfOk result (λ body. body ≡ main_body (place_in places.now.choices.now 0) (length places.now.choices.now) draws.old.state) }
{
    let many = (places.choices.len() as u32).div_ceil(10);
    let mut body = Vec::with_capacity(alloc, many as usize * 2 + 4)?;
    body.push(Statement::Copy {
        to: 0,
        from: unsigned(0),
    })?;
    for tenth in 0..many {
        let number = 10 * tenth;
        let drawn = draws.draw(3);
        push_round(alloc, &mut body, places.place(number), number, drawn)?;
    }
    push_end(&mut body)?;
    Ok(List::from_vec(body))
}

/// `c = (int) t; __builtin_putchar (c); return 0;`
fn push_end(body: &mut Vec<Statement>) -> Result<(), NoMemory>
    ensures { OnOk result (body.new.items ≡ body.old.items ++ main_end) }
{
    body.push(Statement::Convert { to: 2, from: A })?;
    body.push(Statement::Putchar(R))?;
    body.push(Statement::Return(Operand::Literal(Value {
        ty: ScalarType::Int,
        num: 0,
    })))?;
    Ok(())
}

/// `main`, whose numbers are the next draws.
#[tactic(auto, unfolding(crate::specs::Functions::main_of))]
pub fn main_function(
    alloc: Global,
    places: &Places<'_>,
    draws: &mut Draws,
) -> Result<Function, NoMemory>
    requires numbered { length places.now.choices.now < 2 ^ 32 }
    requires first { places.now.module_number ≡ 0 }
    ensures { IfOk result (λ function. function ≡ main_of (place_in places.now.choices.now 0) (length places.now.choices.now) draws.old.state) }
{
    Ok(Function {
        name: name(alloc, b"main")?,
        linkage: Linkage::Strong,
        result: ResultType::Scalar(ScalarType::Int),
        parameters: 0,
        variables: main_variables(alloc)?,
        labels: List::new(alloc),
        body: main_body(alloc, places, draws)?,
    })
}
