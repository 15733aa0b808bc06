//! `meaning STEPS EMPTY` interprets a program for so many steps: first so many empty statements, and then a loop without an end
//! of eight statements, of which one loads, one stores, one multiplies and one branches. It says how the run stands and how much
//! it wrote, which is nothing.
ghost use Rattle.std.specs.Prelude.{All, IfOk, OnOk};
ghost use Rattle.gimple_ir.specs.Programs.{HasValues, IsOperand};
ghost use Rattle.gimple_meaning.specs.Held.{HasInitial, HasLiterals};

use crate::words::Words;
use anyhow::{Result, bail};
use gimple_ir::{
    Array, BinaryOp, ElementType, Function, Linkage, List, Name, Operand, Program, ResultType,
    ScalarType, Statement, Value, VarType, Variable,
};
use gimple_meaning::{Interp, Outcome};
use std::alloc::Global;

const INDEX: u32 = 0;

const TOTAL: u32 = 1;

const PRODUCT: u32 = 2;

pub fn measure(rt: &HostRuntime, words: &mut Words) -> Result<()> {
    let steps = words.number()?;
    let program = program(rt.alloc(), words.number()?)?;
    let mut interp = Interp::start(rt.alloc(), &program, Vec::new(rt.alloc()))?;
    interp.run(steps)?;
    let state = match interp.outcome() {
        Outcome::Running => "running",
        Outcome::Ended(_) => "ended",
        Outcome::Undefined { .. } => "undefined",
    };
    println!(rt;
        "{state} after {steps} steps, {} bytes written",
        interp.output().len()
    )?;
    Ok(())
}

fn literal(num: u8) -> Operand
    ensures { IsOperand result }
{
    Operand::Literal(Value {
        ty: ScalarType::LongUnsignedInt,
        num: i128::from(num),
    })
}

fn binary(to: u32, op: BinaryOp, left: u32, right: Operand) -> Statement
    requires { IsOperand right }
    ensures { HasValues result }
{
    Statement::Binary {
        to,
        op,
        left: Operand::Component(left),
        right,
    }
}

/// `i = 0;`
fn first() -> Statement
    ensures { HasValues result }
{
    Statement::Copy {
        to: INDEX,
        from: literal(0),
    }
}

/// `t = a[0];`
fn load() -> Statement
    ensures { HasValues result }
{
    Statement::Load {
        to: TOTAL,
        array: 0,
        index: literal(0),
    }
}

/// `a[0] = t;`
fn store() -> Statement
    ensures { HasValues result }
{
    Statement::Store {
        array: 0,
        index: literal(0),
        from: Operand::Component(TOTAL),
    }
}

/// `if (i != 0) goto L; else goto L;`
fn again() -> Statement
    ensures { HasValues result }
{
    Statement::Cond {
        op: BinaryOp::Ne,
        left: Operand::Component(INDEX),
        right: literal(0),
        yes: 0,
        no: 0,
    }
}

/// `L: t = a[0]; t = t + i; a[0] = t; i = i + 1; p = i * t; p = p >> 3;` and back to `L`.
fn round(alloc: Global) -> Result<Vec<Statement>>
    ensures { IfOk result (λ body. All HasValues body.items) }
{
    let index = Operand::Component(INDEX);
    Ok(vec![in alloc;
        Statement::Label(0),
        load(),
        binary(TOTAL, BinaryOp::Add, TOTAL, index),
        store(),
        binary(INDEX, BinaryOp::Add, INDEX, literal(1)),
        binary(PRODUCT, BinaryOp::Mul, TOTAL, index),
        binary(PRODUCT, BinaryOp::Shr, PRODUCT, literal(3)),
        again(),
    ]?)
}

fn body(alloc: Global, empty: u64) -> Result<Vec<Statement>>
    ensures { IfOk result (λ body. All HasValues body.items) }
{
    let mut body = Vec::new(alloc);
    body.push(first())?;
    for _made in 0..empty {
        body.push(Statement::Nop)?;
    }
    body.append(&mut round(alloc)?)?;
    Ok(body)
}

fn name(alloc: Global, text: &[u8]) -> Result<Name> {
    match Name::read(alloc, text)? {
        Some(name) => Ok(name),
        None => bail!("no name"),
    }
}

fn variable(alloc: Global, text: &[u8]) -> Result<Variable> {
    Ok(Variable {
        name: name(alloc, text)?,
        ty: VarType::Scalar(ScalarType::LongUnsignedInt),
        types: List::from_vec(vec![in alloc; ScalarType::LongUnsignedInt]?),
    })
}

fn variables(alloc: Global) -> Result<Vec<Variable>> {
    let mut variables = Vec::new(alloc);
    for text in [b"i", b"t", b"p"] {
        variables.push(variable(alloc, text)?)?;
    }
    Ok(variables)
}

fn array(alloc: Global) -> Result<Array>
    ensures { IfOk result HasInitial }
{
    Ok(Array {
        name: name(alloc, b"a")?,
        linkage: Linkage::Strong,
        element: ElementType::Scalar(ScalarType::LongUnsignedInt),
        length: 1,
        initial: List::new(alloc),
    })
}

fn main_function(alloc: Global, empty: u64) -> Result<Function>
    ensures { IfOk result HasLiterals }
{
    let labels = vec![in alloc; name(alloc, b"L")?]?;
    let variables = variables(alloc)?;
    Ok(Function {
        name: name(alloc, b"main")?,
        linkage: Linkage::Strong,
        result: ResultType::Scalar(ScalarType::Int),
        parameters: 0,
        variables: List::from_vec(variables),
        labels: List::from_vec(labels),
        body: List::from_vec(body(alloc, empty)?),
    })
}

fn program(alloc: Global, empty: u64) -> Result<Program>
    ensures arrays { IfOk result (λ program. All HasInitial program.arrays) }
    ensures functions { IfOk result (λ program. All HasLiterals program.functions) }
{
    let array = array(alloc)?;
    let function = main_function(alloc, empty)?;
    Ok(Program {
        arrays: List::from_vec(vec![in alloc; array]?),
        functions: List::from_vec(vec![in alloc; function]?),
        main: 0,
    })
}
