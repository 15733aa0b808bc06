//! The fields of a summary, written and read: jump functions, the uses of parameter components, and edges.
ghost use Rattle.std.specs.Prelude.{◌≡◌, ◌++◌, OnOk};
ghost use Rattle.cursors.specs.Leb128.{uleb_of};
ghost use Rattle.module_stream.specs.Readers.{Gives};
ghost use Rattle.module_stream.specs.Fields.{counted_of};
ghost use Rattle.lto_object.specs.declared.jump_codes.JumpKind.TheVariants as kind;
ghost use Rattle.lto_object.specs.SummaryStream.{jump_fields_of, jump_bytes, argument_bytes, edge_bytes, facts_bytes, summary_bytes, jump_fields_at, jump_at, source_number, source_at};

use crate::jump_codes::{JumpKind, kind_of};
use cursors::{ByteCursor, put_uleb};
use gimple_ir::{Edge, EdgeArg, JumpFunction, NoMemory, ParamFacts, Summary};
use module_stream::{
    BodyBounds, Coded, Decode, StreamError, coded, component, counted, number_below, place_below,
    put_typed_value, typed_value,
};
use std::alloc::Global;

// ---- writing

// What stands after the kind.
fn put_jump_fields(out: &mut Vec<u8>, jump: JumpFunction) -> Result<(), NoMemory>
    ensures { OnOk result (out.new.items ≡ out.old.items ++ jump_fields_of jump) }
{
    match jump {
        JumpFunction::Unknown => Ok(()),
        JumpFunction::Const(value) => put_typed_value(out, value),
        JumpFunction::Pass(component) => put_uleb(out, u64::from(component)),
        JumpFunction::Unary(op, component) => {
            out.push(op.code())?;
            put_uleb(out, u64::from(component))
        }
        JumpFunction::Convert(ty, component) => {
            out.push(ty.code())?;
            put_uleb(out, u64::from(component))
        }
        JumpFunction::Left(op, component, value) => {
            out.push(op.code())?;
            put_uleb(out, u64::from(component))?;
            put_typed_value(out, value)
        }
        JumpFunction::Right(op, value, component) => {
            out.push(op.code())?;
            put_typed_value(out, value)?;
            put_uleb(out, u64::from(component))
        }
    }
}

fn put_jump(out: &mut Vec<u8>, jump: JumpFunction) -> Result<(), NoMemory>
    ensures { OnOk result (out.new.items ≡ out.old.items ++ jump_bytes jump) }
{
    out.push(kind_of(jump).code())?;
    put_jump_fields(out, jump)
}

// 0 for none, else 1 plus the component.
fn source_number(source: Option<u32>) -> u64
    ensures { result ≡ source_number source }
{
    match source {
        None => 0,
        Some(component) => u64::from(component) + 1,
    }
}

fn put_argument(out: &mut Vec<u8>, argument: EdgeArg) -> Result<(), NoMemory>
    ensures { OnOk result (out.new.items ≡ out.old.items ++ argument_bytes argument) }
{
    put_jump(out, argument.jump)?;
    put_uleb(out, source_number(argument.source))
}

fn put_arguments(out: &mut Vec<u8>, arguments: &[EdgeArg]) -> Result<(), NoMemory>
    ensures { OnOk result (out.new.items ≡ out.old.items ++ counted_of argument_bytes arguments.now) }
{
    put_uleb(out, arguments.len() as u64)?;
    for argument in arguments {
        put_argument(out, *argument)?;
    }
    Ok(())
}

fn put_edge(out: &mut Vec<u8>, edge: &Edge) -> Result<(), NoMemory>
    ensures { OnOk result (out.new.items ≡ out.old.items ++ edge_bytes edge.now) }
{
    put_uleb(out, u64::from(edge.statement))?;
    put_uleb(out, u64::from(edge.callee))?;
    out.push(edge.assigns.code())?;
    put_arguments(out, edge.args.as_slice())
}

fn put_edges(out: &mut Vec<u8>, edges: &[Edge]) -> Result<(), NoMemory>
    ensures { OnOk result (out.new.items ≡ out.old.items ++ counted_of edge_bytes edges.now) }
{
    put_uleb(out, edges.len() as u64)?;
    for edge in edges {
        put_edge(out, edge)?;
    }
    Ok(())
}

fn put_facts(out: &mut Vec<u8>, facts: ParamFacts) -> Result<(), NoMemory>
    ensures { OnOk result (out.new.items ≡ out.old.items ++ facts_bytes facts) }
{
    put_uleb(out, u64::from(facts.weight))?;
    out.push(facts.used_here.code())?;
    Ok(())
}

fn put_params(out: &mut Vec<u8>, params: &[ParamFacts]) -> Result<(), NoMemory>
    ensures { OnOk result (out.new.items ≡ out.old.items ++ counted_of facts_bytes params.now) }
{
    put_uleb(out, params.len() as u64)?;
    for facts in params {
        put_facts(out, *facts)?;
    }
    Ok(())
}

fn put_arrays(out: &mut Vec<u8>, arrays: &[u32]) -> Result<(), NoMemory>
    ensures { OnOk result (out.new.items ≡ out.old.items ++ counted_of uleb_of arrays.now) }
{
    put_uleb(out, arrays.len() as u64)?;
    for array in arrays {
        put_uleb(out, u64::from(*array))?;
    }
    Ok(())
}

/// Writes a summary at the end.
pub fn put_summary(out: &mut Vec<u8>, summary: &Summary) -> Result<(), NoMemory>
    ensures { OnOk result (out.new.items ≡ out.old.items ++ summary_bytes summary.now) }
{
    put_uleb(out, summary.code_bound)?;
    put_params(out, summary.params.as_slice())?;
    put_arrays(out, summary.arrays.as_slice())?;
    put_edges(out, summary.edges.as_slice())
}

// ---- reading

#[tactic(auto, unfolding(crate::specs::SummaryStream::jump_fields_at))]
fn unary(cursor: &mut ByteCursor, bounds: &BodyBounds) -> Result<JumpFunction, StreamError>
    ensures { Gives result cursor.new (jump_fields_at bounds.now kind.Unary cursor.old) }
{
    let op = coded(cursor)?;
    let component = component(cursor, bounds)?;
    Ok(JumpFunction::Unary(op, component))
}

#[tactic(auto, unfolding(crate::specs::SummaryStream::jump_fields_at))]
fn convert(cursor: &mut ByteCursor, bounds: &BodyBounds) -> Result<JumpFunction, StreamError>
    ensures { Gives result cursor.new (jump_fields_at bounds.now kind.Convert cursor.old) }
{
    let ty = coded(cursor)?;
    let component = component(cursor, bounds)?;
    Ok(JumpFunction::Convert(ty, component))
}

#[tactic(auto, unfolding(crate::specs::SummaryStream::jump_fields_at))]
fn left(cursor: &mut ByteCursor, bounds: &BodyBounds) -> Result<JumpFunction, StreamError>
    ensures { Gives result cursor.new (jump_fields_at bounds.now kind.Left cursor.old) }
{
    let op = coded(cursor)?;
    let component = component(cursor, bounds)?;
    let value = typed_value(cursor)?;
    Ok(JumpFunction::Left(op, component, value))
}

#[tactic(auto, unfolding(crate::specs::SummaryStream::jump_fields_at))]
fn right(cursor: &mut ByteCursor, bounds: &BodyBounds) -> Result<JumpFunction, StreamError>
    ensures { Gives result cursor.new (jump_fields_at bounds.now kind.Right cursor.old) }
{
    let op = coded(cursor)?;
    let value = typed_value(cursor)?;
    let component = component(cursor, bounds)?;
    Ok(JumpFunction::Right(op, value, component))
}

// What stands after the kind.
#[tactic(auto, unfolding(crate::specs::SummaryStream::jump_fields_at))]
fn jump_fields(
    cursor: &mut ByteCursor,
    bounds: &BodyBounds,
    kind: JumpKind,
) -> Result<JumpFunction, StreamError>
    ensures { Gives result cursor.new (jump_fields_at bounds.now kind cursor.old) }
{
    match kind {
        JumpKind::Unknown => Ok(JumpFunction::Unknown),
        JumpKind::Const => {
            let value = typed_value(cursor)?;
            Ok(JumpFunction::Const(value))
        }
        JumpKind::Pass => {
            let component = component(cursor, bounds)?;
            Ok(JumpFunction::Pass(component))
        }
        JumpKind::Unary => unary(cursor, bounds),
        JumpKind::Convert => convert(cursor, bounds),
        JumpKind::Left => left(cursor, bounds),
        JumpKind::Right => right(cursor, bounds),
    }
}

#[tactic(auto, unfolding(crate::specs::SummaryStream::jump_at))]
fn jump(cursor: &mut ByteCursor, bounds: &BodyBounds) -> Result<JumpFunction, StreamError>
    ensures { Gives result cursor.new (jump_at bounds.now cursor.old) }
{
    let kind: JumpKind = coded(cursor)?;
    jump_fields(cursor, bounds, kind)
}

#[tactic(auto, unfolding(crate::specs::SummaryStream::source_at))]
fn source(cursor: &mut ByteCursor, bounds: &BodyBounds) -> Result<Option<u32>, StreamError>
    ensures { Gives result cursor.new (source_at bounds.now cursor.old) }
{
    let number = number_below(cursor, u128::from(bounds.component_count()) + 1)?;
    if number == 0 {
        return Ok(None);
    }
    Ok(Some((number - 1) as u32))
}

/// The argument components of the edges of a function.
#[derive(Drop)]
pub struct Arguments<'a> {
    pub bounds: &'a BodyBounds,
}

impl<'a> Decode for Arguments<'a> {
    ghost use Rattle.lto_object.specs.SummaryStream.{argument_at};

    type Value = EdgeArg;

    ghost reads = { λ arguments. argument_at arguments.bounds.now };

    #[tactic(auto, unfolding(crate::specs::SummaryStream::argument_at))]
    fn decode(&self, _alloc: Global, cursor: &mut ByteCursor) -> Result<EdgeArg, StreamError> {
        let jump = jump(cursor, self.bounds)?;
        let source = source(cursor, self.bounds)?;
        Ok(EdgeArg { jump, source })
    }
}

/// The edges of a function.
#[derive(Drop)]
pub struct Edges<'a> {
    pub bounds: &'a BodyBounds,
}

impl<'a> Decode for Edges<'a> {
    ghost use Rattle.lto_object.specs.SummaryStream.{edge_at};

    type Value = Edge;

    ghost reads = { λ edges. edge_at edges.bounds.now };

    #[tactic(auto, unfolding(crate::specs::SummaryStream::edge_at))]
    fn decode(&self, alloc: Global, cursor: &mut ByteCursor) -> Result<Edge, StreamError> {
        let statement = place_below(cursor, 1 << 32)?;
        let callee = place_below(cursor, u64::from(self.bounds.functions))?;
        let assigns = coded(cursor)?;
        let arguments = Arguments {
            bounds: self.bounds,
        };
        let args = counted(alloc, cursor, &arguments)?;
        Ok(Edge {
            statement,
            callee,
            assigns,
            args,
        })
    }
}

/// How a body uses its parameter components.
#[derive(Drop)]
pub struct Params;

impl Decode for Params {
    ghost use Rattle.lto_object.specs.SummaryStream.{facts_at};

    type Value = ParamFacts;

    ghost reads = { λ _. facts_at };

    #[tactic(auto, unfolding(crate::specs::SummaryStream::facts_at))]
    fn decode(&self, _alloc: Global, cursor: &mut ByteCursor) -> Result<ParamFacts, StreamError> {
        let weight = place_below(cursor, 1 << 32)?;
        let used_here = coded(cursor)?;
        Ok(ParamFacts { weight, used_here })
    }
}

/// The numbers of the arrays that a body names.
#[derive(Drop)]
pub struct ArrayNumbers<'a> {
    pub bounds: &'a BodyBounds,
}

impl<'a> Decode for ArrayNumbers<'a> {
    ghost use Rattle.module_stream.specs.Readers.{number_below};

    type Value = u32;

    ghost reads = { λ arrays. number_below arrays.bounds.now.arrays };

    fn decode(&self, _alloc: Global, cursor: &mut ByteCursor) -> Result<u32, StreamError> {
        place_below(cursor, u64::from(self.bounds.arrays))
    }
}
