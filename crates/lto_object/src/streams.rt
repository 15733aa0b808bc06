//! The streams of an object, read in order.
ghost use Rattle.std.specs.Prelude.{◌≡◌, ◌≤◌, ◌<◌, ◌+◌, ◌^◌, ◌-◌, [], length, map, drop, reverse, slice_get, unwrap_or, IfOk, if◌then◌else◌};
ghost use Rattle.module_stream.specs.Bodies.{body_of};
ghost use Rattle.module_stream.specs.Declarations.{decls_of, AreDeclarations};
ghost use Rattle.module_stream.specs.DeclarationReading.{read_decls};
ghost use Rattle.elf_container.specs.Offsets.{size_of};
ghost use Rattle.elf_container.specs.ObjectReading.{part};
ghost use Rattle.lto_object.specs.Bounds.{HasBounds, is_defined};
ghost use Rattle.lto_object.specs.BodyStream.{bodies_bytes, FitBodies, read_bodies};
ghost use Rattle.lto_object.specs.SummaryStream.{summaries_bytes, FitSummaries, read_summaries};
ghost use Rattle.lto_object.specs.SymbolStream.{symbols_bytes, FitSymbols, read_symbols};
ghost use Rattle.lto_object.specs.Forms.{IsForm};
ghost use Rattle.lto_object.specs.ObjectReading.{with_body, filled, with_bodies, stream, read_streams, GivesSeen};
ghost use Rattle.lto_object.specs.Streamed.{stored, IsPlaced, placed_error, AreStreams};

use crate::bodies::{StoredBody, decode_bodies};
use crate::bounds::is_defined;
use crate::fault::{ObjectError, ObjectFault};
use crate::form::part;
use crate::summaries::decode_summaries;
use crate::symbols::{StoredSymbol, decode_symbols};
use elf_container::RelView;
use gimple_ir::{Function, List, Module, Name, NoMemory, Statement, Summary, Variable};
use module_stream::{StreamError, decode_decls};
use std::alloc::Global;

/// What the streams hold: the module, the bytes of its bodies, and the summaries and symbols that are stored.
#[derive(Drop)]
pub struct Streams<'a> {
    pub source: Module,
    pub bodies: Vec<&'a [u8]>,
    pub summaries: List<Summary>,
    pub symbols: List<StoredSymbol>,
}

// ---- functions with their bodies

fn names(alloc: Global, names: &[Name]) -> Result<List<Name>, NoMemory>
    ensures { IfOk result (λ copied. copied ≡ names.now) }
{
    let mut copied = List::new(alloc);
    for name in names {
        copied.push(name.copy()?)?;
    }
    Ok(copied)
}

fn variables(alloc: Global, variables: &[Variable]) -> Result<List<Variable>, NoMemory>
    ensures { IfOk result (λ copied. copied ≡ variables.now) }
{
    let mut copied = List::new(alloc);
    for variable in variables {
        copied.push(Variable {
            name: variable.name.copy()?,
            ty: variable.ty,
            types: variable.types.copy()?,
        })?;
    }
    Ok(copied)
}

fn with_body(
    alloc: Global,
    function: &Function,
    body: List<Statement>,
) -> Result<Function, NoMemory>
    ensures { IfOk result (λ f. f ≡ with_body function.now body) }
{
    Ok(Function {
        name: function.name.copy()?,
        linkage: function.linkage,
        result: function.result,
        parameters: function.parameters,
        variables: variables(alloc, function.variables.as_slice())?,
        labels: names(alloc, function.labels.as_slice())?,
        body,
    })
}

/// The next of the bodies, of which the first stands last.
fn next_body(alloc: Global, rest: &mut Vec<StoredBody>) -> List<Statement>
    ensures value { result ≡ unwrap_or (slice_get (reverse rest.old.items) 0) [] }
    ensures rest { reverse rest.new.items ≡ drop 1 (reverse rest.old.items) }
{
    match rest.pop() {
        None => List::new(alloc),
        Some(body) => body.into_parts().1,
    }
}

/// The body of a function: the next where it has one.
fn body_for(alloc: Global, function: &Function, rest: &mut Vec<StoredBody>) -> List<Statement>
    ensures value { result ≡ (if is_defined function.now then unwrap_or (slice_get (reverse rest.old.items) 0) [] else []) }
    ensures rest { reverse rest.new.items ≡ (if is_defined function.now then drop 1 (reverse rest.old.items) else reverse rest.old.items) }
{
    if is_defined(function) {
        next_body(alloc, rest)
    } else {
        List::new(alloc)
    }
}

/// The functions with the bodies, of which the first stands last.
fn filled(
    alloc: Global,
    functions: &[Function],
    mut rest: Vec<StoredBody>,
) -> Result<List<Function>, NoMemory>
    ensures { IfOk result (λ all. all ≡ filled functions.now (reverse rest.entry.items)) }
{
    let mut all = List::new(alloc);
    for function in functions {
        let body = body_for(alloc, function, &mut rest);
        all.push(with_body(alloc, function, body)?)?;
    }
    Ok(all)
}

/// The module with the bodies.
fn with_bodies(
    alloc: Global,
    declared: Module,
    mut bodies: Vec<StoredBody>,
) -> Result<Module, NoMemory>
    ensures { IfOk result (λ m. m ≡ with_bodies declared bodies.entry.items) }
{
    let Module {
        structs,
        arrays,
        functions,
    } = declared;
    bodies.reverse();
    Ok(Module {
        structs,
        arrays,
        functions: filled(alloc, functions.as_slice(), bodies)?,
    })
}

/// The bytes of the bodies.
fn slices<'a>(alloc: Global, bodies: &[StoredBody<'a>]) -> Result<Vec<&'a [u8]>, NoMemory>
    ensures { IfOk result (λ slices. map (λ b. b.now) slices.items ≡ map body_of bodies.now) }
{
    let mut slices = Vec::new(alloc);
    for body in bodies {
        slices.push(body.bytes())?;
    }
    Ok(slices)
}

/// The module with the bodies, and the bytes of these.
fn joined<'a>(
    alloc: Global,
    declared: Module,
    bodies: Vec<StoredBody<'a>>,
) -> Result<(Module, Vec<&'a [u8]>), NoMemory>
    ensures source { IfOk result (λ parts. parts.0 ≡ with_bodies declared bodies.entry.items) }
    ensures lent { IfOk result (λ parts. map (λ b. b.now) parts.1.items ≡ map body_of bodies.entry.items) }
{
    let slices = slices(alloc, bodies.as_slice())?;
    let source = with_bodies(alloc, declared, bodies)?;
    Ok((source, slices))
}

// ---- streams

/// The fault of a stream that begins at an offset of the file.
fn of_stream(start: u64, error: StreamError) -> ObjectError
    requires { IsPlaced start error }
    ensures { result ≡ placed_error start error }
{
    match error {
        StreamError::NoMemory => ObjectError::NoMemory,
        StreamError::BadStream { offset } => ObjectError::Fault(ObjectFault::BadStream {
            offset: start + offset,
        }),
    }
}

fn declarations(alloc: Global, view: &RelView) -> Result<Module, ObjectError>
    requires form { IsForm view.now }
    requires size { size_of view.now ≤ 2 ^ 32 - 2 }
    ensures exact { GivesSeen (λ m. m) result (stream read_decls 1 view.now) }
    ensures found { IfOk result (λ m. AreDeclarations m × (part 1 view.now ≡ decls_of m)) }
    ensures bounds { IfOk result HasBounds }
    ensures few { IfOk result (λ m. length m.structs + length m.arrays + length m.functions < 2 ^ 32) }
{
    match decode_decls(alloc, part(view, 1)) {
        Ok(declared) => Ok(declared),
        Err(error) => Err(of_stream(view.offset_of(1), error)),
    }
}

fn bodies<'a>(
    alloc: Global,
    view: &RelView<'a>,
    declared: &Module,
) -> Result<Vec<StoredBody<'a>>, ObjectError>
    requires form { IsForm view.now }
    requires size { size_of view.now ≤ 2 ^ 32 - 2 }
    requires bounds { HasBounds declared.now }
    ensures exact { GivesSeen (λ bodies. bodies.items) result (stream (read_bodies declared.now) 2 view.now) }
    ensures found { IfOk result (λ bodies. FitBodies declared.now bodies.items × (part 2 view.now ≡ bodies_bytes bodies.items)) }
{
    match decode_bodies(alloc, part(view, 2), declared) {
        Ok(bodies) => Ok(bodies),
        Err(error) => Err(of_stream(view.offset_of(2), error)),
    }
}

fn summaries(alloc: Global, view: &RelView, declared: &Module) -> Result<List<Summary>, ObjectError>
    requires form { IsForm view.now }
    requires size { size_of view.now ≤ 2 ^ 32 - 2 }
    requires bounds { HasBounds declared.now }
    ensures exact { GivesSeen (λ summaries. summaries) result (stream (read_summaries declared.now) 3 view.now) }
    ensures found { IfOk result (λ summaries. FitSummaries declared.now summaries × (part 3 view.now ≡ summaries_bytes summaries)) }
{
    match decode_summaries(alloc, part(view, 3), declared) {
        Ok(summaries) => Ok(summaries),
        Err(error) => Err(of_stream(view.offset_of(3), error)),
    }
}

fn symbols(alloc: Global, view: &RelView) -> Result<List<StoredSymbol>, ObjectError>
    requires form { IsForm view.now }
    requires size { size_of view.now ≤ 2 ^ 32 - 2 }
    ensures exact { GivesSeen (λ symbols. symbols) result (stream read_symbols 4 view.now) }
    ensures found { IfOk result (λ symbols. FitSymbols symbols × (part 4 view.now ≡ symbols_bytes symbols)) }
{
    match decode_symbols(alloc, part(view, 4)) {
        Ok(symbols) => Ok(symbols),
        Err(error) => Err(of_stream(view.offset_of(4), error)),
    }
}

/// What the streams hold, of sections that have the form.
#[tactic(auto, unfolding(crate::specs::ObjectReading::read_streams))]
pub fn read_streams<'a>(alloc: Global, view: &RelView<'a>) -> Result<Streams<'a>, ObjectError>
    requires form { IsForm view.now }
    requires size { size_of view.now ≤ 2 ^ 32 - 2 }
    ensures exact { GivesSeen stored result (read_streams view.now) }
    ensures found { IfOk result (AreStreams view.now) }
{
    let declared = declarations(alloc, view)?;
    let bodies = bodies(alloc, view, &declared)?;
    let summaries = summaries(alloc, view, &declared)?;
    let symbols = symbols(alloc, view)?;
    let (source, bodies) = joined(alloc, declared, bodies)?;
    Ok(Streams {
        source,
        bodies,
        summaries,
        symbols,
    })
}
