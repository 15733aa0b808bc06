//! The checks of what the streams of an object hold: of the module, of its summaries and of its symbols.
ghost use Rattle.std.specs.Prelude.{◌≡◌, ◌≤◌, ◌<◌, ◌^◌, length, map, slice_get, [], ◌∷◌, None, IfOk, IfSome};
ghost use Rattle.gimple_ir.specs.Programs.{IsStated, IsChecked};
ghost use Rattle.gimple_ir.specs.Checks.{fault_of};
ghost use Rattle.module_stream.specs.Bodies.{body_of};
ghost use Rattle.lto_object.specs.Bounds.{defined_of};
ghost use Rattle.lto_object.specs.BodyStream.{bodies_of};
ghost use Rattle.lto_object.specs.SymbolStream.{stored_of};
ghost use Rattle.lto_object.specs.SummaryStream.{FitSummaries};
ghost use Rattle.lto_object.specs.Objects.{ranks_of, symbols_of, IsObject};
ghost use Rattle.lto_object.specs.ObjectReading.{same_summary, summary_fault, summaries_fault, same_symbol, differs_from, symbols_fault, type_fault, unless, checked, GivesSeen};
ghost use Rattle.lto_object.specs.Streamed.{stored};

use crate::bounds::is_defined;
use crate::fault::{ObjectError, ObjectFault};
use crate::listing::symbols;
use crate::object::Object;
use crate::streams::Streams;
use crate::summary_fields::put_summary;
use crate::symbol::Symbol;
use crate::symbols::StoredSymbol;
use func_summary::summarise;
use gimple_checks::{ModuleError, check_module};
use gimple_ir::{Edge, Function, List, Module, NoMemory, Summary};
use module_stream::Coded;
use std::alloc::Global;

// ---- types

/// The module's fault by its checks.
fn type_fault(alloc: Global, source: &Module) -> Result<(), ObjectError>
    requires { IsStated source.now }
    ensures exact { GivesSeen (λ unit. unit) result (unless (type_fault source.now) (Ok tt)) }
    ensures none { IfOk result (λ _. IsChecked source.now) }
{
    match check_module(alloc, source) {
        Ok(()) => Ok(()),
        Err(ModuleError::NoMemory) => Err(ObjectError::NoMemory),
        Err(ModuleError::Fault(fault)) => Err(ObjectError::Fault(ObjectFault::TypeFault(fault))),
    }
}

// ---- summaries

/// Whether the two are spelled alike.
fn same_summary(alloc: Global, left: &Summary, right: &Summary) -> Result<bool, NoMemory>
    ensures { IfOk result (λ same. same ≡ same_summary left.now right.now) }
{
    let mut one = Vec::new(alloc);
    put_summary(&mut one, left)?;
    let mut other = Vec::new(alloc);
    put_summary(&mut other, right)?;
    Ok(one.as_slice() == other.as_slice())
}

fn copy_edges(alloc: Global, edges: &[Edge]) -> Result<List<Edge>, NoMemory>
    ensures { IfOk result (λ copied. copied ≡ edges.now) }
{
    let mut copied = List::new(alloc);
    for edge in edges {
        copied.push(Edge {
            statement: edge.statement,
            callee: edge.callee,
            assigns: edge.assigns,
            args: edge.args.copy()?,
        })?;
    }
    Ok(copied)
}

fn copy_summary(alloc: Global, summary: &Summary) -> Result<Summary, NoMemory>
    ensures { IfOk result (λ copied. copied ≡ summary.now) }
{
    Ok(Summary {
        code_bound: summary.code_bound,
        params: summary.params.copy()?,
        arrays: summary.arrays.copy()?,
        edges: copy_edges(alloc, summary.edges.as_slice())?,
    })
}

/// The fault of the summary that is stored for the function of this number.
fn summary_fault(
    alloc: Global,
    source: &Module,
    place: u32,
    stored: &Summary,
) -> Result<Option<ObjectFault>, NoMemory>
    requires checked { IsChecked source.now }
    requires function { place < length source.now.functions }
    ensures { IfOk result (λ fault. IfSome (slice_get source.now.functions place) (λ f. fault ≡ summary_fault source.now place f stored.now)) }
{
    let found = summarise(alloc, source, place)?;
    if same_summary(alloc, stored, &found)? {
        return Ok(None);
    }
    Ok(Some(ObjectFault::SummaryDiffers {
        function: place,
        stored: copy_summary(alloc, stored)?,
        found,
    }))
}

/// The first fault of the stored summaries, of which each function with a body has the next.
fn summaries_fault(
    alloc: Global,
    source: &Module,
    stored: &[Summary],
) -> Result<Option<ObjectFault>, NoMemory>
    requires { IsChecked source.now }
    ensures { IfOk result (λ fault. fault ≡ summaries_fault source.now stored.now) }
{
    let mut next = 0usize;
    for place in 0..source.functions.len() {
        if next >= stored.len() {
            return Ok(None);
        }
        let function = source.functions.get(place);
        if !is_defined(function) {
            continue;
        }
        match summary_fault(alloc, source, place as u32, &stored[next])? {
            None => next += 1,
            Some(fault) => return Ok(Some(fault)),
        }
    }
    Ok(None)
}

/// Checks that the stored summaries are the true ones.
fn check_summaries(alloc: Global, source: &Module, stored: &[Summary]) -> Result<(), ObjectError>
    requires { IsChecked source.now }
    ensures exact { GivesSeen (λ unit. unit) result (unless (summaries_fault source.now stored.now) (Ok tt)) }
    ensures none { IfOk result (λ _. summaries_fault source.now stored.now ≡ None) }
{
    match summaries_fault(alloc, source, stored)? {
        None => Ok(()),
        Some(fault) => Err(ObjectError::Fault(fault)),
    }
}

// ---- symbols

fn same_symbol(stored: &StoredSymbol, symbol: &Symbol) -> bool
    ensures { result ≡ same_symbol stored.now (stored_of symbol.now) }
{
    let kind = stored.function.code() == symbol.function.code();
    let linkage = stored.linkage.code() == symbol.linkage.code();
    let name = stored.name.as_slice() == symbol.name.as_slice();
    kind && linkage && name
}

/// The first place where the stored symbols are not the symbols.
fn differs(stored: &[StoredSymbol], symbols: &[Symbol]) -> Option<usize>
    ensures value { result ≡ differs_from 0 stored.now symbols.now }
    ensures within { IfSome result (λ place. place ≤ length symbols.now) }
{
    for place in 0..symbols.len() {
        if place >= stored.len() {
            return Some(place);
        }
        if !same_symbol(&stored[place], &symbols[place]) {
            return Some(place);
        }
    }
    if symbols.len() < stored.len() {
        Some(symbols.len())
    } else {
        None
    }
}

/// The symbols of the module, where the stored ones are these.
fn checked_symbols(
    alloc: Global,
    source: &Module,
    stored: &[StoredSymbol],
) -> Result<List<Symbol>, ObjectError>
    requires { IsChecked source.now }
    ensures exact { GivesSeen (λ _. tt {0}) result (unless (symbols_fault source.now stored.now) (Ok (tt {0}))) }
    ensures none { IfOk result (λ _. symbols_fault source.now stored.now ≡ None) }
    ensures theirs { IfOk result (λ symbols. symbols ≡ symbols_of source.now) }
    ensures same { IfOk result (λ symbols. stored.now ≡ map stored_of symbols) }
{
    let symbols = symbols(alloc, source)?;
    match differs(stored, symbols.as_slice()) {
        None => Ok(symbols),
        Some(place) => Err(ObjectError::Fault(ObjectFault::SymbolsDiffer {
            place: place as u32,
        })),
    }
}

// ---- the whole

/// How many bodies the function has.
fn bodies_in(function: &Function) -> u32
    ensures { result ≡ length (defined_of (function.now ∷ [])) }
{
    if is_defined(function) { 1 } else { 0 }
}

/// For each function how many functions with a body stand before it.
fn ranks(alloc: Global, functions: &[Function]) -> Result<Vec<u32>, NoMemory>
    requires { length functions.now < 2 ^ 32 }
    ensures { IfOk result (λ ranks. ranks.items ≡ ranks_of functions.now) }
{
    let mut ranks = Vec::new(alloc);
    let mut count = 0u32;
    for function in functions {
        ranks.push(count)?;
        count += bodies_in(function);
    }
    Ok(ranks)
}

/// The object of these streams, where nothing is wrong with the module, its summaries and its symbols.
#[tactic(auto, unfolding(crate::specs::ObjectReading::checked))]
pub fn checked<'a>(alloc: Global, streams: Streams<'a>) -> Result<Object<'a>, ObjectError>
    requires stated { IsStated streams.source }
    requires bodies { map (λ b. b.now) streams.bodies.items ≡ map body_of (bodies_of streams.source.functions) }
    requires summaries { FitSummaries streams.source streams.summaries }
    ensures exact { GivesSeen (λ o. o.source) result (checked (stored streams.entry)) }
    ensures object { IfOk result IsObject }
    ensures source { IfOk result (λ o. o.source ≡ streams.entry.source) }
    ensures same { IfOk result (λ o. (streams.entry.summaries ≡ o.summaries) × (streams.entry.symbols ≡ map stored_of o.symbols)) }
{
    let Streams {
        source,
        bodies,
        summaries,
        symbols: stored,
    } = streams;
    type_fault(alloc, &source)?;
    check_summaries(alloc, &source, summaries.as_slice())?;
    let symbols = checked_symbols(alloc, &source, stored.as_slice())?;
    let ranks = ranks(alloc, source.functions.as_slice())?;
    Ok(Object::new(source, summaries, symbols, bodies, ranks))
}
