//! The checks of a whole module: structs, then arrays, then functions, one item after the other.
ghost use Rattle.std.specs.Prelude.{◌≡◌, ◌<◌, ◌+◌, ◌^◌, ℕ, List, IfOk, OnOk, IfErr, IfNone, length, map, None, false};
ghost use Rattle.gimple_ir.specs.Names.{is_among};
ghost use Rattle.gimple_ir.specs.Checks.{faults_from, struct_fault, array_fault, function_fault, fault_of, fault_in};
ghost use Rattle.gimple_checks.specs.Seen.{holds};
ghost use Rattle.gimple_checks.specs.ModuleErrors.{IsItsFault};

use crate::counts::is_extern;
use crate::items::{array_kind, bound_kind, fault_at, head_kind, statements_fault, struct_kind};
use crate::names::{Seen, add};
use crate::scope::Scope;
use gimple_ir::{Function, Module, NoMemory, TypeFault};
use std::alloc::Global;
use std::collections::BTreeMap;
use thiserror::Error;

/// Why a module is refused.
#[derive(Debug, Drop, Error)]
pub enum ModuleError {
    /// The module's first fault.
    #[error("{0:?}")]
    Fault(TypeFault),
    #[error("out of memory")]
    NoMemory,
}

fn structs_fault(alloc: Global, source: &Module) -> Result<Option<TypeFault>, NoMemory>
    requires { length source.now.structs < 2 ^ 32 }
    ensures { IfOk result (λ found. found ≡ faults_from (struct_fault source.now) 0 source.now.structs) }
{
    let mut seen = BTreeMap::new(alloc);
    for place in 0..source.structs.len() {
        let def = source.structs.get(place);
        let double = add(&mut seen, &def.name)?;
        if let Some(kind) = struct_kind(alloc, double, def)? {
            return Ok(Some(fault_at(place as u32, 0, kind)));
        }
    }
    Ok(None)
}

fn arrays_fault<'a>(source: &'a Module, seen: &mut Seen<'a>) -> Result<Option<TypeFault>, NoMemory>
    requires items { length source.now.structs + length source.now.arrays < 2 ^ 32 }
    requires empty { (q : List ℕ) → holds seen.old q ≡ false }
    ensures found { IfOk result (λ found. found ≡ faults_from (array_fault source.now) 0 source.now.arrays) }
    ensures seen { IfOk result (λ found. IfNone found ((q : List ℕ) → holds seen.new q ≡ is_among (map (λ a. a.name) source.now.arrays) q)) }
{
    let structs = source.structs.len();
    for place in 0..source.arrays.len() {
        let array = source.arrays.get(place);
        let double = add(seen, &array.name)?;
        if let Some(kind) = array_kind(double, array) {
            return Ok(Some(fault_at((structs + place) as u32, 0, kind)));
        }
    }
    Ok(None)
}

/// The fault of one function, whose name stands before where `double` is true.
fn function_fault(
    alloc: Global,
    source: &Module,
    double: bool,
    item: u32,
    function: &Function,
) -> Result<Option<TypeFault>, NoMemory>
    ensures { IfOk result (λ found. found ≡ fault_in source.now double item function.now) }
{
    if let Some(kind) = head_kind(alloc, double, source.structs.len(), function)? {
        return Ok(Some(fault_at(item, 0, kind)));
    }
    if !is_extern(function.linkage) {
        let scope = Scope::new(alloc, source, function)?;
        if let Some(fault) = statements_fault(&scope, item) {
            return Ok(Some(fault));
        }
    }
    Ok(bound_kind(function).map(|kind| fault_at(item, 0, kind)))
}

fn functions_fault<'a>(
    alloc: Global,
    source: &'a Module,
    seen: &mut Seen<'a>,
) -> Result<Option<TypeFault>, NoMemory>
    requires items { length source.now.structs + length source.now.arrays + length source.now.functions < 2 ^ 32 }
    requires arrays { (q : List ℕ) → holds seen.old q ≡ is_among (map (λ a. a.name) source.now.arrays) q }
    ensures { IfOk result (λ found. found ≡ faults_from (function_fault source.now) 0 source.now.functions) }
{
    let before = source.structs.len() + source.arrays.len();
    for place in 0..source.functions.len() {
        let function = source.functions.get(place);
        let double = add(seen, &function.name)?;
        let item = (before + place) as u32;
        if let Some(fault) = function_fault(alloc, source, double, item, function)? {
            return Ok(Some(fault));
        }
    }
    Ok(None)
}

fn first_fault(alloc: Global, source: &Module) -> Result<Option<TypeFault>, NoMemory>
    requires { length source.now.structs + length source.now.arrays + length source.now.functions < 2 ^ 32 }
    ensures { IfOk result (λ found. found ≡ fault_of source.now) }
{
    if let Some(fault) = structs_fault(alloc, source)? {
        return Ok(Some(fault));
    }
    let mut seen = BTreeMap::new(alloc);
    if let Some(fault) = arrays_fault(source, &mut seen)? {
        return Ok(Some(fault));
    }
    functions_fault(alloc, source, &mut seen)
}

/// Checks a module. Structs, arrays and functions are together fewer than 2^32.
pub fn check_module(alloc: Global, source: &Module) -> Result<(), ModuleError>
    requires { length source.now.structs + length source.now.arrays + length source.now.functions < 2 ^ 32 }
    ensures ok { OnOk result (fault_of source.now ≡ None) }
    ensures err { IfErr result (IsItsFault source.now) }
{
    match first_fault(alloc, source) {
        Ok(None) => Ok(()),
        Ok(Some(fault)) => Err(ModuleError::Fault(fault)),
        Err(_) => Err(ModuleError::NoMemory),
    }
}
