//! The versions of a plan.
ghost use Rattle.std.specs.Prelude.{◌≡◌, ◌<◌, ◌^◌, length, map, All, IfOk};
ghost use Rattle.call_graph.specs.Live.{HasCallees};
ghost use Rattle.ipa_plan.specs.Plans.{all_of, bindings_of, call_plan, version_of, versions_by, IsPlannedFunction};
ghost use Rattle.ipa_plan.specs.Numbering.{IsNumbering};

use crate::numbering::Numbering;
use crate::symbols::version_symbol;
use gimple_ir::{
    Binding, CallPlan, Edge, Lattice, List, Merged, MergedFunction, NoMemory, Version,
};
use std::alloc::Global;

fn all_of(alloc: Global, count: u32) -> Result<List<u32>, NoMemory>
    ensures { IfOk result (λ numbers. numbers ≡ all_of count) }
{
    let mut numbers = Vec::new(alloc);
    for number in 0..count {
        numbers.push(number)?;
    }
    Ok(List::from_vec(numbers))
}

fn bindings(alloc: Global, components: u32) -> Result<List<Binding>, NoMemory>
    ensures { IfOk result (λ bindings. bindings ≡ bindings_of components) }
{
    let mut bindings = Vec::new(alloc);
    for number in 0..components {
        bindings.push(Binding::Arg(number))?;
    }
    Ok(List::from_vec(bindings))
}

// The calls of a version; each passes all that its callee takes.
fn calls(
    alloc: Global,
    merged: &Merged,
    numbering: &Numbering,
    edges: &[Edge],
) -> Result<List<CallPlan>, NoMemory>
    requires functions { All IsPlannedFunction merged.now.functions }
    requires live { length numbering.now.live ≡ length merged.now.functions }
    requires numbering { IsNumbering numbering.now }
    requires callees { All (λ e. e.callee < length merged.now.functions) edges.now }
    ensures { IfOk result (λ calls. calls ≡ map (call_plan merged.now numbering.now.live) edges.now) }
{
    let mut calls = Vec::new(alloc);
    for edge in edges {
        let callee = merged.functions.get(edge.callee as usize);
        calls.push(CallPlan {
            target: numbering.place(edge.callee),
            kept: all_of(alloc, callee.summary.params.len() as u32)?,
        })?;
    }
    Ok(List::from_vec(calls))
}

// The version of a live function, which has this number.
fn version(
    alloc: Global,
    merged: &Merged,
    numbering: &Numbering,
    number: u32,
    function: &MergedFunction,
) -> Result<Version, NoMemory>
    requires functions { All IsPlannedFunction merged.now.functions }
    requires live { length numbering.now.live ≡ length merged.now.functions }
    requires numbering { IsNumbering numbering.now }
    requires callees { All (λ e. e.callee < length merged.now.functions) function.now.summary.edges }
    requires function { IsPlannedFunction function.now }
    ensures { IfOk result (λ version. version ≡ version_of merged.now numbering.now.live number function.now) }
{
    let summary = &function.summary;
    let components = summary.params.len() as u32;
    let vector = vec![in alloc; Lattice::Bottom; components as usize]?;
    Ok(Version {
        function: number,
        number: 0,
        vector: List::from_vec(vector),
        bindings: bindings(alloc, components)?,
        result: true,
        symbol: version_symbol(alloc, &function.name, number)?,
        size: summary.code_bound,
        calls: calls(alloc, merged, numbering, summary.edges.as_slice())?,
    })
}

/// The versions of the live functions, in the order of the functions.
pub fn versions(
    alloc: Global,
    merged: &Merged,
    numbering: &Numbering,
) -> Result<List<Version>, NoMemory>
    requires few { length merged.now.functions < 2 ^ 32 }
    requires callees { HasCallees merged.now }
    requires functions { All IsPlannedFunction merged.now.functions }
    requires live { length numbering.now.live ≡ length merged.now.functions }
    requires numbering { IsNumbering numbering.now }
    ensures { IfOk result (λ versions. versions ≡ versions_by merged.now numbering.now.live) }
{
    let mut versions = Vec::new(alloc);
    for (number, function) in merged.functions.as_slice().iter().enumerate() {
        if numbering.is_live(number) {
            versions.push(version(alloc, merged, numbering, number as u32, function)?)?;
        }
    }
    Ok(List::from_vec(versions))
}
