//! The live functions, by a search from the exported ones.
ghost use Rattle.std.specs.Prelude.{◌≡◌, ◌<◌, ◌^◌, IfOk, OnOk, length, map};
ghost use Rattle.std.specs.List.{All};
ghost use Rattle.call_graph.specs.Live.{HasCallees, MarksLive};
ghost use Rattle.call_graph.specs.Marking.{mark_all, places_of};

use gimple_ir::{Edge, List, Merged, MergedFunction, NoMemory};
use std::alloc::Global;

fn exported_flags(alloc: Global, functions: &[MergedFunction]) -> Result<Vec<bool>, NoMemory>
    ensures { IfOk result (λ flags. flags.items ≡ map (λ f. f.exported) functions.now) }
{
    let mut flags = Vec::new(alloc);
    for function in functions {
        flags.push(function.exported)?;
    }
    Ok(flags)
}

/// The places of the flags that are set, ascending.
pub fn places(alloc: Global, flags: &[bool]) -> Result<Vec<u32>, NoMemory>
    requires { length flags.now < 2 ^ 32 }
    ensures { IfOk result (λ places. places.items ≡ places_of flags.now) }
{
    let mut places = Vec::new(alloc);
    for (place, is_set) in flags.iter().enumerate() {
        if *is_set {
            places.push(place as u32)?;
        }
    }
    Ok(places)
}

fn mark_callees(
    edges: &[Edge],
    live: &mut Vec<bool>,
    waiting: &mut Vec<u32>,
) -> Result<(), NoMemory>
    requires { All (λ e. e.callee < length live.old.items) edges.now }
    ensures live { OnOk result (live.new.items ≡ (mark_all edges.now (live.old.items, waiting.old.items)).0) }
    ensures waiting { OnOk result (waiting.new.items ≡ (mark_all edges.now (live.old.items, waiting.old.items)).1) }
{
    for edge in edges {
        let callee = edge.callee;
        if !live[callee as usize] {
            live[callee as usize] = true;
            waiting.push(callee)?;
        }
    }
    Ok(())
}

/// One flag a function, in their order: whether a path of calls leads to it from an exported function.
pub fn live(alloc: Global, merged: &Merged) -> Result<List<bool>, NoMemory>
    requires few { length merged.now.functions < 2 ^ 32 }
    requires callees { HasCallees merged.now }
    ensures { IfOk result (MarksLive merged.now) }
{
    let mut live = exported_flags(alloc, merged.functions.as_slice())?;
    let mut waiting = places(alloc, &live)?;
    while let Some(place) = waiting.pop() {
        let function = merged.functions.get(place as usize);
        mark_callees(function.summary.edges.as_slice(), &mut live, &mut waiting)?;
    }
    Ok(List::from_vec(live))
}
