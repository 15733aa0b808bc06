//! The arrays that a link keeps.
ghost use Rattle.std.specs.Prelude.{◌≡◌, ◌<◌, ◌^◌, ◌||◌, ◌&&◌, ◌↔◌, ℕ, IfOk, length, map, nat_eq};
ghost use Rattle.std.specs.List.{All, Contains, list_any};
ghost use Rattle.call_graph.specs.Live.{marked, MarksLive};
ghost use Rattle.call_graph.specs.Keeping.{names, kept_of, IsKept, HasArrays};

use crate::marking::places;
use gimple_ir::{List, Merged, MergedArray, MergedFunction, NoMemory};
use std::alloc::Global;

fn exported_flags(alloc: Global, arrays: &[MergedArray]) -> Result<Vec<bool>, NoMemory>
    ensures { IfOk result (λ flags. flags.items ≡ map (λ a. a.exported) arrays.now) }
{
    let mut flags = Vec::new(alloc);
    for array in arrays {
        flags.push(array.exported)?;
    }
    Ok(flags)
}

fn keep_named(arrays: &[u32], kept: &mut Vec<bool>)
    requires { All (λ a. a < length kept.old.items) arrays.now }
    ensures len { length kept.new.items ≡ length kept.old.items }
    ensures kept { (a : ℕ) → marked kept.new.items a ≡ (marked kept.old.items a || list_any (λ b. nat_eq b a) arrays.now) }
{
    for array in arrays {
        kept[*array as usize] = true;
    }
}

fn keep_by(is_live: bool, function: &MergedFunction, kept: &mut Vec<bool>)
    requires { All (λ a. a < length kept.old.items) function.now.summary.arrays }
    ensures len { length kept.new.items ≡ length kept.old.items }
    ensures kept { (a : ℕ) → marked kept.new.items a ≡ (marked kept.old.items a || (is_live && names function.now a)) }
{
    if is_live {
        keep_named(function.summary.arrays.as_slice(), kept);
    }
}

fn kept_flags(alloc: Global, merged: &Merged, live: &[bool]) -> Result<Vec<bool>, NoMemory>
    requires live { length live.now ≡ length merged.now.functions }
    requires arrays { HasArrays merged.now }
    ensures len { IfOk result (λ kept. length kept.items ≡ length merged.now.arrays) }
    ensures kept { IfOk result (λ kept. (a : ℕ) → marked kept.items a ≡ Rattle.call_graph.specs.Keeping.is_kept merged.now live.now a) }
{
    let mut kept = exported_flags(alloc, merged.arrays.as_slice())?;
    for (place, function) in merged.functions.as_slice().iter().enumerate() {
        keep_by(live[place], function, &mut kept);
    }
    Ok(kept)
}

/// The numbers of the arrays that are exported or that a live function names, ascending. `live` is what `live` gives.
pub fn kept_arrays(alloc: Global, merged: &Merged, live: &List<bool>) -> Result<List<u32>, NoMemory>
    requires few { length merged.now.arrays < 2 ^ 32 }
    requires arrays { HasArrays merged.now }
    requires live { MarksLive merged.now live.now }
    ensures exact { IfOk result (λ kept. kept ≡ kept_of merged.now live.now) }
    ensures kept { IfOk result (λ kept. (a : ℕ) → Contains kept a ↔ IsKept merged.now a) }
{
    let kept = kept_flags(alloc, merged, live.as_slice())?;
    let numbers = places(alloc, &kept)?;
    Ok(List::from_vec(numbers))
}
