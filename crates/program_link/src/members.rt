//! The member that a version becomes: its function's body, with the symbols of what it names.
ghost use Rattle.std.specs.Prelude.{◌≡◌, ◌<◌, length, map, All, IfOk};
ghost use Rattle.func_summary.specs.Summarised.{IsSummarised};
ghost use Rattle.ipa_transform.specs.Versioned.{versioned_of};
ghost use Rattle.ipa_transform.specs.Members.{IsMember};
ghost use Rattle.gimple_meaning.specs.Versioned.{IsVersioned};
ghost use Rattle.program_link.specs.Known.{array_symbols, IsSomeVersion};
ghost use Rattle.program_link.specs.Versions.{array_use, call_use, function_at, member_of};

use crate::copies;
use gimple_ir::{
    ArrayUse, CallPlan, CallUse, List, Member, Merged, Name, NoMemory, Plan, Program, ScalarType,
    Variable, Version,
};
use std::alloc::Global;

fn variables(alloc: Global, variables: &[Variable]) -> Result<List<List<ScalarType>>, NoMemory>
    ensures { IfOk result (λ types. types ≡ map (λ v. v.types) variables.now) }
{
    let mut types = Vec::new(alloc);
    for variable in variables {
        types.push(variable.types.copy()?)?;
    }
    Ok(List::from_vec(types))
}

fn arrays(
    alloc: Global,
    merged: &Merged,
    symbols: &List<Name>,
    named: &[u32],
) -> Result<List<ArrayUse>, NoMemory>
    requires symbols { symbols.now ≡ array_symbols merged.now }
    requires known { All (λ a. a < length merged.now.arrays) named.now }
    ensures { IfOk result (λ uses. uses ≡ map (array_use merged.now) named.now) }
{
    let mut uses = Vec::new(alloc);
    for array in named {
        let place = *array as usize;
        uses.push(ArrayUse {
            local: *array,
            symbol: symbols.get(place).copy()?,
            element: merged.arrays.get(place).item.element,
        })?;
    }
    Ok(List::from_vec(uses))
}

fn calls(alloc: Global, plan: &Plan, calls: &[CallPlan]) -> Result<List<CallUse>, NoMemory>
    requires { All (λ c. c.target < length plan.now.versions) calls.now }
    ensures { IfOk result (λ uses. uses ≡ map (call_use plan.now) calls.now) }
{
    let mut uses = Vec::new(alloc);
    for call in calls {
        uses.push(CallUse {
            symbol: plan.versions.get(call.target as usize).symbol.copy()?,
            kept: call.kept.copy()?,
        })?;
    }
    Ok(List::from_vec(uses))
}

/// The member that a version of the plan becomes.
pub fn member(
    alloc: Global,
    program: &Program,
    merged: &Merged,
    plan: &Plan,
    symbols: &List<Name>,
    version: &Version,
) -> Result<Member, NoMemory>
    requires summarised { IsSummarised program.now merged.now }
    requires version { IsSomeVersion merged.now plan.now version.now }
    requires symbols { symbols.now ≡ array_symbols merged.now }
    ensures value { IfOk result (λ member. member ≡ member_of program.now merged.now plan.now version.now (function_at program.now version.now.function)) }
    ensures member { IfOk result IsMember }
    ensures versioned { IfOk result (λ member. IsVersioned (versioned_of member)) }
{
    let function = program.functions.get(version.function as usize);
    let summary = &merged.functions.get(version.function as usize).summary;
    let labels = function.labels.len() as u32;
    Ok(Member {
        symbol: version.symbol.copy()?,
        parameters: function.parameters,
        variables: variables(alloc, function.variables.as_slice())?,
        bindings: version.bindings.copy()?,
        result: version.result,
        labels,
        arrays: arrays(alloc, merged, symbols, summary.arrays.as_slice())?,
        calls: calls(alloc, plan, version.calls.as_slice())?,
        body: copies::body(alloc, function.body.as_slice())?,
    })
}
