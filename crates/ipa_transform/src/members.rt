//! The version that a member describes.
ghost use Rattle.std.specs.Prelude.{◌≡◌, map, IfOk};
ghost use Rattle.std.specs.List.{flat_map};
ghost use Rattle.ipa_transform.specs.Versioned.{versioned_of};
ghost use Rattle.ipa_transform.specs.Members.{IsMember};

use crate::layout::Layout;
use crate::steps::steps;
use gimple_ir::{ArrayUse, CallUse, List, Member, Name, NoMemory, ScalarType, VersionedFunction};
use std::alloc::Global;

fn types_of(alloc: Global, variables: &[List<ScalarType>]) -> Result<List<ScalarType>, NoMemory>
    ensures { IfOk result (λ types. types ≡ flat_map (λ each. each) variables.now) }
{
    let mut types = Vec::new(alloc);
    for each in variables {
        types.extend_from_slice(each.as_slice())?;
    }
    Ok(List::from_vec(types))
}

fn array_use(named: &ArrayUse) -> Result<ArrayUse, NoMemory>
    ensures { IfOk result (λ copy. copy ≡ named.now) }
{
    Ok(ArrayUse {
        local: named.local,
        symbol: named.symbol.copy()?,
        element: named.element,
    })
}

fn arrays_of(alloc: Global, uses: &[ArrayUse]) -> Result<List<ArrayUse>, NoMemory>
    ensures { IfOk result (λ copies. copies ≡ uses.now) }
{
    let mut copies = Vec::new(alloc);
    for named in uses {
        copies.push(array_use(named)?)?;
    }
    Ok(List::from_vec(copies))
}

fn targets_of(alloc: Global, calls: &[CallUse]) -> Result<List<Name>, NoMemory>
    ensures { IfOk result (λ symbols. symbols ≡ map (λ call. call.symbol) calls.now) }
{
    let mut symbols = Vec::new(alloc);
    for call in calls {
        symbols.push(call.symbol.copy()?)?;
    }
    Ok(List::from_vec(symbols))
}

/// The version that a member describes: its body as steps, with the numbers of its own lists of arrays and calls.
pub fn version_body(alloc: Global, member: &Member) -> Result<VersionedFunction, NoMemory>
    requires { IsMember member.now }
    ensures { IfOk result (λ version. version ≡ versioned_of member.now) }
{
    let layout = Layout::new(alloc, member)?;
    let body = steps(alloc, &layout)?;
    Ok(VersionedFunction {
        symbol: member.symbol.copy()?,
        types: types_of(alloc, member.variables.as_slice())?,
        bindings: member.bindings.copy()?,
        labels: member.labels,
        arrays: arrays_of(alloc, member.arrays.as_slice())?,
        calls: targets_of(alloc, member.calls.as_slice())?,
        body,
    })
}
