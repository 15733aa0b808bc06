//! From a program to its image.
ghost use Rattle.std.specs.Prelude.{◌≡◌, map, All, IfOk, None};
ghost use Rattle.func_summary.specs.Summarised.{IsSummarised};
ghost use Rattle.ipa_plan.specs.Rules.{IsPlanned};
ghost use Rattle.program_link.specs.Known.{IsPart};
ghost use Rattle.program_link.specs.Versions.{functions_of};
ghost use Rattle.program_link.specs.Objects.{object_of};
ghost use Rattle.program_link.specs.Linking.{limits_of, first_passed, IsImageOf, Links};

use crate::fault::LinkError;
use crate::limits::first_passed;
use crate::members::member;
use crate::objects::compile;
use crate::symbols::array_symbols;
use elf_container::RelocObject;
use final_link::place;
use follow_laws::patched_is_direct;
use gimple_ir::{Merged, NoMemory, Plan, Program};
use ipa_plan::{plan, planned};
use std::alloc::Global;

// The objects of the plan's versions, in their order.
fn compile_all(
    alloc: Global,
    program: &Program,
    merged: &Merged,
    plan: &Plan,
) -> Result<Vec<RelocObject>, NoMemory>
    requires summarised { IsSummarised program.now merged.now }
    requires planned { IsPlanned merged.now plan.now }
    ensures objects { IfOk result (λ parts. parts.items ≡ map object_of (functions_of program.now merged.now plan.now)) }
    ensures parts { IfOk result (λ parts. All IsPart parts.items) }
{
    let symbols = array_symbols(alloc, merged)?;
    let mut parts = Vec::new(alloc);
    for version in plan.versions.as_slice() {
        let member = member(alloc, program, merged, plan, &symbols, version)?;
        parts.push(compile(alloc, &member)?)?;
    }
    Ok(parts)
}

// The image of a program that passes no limit.
fn image_of(alloc: Global, program: &Program, merged: &Merged) -> Result<Vec<u8>, NoMemory>
    requires summarised { IsSummarised program.now merged.now }
    requires within { first_passed (limits_of merged.now) ≡ None }
    ensures { IfOk result (λ image. IsImageOf program.now merged.now image.items) }
{
    planned();
    let plan = plan(alloc, merged)?;
    let parts = compile_all(alloc, program, merged, &plan)?;
    patched_is_direct();
    place(alloc, &plan, merged, parts.as_slice())
}

/// The image of a whole program whose summaries stand in `merged`: the functions that it needs, from the exported ones on, and the
/// arrays that these name. It takes time and memory linear in the program and the image, but for maps of names.
///
/// | Fault | Comes |
/// |---|---|
/// | `Limit` | the program has too many functions, too much code or too large arrays; all count, and these are looked for in this order |
pub fn link_program(alloc: Global, program: &Program, merged: &Merged) -> Result<Vec<u8>, LinkError>
    requires { IsSummarised program.now merged.now }
    ensures { Links program.now merged.now result }
{
    if let Some(passed) = first_passed(merged) {
        return Err(LinkError::Limit(passed));
    }
    Ok(image_of(alloc, program, merged)?)
}
