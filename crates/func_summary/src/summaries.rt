//! The summary of one function of a module.
ghost use Rattle.std.specs.Prelude.{◌≡◌, ◌<◌, length, slice_get, IfOk, IfSome};
ghost use Rattle.gimple_ir.specs.Programs.{IsChecked};
ghost use Rattle.func_summary.specs.Summaries.{summary_of};
ghost use Rattle.func_summary.specs.Ready.{IsReady};

use crate::arrays::arrays;
use crate::edges::edges;
use crate::jumps::Jumps;
use crate::layout::Layout;
use crate::places::params;
use gimple_checks::code_bound;
use gimple_ir::{Function, List, Module, NoMemory, Summary};
use std::alloc::Global;

fn summary(alloc: Global, source: &Module, function: &Function) -> Result<Summary, NoMemory>
    requires { IsReady source.now function.now }
    ensures { IfOk result (λ summary. summary ≡ summary_of source.now function.now) }
{
    let layout = Layout::new(alloc, function)?;
    let jumps = Jumps::new(alloc, &layout)?;
    let params = params(alloc, &layout)?;
    Ok(Summary {
        code_bound: code_bound(function),
        params: List::from_vec(params),
        arrays: arrays(alloc, source, function)?,
        edges: edges(alloc, &jumps)?,
    })
}

/// The summary of a function of a checked module, by the function's number. Its numbers are those of the module, and its
/// code bound is in bytes. It takes time linear in the function's size, but for a sort of the named arrays.
pub fn summarise(alloc: Global, source: &Module, function: u32) -> Result<Summary, NoMemory>
    requires checked { IsChecked source.now }
    requires function { function < length source.now.functions }
    ensures summary { IfOk result (λ summary. IfSome (slice_get source.now.functions function) (λ f. summary ≡ summary_of source.now f)) }
{
    summary(alloc, source, source.functions.get(function as usize))
}
