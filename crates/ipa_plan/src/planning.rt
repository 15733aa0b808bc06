//! The plan of a merged program.
ghost use Rattle.std.specs.Prelude.{IfOk};
ghost use Rattle.ipa_plan.specs.Plans.{IsPlanOf, CanBePlanned};
ghost use Rattle.ipa_plan.specs.Rules.{IsPlanned};

use crate::numbering::Numbering;
use crate::versions::versions;
use call_graph::{kept_arrays, live};
use gimple_ir::{Merged, NoMemory, Plan};
use std::alloc::Global;

/// The plan of a merged program. It takes time and memory linear in the summaries and the arrays, where calls have
/// as many arguments as their callees have parameter components.
pub fn plan(alloc: Global, merged: &Merged) -> Result<Plan, NoMemory>
    requires { CanBePlanned merged.now }
    ensures plan { IfOk result (IsPlanOf merged.now) }
    ensures planned { IfOk result (IsPlanned merged.now) }
{
    let live = live(alloc, merged)?;
    let arrays = kept_arrays(alloc, merged, &live)?;
    let numbering = Numbering::new(alloc, live)?;
    Ok(Plan {
        versions: versions(alloc, merged, &numbering)?,
        arrays,
        code: 1,
    })
}
