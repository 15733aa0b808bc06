//! The greatest solution of a system, by a worklist.
ghost use Rattle.std.specs.Prelude.{◌≡◌, ◌+◌, ◌≤◌, ◌<◌, IfOk, ℕ, length, Contains};
ghost use Rattle.equation_rounds.specs.Systems.{IsAssignment, IsBelowEquations, most_ticks};
ghost use Rattle.equation_rounds.specs.Rounds.{rounds_of, IsAboveAll};

use crate::worklist::Worklist;
use crate::{NoMemory, Steps, System};
use std::alloc::Global;
use std::sync::ledger::Ledger;

/// One value for each unknown: those that `unknowns * height + 1` whole rounds from top give.
///
/// They count, each is below what its equation gives of them, and they are the greatest such values. The bound on the
/// ticks holds where memory is wanting too.
pub fn solve<L: Ledger, S: System<L>>(
    alloc: Global,
    system: &S,
    steps: &mut Steps<L>,
) -> Result<Vec<S::Value>, NoMemory>
    ensures value { IfOk result (λ values. values.items ≡ rounds_of (S.equations system.now)) }
    ensures assignment { IfOk result (λ values. IsAssignment (S.equations system.now) values.items) }
    ensures solution { IfOk result (λ values. IsBelowEquations (S.equations system.now) values.items) }
    ensures greatest { IfOk result (λ values. IsAboveAll (S.equations system.now) values.items) }
    ensures ticks { steps.new ≤ steps.old + most_ticks (S.equations system.now) (S.readers_of system.now) }
{
    let count = system.unknowns();
    let mut values = Vec::new(alloc);
    values.resize(count as usize, system.top())?;
    let mut waiting = Worklist::full(alloc, count)?;
    while let Some(unknown) = waiting.pop() {
        let at = unknown as usize;
        let found = system.apply(unknown, values.as_slice(), steps);
        let old = values[at];
        let lower = system.meet(old, found);
        if lower != old {
            values[at] = lower;
            wake(system, unknown, &mut waiting);
        }
    }
    Ok(values)
}

/// Makes each reader of the unknown wait.
fn wake<L: Ledger, S: System<L>>(system: &S, unknown: u32, waiting: &mut Worklist)
    requires unknown { unknown < (S.equations system.now).unknowns }
    requires room { waiting.old.room ≡ (S.equations system.now).unknowns }
    ensures room { waiting.new.room ≡ waiting.old.room }
    ensures length { length waiting.new.items ≤ length waiting.old.items + length (S.readers_of system.now unknown) }
    ensures kept { (other : ℕ) → Contains waiting.old.items other → Contains waiting.new.items other }
    ensures readers { (reader : ℕ) → Contains (S.readers_of system.now unknown) reader → Contains waiting.new.items reader }
{
    for k in 0..system.readers(unknown) {
        waiting.add(system.reader(unknown, k));
    }
}
