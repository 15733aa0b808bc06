//! A system of equations over a lattice: what its author gives, and the laws that its author proves.
ghost use Rattle.std.specs.Prelude.{◌≡◌, ◌+◌, ◌<◌, length, slice_get, Some, ℕ, List};
ghost use Rattle.equation_rounds.specs.Systems.{Equations, IsSystem, AreReaders, IsAssignment, Counts};

use crate::Steps;
use std::sync::ledger::Ledger;

/// Unknowns with one equation each, whose values form a lattice of finite height.
///
/// `L` is the ledger on which `apply` counts, so that a solver cannot count it on another one.
pub trait System<L: Ledger> {
    type Value: Copy + Eq;

    /// The system as data: which values count, and what `unknowns`, `height`, `top`, `meet` and `apply` answer.
    ghost equations: { Self → Equations Self.Value };

    /// The list of an unknown's readers.
    ghost readers_of: { Self → ℕ → List ℕ };

    /// The number of unknowns, which are numbered from 0.
    fn unknowns(&self) -> u32
        ensures { result ≡ (equations self.now).unknowns };

    /// The largest number of steps of a strictly descending chain of values.
    fn height(&self) -> u32
        ensures { result ≡ (equations self.now).height };

    /// The greatest value, which says nothing yet.
    fn top(&self) -> Self::Value
        ensures { result ≡ (equations self.now).top };

    /// The greatest value that is below both.
    fn meet(&self, a: Self::Value, b: Self::Value) -> Self::Value
        requires a { Counts (equations self.now) a }
        requires b { Counts (equations self.now) b }
        ensures { result ≡ (equations self.now).meet a b };

    /// The number of entries in the list of the unknown's readers, the unknowns whose equations read it.
    fn readers(&self, unknown: u32) -> u32
        requires { unknown < (equations self.now).unknowns }
        ensures { result ≡ length (readers_of self.now unknown) };

    /// Entry `k` of that list. An unknown may be in it more than once.
    fn reader(&self, unknown: u32, k: u32) -> u32
        requires unknown { unknown < (equations self.now).unknowns }
        requires k { k < length (readers_of self.now unknown) }
        ensures { slice_get (readers_of self.now unknown) k ≡ Some result };

    /// What the equation of the unknown gives of `now`, the values of all unknowns. It takes exactly one tick.
    fn apply(&self, unknown: u32, now: &[Self::Value], steps: &mut Steps<L>) -> Self::Value
        requires unknown { unknown < (equations self.now).unknowns }
        requires now { IsAssignment (equations self.now) now.now }
        ensures value { result ≡ (equations self.now).apply unknown now.now }
        ensures tick { steps.new ≡ steps.old + 1 };

    /// The values that count form a lattice of finite height, and the equations are monotone.
    ghost laws: { (system : Self) → IsSystem (equations system) Self.Value.eq };

    /// An equation does not see a change of an unknown that it does not read.
    ghost reads: { (system : Self) → AreReaders (equations system) (readers_of system) };
}
