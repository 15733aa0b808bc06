//! Systems of Booleans in three shapes, which count at run time how often an equation is applied.
ghost use Rattle.std.specs.Prelude.{◌≡◌, ◌+◌, ◌<◌, ◌≤◌, ◌^◌, length};
ghost use Rattle.std.specs.List.{list_all};
ghost use Rattle.bench.specs.Booleans.{read_of, first_of, width_of, count_of};

use equation_rounds::{Steps, System};
use std::cell::Cell;
use std::sync::ledger::Ledger;

/// Which unknowns each one reads, unknown 0 aside, which is false: the one before it, its parent in a binary tree, or
/// all of them.
#[derive(Clone, Copy, Debug, PartialEq, Eq)]
pub enum Shape {
    Chain,
    Tree,
    Dense,
}

/// Booleans with true as top and "and" as meet, each the "and" of those that it reads.
#[derive(Drop)]
pub struct Booleans<'a> {
    pub shape: Shape,
    pub unknowns: u32,
    pub applied: &'a Cell<u64>,
    ghost bounded: { unknowns < 2 ^ 30 },
}

impl<'a, L: Ledger> System<L> for Booleans<'a> {
    type Value = bool;

    ghost use Rattle.bench.specs.Booleans.{boolean_equations, boolean_readers};
    ghost use Rattle.bench.specs.BooleanLaws.{boolean_laws, boolean_reads};

    ghost equations = { λ system. boolean_equations system.shape system.unknowns };

    ghost readers_of = { λ system. boolean_readers system.shape system.unknowns };

    ghost laws = { λ system. boolean_laws system.shape system.unknowns };

    ghost reads = { λ system. boolean_reads system.shape system.unknowns };

    fn unknowns(&self) -> u32 {
        self.unknowns
    }

    fn height(&self) -> u32 {
        1
    }

    fn top(&self) -> bool {
        true
    }

    fn meet(&self, a: bool, b: bool) -> bool {
        a && b
    }

    fn readers(&self, unknown: u32) -> u32 {
        count(
            first_reader(self.shape, unknown),
            most_readers(self.shape, self.unknowns),
            self.unknowns,
        )
    }

    fn reader(&self, unknown: u32, k: u32) -> u32 {
        first_reader(self.shape, unknown) + k
    }

    fn apply(&self, unknown: u32, now: &[bool], steps: &mut Steps<L>) -> bool {
        steps.tick();
        self.applied.set(self.applied.get().saturating_add(1));
        if unknown == 0 {
            false
        } else {
            read(self.shape, unknown, now)
        }
    }
}

fn first_reader(shape: Shape, unknown: u32) -> u32
    requires { unknown < 2 ^ 30 }
    ensures { result ≡ first_of shape unknown }
{
    match shape {
        Shape::Chain => unknown + 1,
        Shape::Tree => 2 * unknown + 1,
        Shape::Dense => 0,
    }
}

fn most_readers(shape: Shape, unknowns: u32) -> u32
    ensures { result ≡ width_of shape unknowns }
{
    match shape {
        Shape::Chain => 1,
        Shape::Tree => 2,
        Shape::Dense => unknowns,
    }
}

/// How many of so many numbers from the first on are unknowns.
fn count(first: u32, width: u32, unknowns: u32) -> u32
    requires { first + width < 2 ^ 32 }
    ensures { result ≡ count_of first width unknowns }
{
    if first + width <= unknowns {
        width
    } else {
        unknowns.saturating_sub(first)
    }
}

fn read(shape: Shape, unknown: u32, now: &[bool]) -> bool
    requires positive { 0 < unknown }
    requires within { unknown < length now.now }
    ensures { result ≡ read_of shape unknown now.now }
{
    match shape {
        Shape::Chain => now[unknown as usize - 1],
        Shape::Tree => now[(unknown as usize - 1) / 2],
        Shape::Dense => all_true(now),
    }
}

fn all_true(now: &[bool]) -> bool
    ensures { result ≡ list_all (λ value. value) now.now }
{
    now.iter().all(|value| *value)
}
