//! `solver SHAPE READERS` solves a system of Booleans, a `chain`, a `tree` or a `dense` one, with so many readers. It says how many
//! equations were applied and how many at most, and fails where that is more than the bound that is proved of the solver.
ghost use Rattle.std.specs.Prelude.{◌≡◌, ◌<◌, ◌≤◌, ◌^◌};

mod booleans;

use self::booleans::{Booleans, Shape};
use crate::words::Words;
use anyhow::{Result, bail};
use equation_rounds::{NoMemory, Steps, System, solve};
use std::alloc::Global;
use std::cell::Cell;
use std::marker::Brand;
use std::sync::ledger::{Blank, Ledger};

/// The most readers that a run may have.
const MOST_READERS: u32 = 1_000_000_000;

pub fn measure(rt: &HostRuntime, words: &mut Words) -> Result<()> {
    let name = words.text()?;
    let readers = words.count()?.min(MOST_READERS);
    let (shape, unknowns) = system_of(name.as_str(), readers);
    let run = solve_booleans(rt.alloc(), shape, unknowns)?;
    if run.applied > run.most {
        bail!("more ticks than are proved");
    }
    println!(rt;
        "{unknowns} unknowns, {} ticks of at most {}",
        run.applied, run.most
    )?;
    Ok(())
}

/// The shape of that name, and as many unknowns as give it so many readers.
fn system_of(name: &str, readers: u32) -> (Shape, u32)
    requires { readers ≤ 1000000000 }
    ensures { result.1 < 2 ^ 30 }
{
    match name {
        "chain" => (Shape::Chain, readers + 1),
        "tree" => (Shape::Tree, readers + 1),
        _ => (Shape::Dense, readers.isqrt() + 1),
    }
}

/// How many times an equation was applied, and how many times at most.
#[derive(Drop)]
struct Run {
    applied: u64,
    most: u64,
}

/// Solves the system of that shape.
fn solve_booleans(alloc: Global, shape: Shape, unknowns: u32) -> Result<Run, NoMemory>
    requires { unknowns < 2 ^ 30 }
{
    booleans_by::<Brand>(alloc, shape, unknowns, Blank::new(1))
}

fn booleans_by<L: Ledger>(
    alloc: Global,
    shape: Shape,
    unknowns: u32,
    blank: Blank,
) -> Result<Run, NoMemory>
    requires unknowns { unknowns < 2 ^ 30 }
    requires name { blank.name ≡ L.name }
    requires parts { blank.parts ≡ L.parts }
    requires some { 0 < L.parts }
{
    let mut steps: Steps<L> = Steps::open(blank);
    let applied = Cell::new(0);
    let system = Booleans {
        shape,
        unknowns,
        applied: &applied,
    };
    let _values = solve(alloc, &system, &mut steps)?;
    let most = most_ticks::<L, Booleans>(&system);
    let applied = applied.get();
    Ok(Run { applied, most })
}

/// Each equation once, and again for each entry in all lists of readers as often as its value can fall.
fn most_ticks<L: Ledger, S: System<L>>(system: &S) -> u64 {
    let mut readers = 0u64;
    for unknown in 0..system.unknowns() {
        readers = readers.saturating_add(u64::from(system.readers(unknown)));
    }
    let falls = readers.saturating_mul(u64::from(system.height()));
    falls.saturating_add(u64::from(system.unknowns()))
}
