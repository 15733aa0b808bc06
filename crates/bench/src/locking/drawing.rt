//! Rows of claims, from which threads draw side by side.
ghost use Rattle.std.specs.Prelude.{◌≡◌, ◌≤◌, ◌<◌, ◌-◌};
ghost use Rattle.std.specs.Arc.{arc_value};
ghost use Rattle.worker_gate.specs.Claims.{IsSeatOf};

use std::alloc::Global;
use std::sync::Arc;
use std::thread::Threads;
use worker_gate::{ClaimSeat, Claims, NoMemory, Work, fork_workers};

/// The most numbers that one row has.
const ROW: u32 = 512;

/// Claims, with a seat of theirs.
#[derive(Drop)]
struct Row {
    claims: Arc<Claims>,
    seat: ClaimSeat,
    ghost own: { IsSeatOf (arc_value claims) seat },
}

/// A thread that draws from its rows, the last one first, and counts what it drew.
#[derive(Drop)]
struct Drawer {
    rows: Vec<Row>,
    drawn: u64,
}

impl Work for Drawer {
    ghost asks = { λ _. Unit {0} };

    ghost leaves = { λ _ _. Unit {0} };

    fn run(&mut self) {
        for _ in 0..self.rows.len() {
            if let Some(row) = self.rows.pop() {
                self.drawn = self.drawn.saturating_add(drain(row));
            }
        }
    }
}

/// Draws until the row has no number left, and gives how many it drew.
fn drain(row: Row) -> u64 {
    let Row { claims, mut seat } = row;
    let mut drawn = 0u64;
    for _ in 0..ROW {
        if claims.draw(&mut seat).is_none() {
            break;
        }
        drawn = drawn.saturating_add(1);
    }
    drawn
}

/// Draws so many numbers by so many threads, and gives how many were drawn.
pub fn drawn_by<R: Threads + Sync>(
    rt: &R,
    alloc: Global,
    threads: u32,
    count: u32,
) -> Result<u64, NoMemory>
    requires { threads ≤ 64 }
{
    let mut drawers = Vec::new(alloc);
    for _ in 0..threads {
        drawers.push(Drawer {
            rows: Vec::new(alloc),
            drawn: 0,
        })?;
    }
    for _ in 0..count / ROW {
        deal(alloc, &mut drawers, threads, ROW)?;
    }
    deal(alloc, &mut drawers, threads, count % ROW)?;
    fork_workers(rt, drawers.as_mut_slice());
    let mut drawn = 0u64;
    for drawer in &drawers {
        drawn = drawn.saturating_add(drawer.drawn);
    }
    Ok(drawn)
}

/// Gives each drawer a seat of one more row.
fn deal(alloc: Global, drawers: &mut Vec<Drawer>, threads: u32, count: u32) -> Result<(), NoMemory>
    requires threads { threads ≤ 64 }
    requires count { count ≤ 512 }
{
    let (claims, mut seat) = Claims::new(alloc, count)?;
    let claims = Arc::new(alloc, claims)?;
    for place in 0..threads {
        let part = claims.split(alloc, &mut seat)?;
        let row = Row {
            claims: Arc::try_clone(&claims)?,
            seat: part,
        };
        if let Some(drawer) = drawers.get_mut(place as usize) {
            drawer.rows.push(row)?;
        }
    }
    Ok(())
}
