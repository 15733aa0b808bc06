//! Rows of draws, seats that have ended, and works that are forked.
ghost use Rattle.std.specs.Prelude.{◌≡◌, ◌≤◌, ◌+◌, ◌<◌, ◌^◌, ℕ, true, ◌-◌, length, IfOk};
ghost use Rattle.worker_gate.specs.Claims.{IsSeatOf, held};
ghost use Rattle.list_counts.specs.Counts.{once_below};

use anyhow::Result;
use std::alloc::Global;
use std::thread::Threads;
use worker_gate::{ClaimSeat, Claims, Gate, NoMemory, OpenGate, Work, fork_workers};

/// Draws until nothing is left.
#[derive(Drop)]
struct Drawer<'a> {
    claims: &'a Claims,
    seat: ClaimSeat,
}

impl<'a> Work for Drawer<'a> {
    ghost asks = { λ d. IsSeatOf d.claims.now d.seat };

    ghost leaves = { λ d e. (e.claims.now ≡ d.claims.now) × IsSeatOf e.claims.now e.seat × (e.seat.view.ended ≡ true) × (e.seat.view.share ≡ d.seat.view.share) };

    fn run(&mut self) {
        while let Some(_number) = self.claims.draw(&mut self.seat) {}
    }
}

/// Three workers draw all numbers, each once.
fn drawn_by_three<R: Threads + Sync>(
    rt: &R,
    alloc: Global,
    claims: &Claims,
    mut first: ClaimSeat,
) -> Result<ClaimSeat, NoMemory>
    requires { IsSeatOf claims.now first × (first.view.share ≡ 65) }
    ensures { IfOk result (λ r. IsSeatOf claims.now r × ((x : ℕ) → held x r.view ≡ once_below x claims.now.count)) }
{
    let second = claims.split(alloc, &mut first)?;
    let third = claims.split(alloc, &mut first)?;
    let mut works = Vec::with_capacity(alloc, 3)?;
    works.push_reserved(Drawer {
        claims,
        seat: first,
    });
    works.push_reserved(Drawer {
        claims,
        seat: second,
    });
    works.push_reserved(Drawer {
        claims,
        seat: third,
    });
    fork_workers(rt, works.as_mut_slice());
    let Some(Drawer { seat: third, .. }) = works.pop() else {
        unreachable!();
    };
    let Some(Drawer { seat: second, .. }) = works.pop() else {
        unreachable!();
    };
    let Some(
        Drawer {
            seat: mut first,
            ..
        },
    ) = works.pop()
    else {
        unreachable!();
    };
    claims.join(&mut first, second);
    claims.join(&mut first, third);
    Ok(first)
}

/// Draws by three workers and by two seats in turn, seats that have ended, works that are forked, and an open gate.
pub fn play<R: Print + Threads + Sync>(rt: &R, alloc: Global) -> Result<()> {
    let (claims, first) = Claims::new(alloc, 513)?;
    let seat = drawn_by_three(rt, alloc, &claims, first)?;
    let own = claims.close(seat);
    println!(rt;
        "three workers: the last seat drew at most 513 itself: {}",
        own.len() <= 513
    )?;
    in_turn(rt, alloc, true)?;
    in_turn(rt, alloc, false)?;
    ended(rt, alloc)?;
    each_once(rt)?;
    let gate = OpenGate;
    gate.before_compile(0, 0);
    gate.after_result(0, 0);
    Ok(())
}

/// Two seats that draw in turn from three numbers, and the list of the one that is closed.
fn in_turn<R: Print>(rt: &R, alloc: Global, closes_first: bool) -> Result<()> {
    let (claims, mut first) = Claims::new(alloc, 3)?;
    let mut second = claims.split(alloc, &mut first)?;
    let one = claims.draw(&mut first);
    let two = claims.draw(&mut second);
    let three = claims.draw(&mut first);
    println!(rt; "two seats: {one:?} {two:?} {three:?}")?;
    let four = claims.draw(&mut second);
    let five = claims.draw(&mut first);
    println!(rt; "two seats: then {four:?} and {five:?}")?;
    let closing = if closes_first { first } else { second };
    for number in claims.close(closing).as_slice() {
        println!(rt; "two seats: it has {number}")?;
    }
    Ok(())
}

/// A seat draws None for good after its first None, after it took in an ended seat, and when it was split from one.
fn ended<R: Print>(rt: &R, alloc: Global) -> Result<()> {
    let (claims, mut first) = Claims::new(alloc, 0)?;
    let mut second = claims.split(alloc, &mut first)?;
    let own = claims.draw(&mut first);
    let again = claims.draw(&mut first);
    let mut third = claims.split(alloc, &mut first)?;
    let split = claims.draw(&mut third);
    claims.join(&mut second, third);
    let joined = claims.draw(&mut second);
    claims.join(&mut second, first);
    let left = claims.close(second).len();
    println!(rt;
        "no numbers: {own:?}, again {again:?}, split off {split:?}, joined {joined:?}, and {left} of its own"
    )?;
    Ok(())
}

/// Counts its runs.
#[derive(Drop)]
struct Runs {
    runs: u32,
}

impl Work for Runs {
    ghost asks = { λ w. w.runs < 1000 };

    ghost leaves = { λ v w. w.runs ≡ v.runs + 1 };

    fn run(&mut self) {
        self.runs += 1;
    }
}

/// Each work of a row is run once, whatever the length of the row.
fn each_once<R: Print + Threads + Sync>(rt: &R) -> Result<()> {
    fork_workers(rt, &mut [Runs { runs: 7 }; 0]);
    let mut works = [
        Runs { runs: 0 },
        Runs { runs: 10 },
        Runs { runs: 20 },
        Runs { runs: 30 },
        Runs { runs: 40 },
    ];
    fork_workers(rt, &mut works);
    for work in &works {
        println!(rt; "works: {}", work.runs)?;
    }
    Ok(())
}
