//! A counter in a shared cell, which threads call side by side.
ghost use Rattle.std.specs.Prelude.{◌≡◌, ◌≤◌, ◌<◌, ◌+◌, ◌*◌, ◌%◌, ◌^◌, All, IfOk};
ghost use Rattle.cache_lock.specs.Passes.{IsPassOf};

use cache_lock::{NoMemory, Pass, Sequential, SharedCell};
use std::alloc::Global;
use std::sync::Wait;
use std::thread::Threads;
use worker_gate::{Work, fork_workers};

/// A sum, to which each call adds.
struct Counter;

/// What was added, and the sum before.
#[derive(Drop)]
struct Added {
    by: u64,
    before: u64,
}

impl Sequential for Counter {
    type State = u64;

    type Call = u64;

    type Reply = u64;

    type Entry = Added;

    ghost possible = { λ s e. e.before ≡ s };

    ghost after = { λ s e. (s + e.by) % 2 ^ 64 };

    ghost call_of = { λ e. e.by };

    ghost tells = { λ e reply. e.before ≡ reply };

    fn apply(state: &mut u64, call: u64) -> (u64, Added) {
        let before = *state;
        *state = before.wrapping_add(call);
        (before, Added { by: call, before })
    }
}

/// A thread that makes so many calls, and keeps the greatest reply.
#[derive(Drop)]
struct Caller<'a, R: Wait> {
    rt: &'a R,
    cell: &'a SharedCell<Counter>,
    pass: Pass<Counter>,
    calls: u32,
    greatest: u64,
}

impl<'a, R: Wait> Work for Caller<'a, R> {
    ghost asks = { λ w. IsPassOf w.cell.now w.pass × (w.calls ≤ w.pass.allowance) };

    ghost leaves = { λ _ _. Unit {0} };

    fn run(&mut self) {
        for _ in 0..self.calls {
            let reply = self.cell.call(self.rt, &mut self.pass, 1);
            self.greatest = self.greatest.max(reply);
        }
    }
}

/// Makes calls by so many threads, equally many each and at most `count` together; gives how many that are, and the
/// greatest reply.
pub fn called_by<R: Threads + Wait + Sync>(
    rt: &R,
    alloc: Global,
    threads: u32,
    count: u32,
) -> Result<(u64, u64), NoMemory>
    requires { 0 < threads }
{
    let (cell, pass) = SharedCell::<Counter>::begin(alloc, 0, count)?;
    let mut callers = callers_of(rt, alloc, &cell, pass, threads, count)?;
    fork_workers(rt, callers.as_mut_slice());
    let mut calls = 0u64;
    let mut greatest = 0;
    for caller in &callers {
        calls = calls.saturating_add(u64::from(caller.calls));
        greatest = caller.greatest.max(greatest);
    }
    Ok((calls, greatest))
}

/// So many callers, among which `count` calls of the pass are shared out equally.
fn callers_of<'a, R: Wait>(
    rt: &'a R,
    alloc: Global,
    cell: &'a SharedCell<Counter>,
    mut pass: Pass<Counter>,
    threads: u32,
    count: u32,
) -> Result<Vec<Caller<'a, R>>, NoMemory>
    requires own { IsPassOf cell.now pass }
    requires room { count ≤ pass.allowance }
    requires some { 0 < threads }
    ensures { IfOk result (λ callers. All (λ w. IsPassOf w.cell.now w.pass × (w.calls ≤ w.pass.allowance)) callers.items) }
{
    let each = count / threads;
    let mut callers = Vec::new(alloc);
    let mut left = count;
    for _ in 0..threads {
        if left < each {
            break;
        }
        callers.push(Caller {
            rt,
            cell,
            pass: cell.split(&mut pass, each),
            calls: each,
            greatest: 0,
        })?;
        left -= each;
    }
    Ok(callers)
}
