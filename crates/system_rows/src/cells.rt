//! A register whose writes are counted, called by one thread and by several.
ghost use Rattle.std.specs.Prelude.{◌≡◌, ◌+◌, ◌<◌, ◌^◌, ◌%◌};
ghost use Rattle.cache_lock.specs.Passes.{IsPassOf, reserved_of};

use anyhow::Result;
use cache_lock::{Pass, Sequential, SharedCell};
use std::alloc::Global;
use std::sync::Wait;
use std::thread::{Threads, join};

/// A register, with the number of writes so far.
#[derive(Drop)]
struct Register {
    value: u32,
    writes: u64,
}

/// A value that was written, with the value and the number of writes before.
#[derive(Drop)]
struct Written {
    value: u32,
    before: u32,
    writes: u64,
}

/// An object whose call writes a value and answers the value before.
struct Swaps;

impl Sequential for Swaps {
    type State = Register;

    type Call = u32;

    type Reply = u32;

    type Entry = Written;

    ghost use Rattle.system_rows.specs.declared.cells.Register.{Register};

    ghost possible = { λ s e. (e.before ≡ s.value) × (e.writes ≡ s.writes) };

    ghost after = { λ s e. record { value = e.value; writes = (s.writes + 1) % 2 ^ 64 } };

    ghost call_of = { λ e. e.value };

    ghost tells = { λ e reply. e.before ≡ reply };

    fn apply(state: &mut Register, call: u32) -> (u32, Written) {
        let before = state.value;
        let writes = state.writes;
        state.value = call;
        state.writes = writes.wrapping_add(1);
        (
            before,
            Written {
                value: call,
                before,
                writes,
            },
        )
    }
}

fn blank() -> Register {
    Register {
        value: 0,
        writes: 0,
    }
}

/// Calls of two passes in turn, of a cell without room, and of two threads.
pub fn play<R: Print + Threads + Wait + Sync>(rt: &R, alloc: Global) -> Result<()> {
    in_turn(rt, alloc)?;
    let (cell, pass) = SharedCell::<Swaps>::begin(alloc, blank(), 0)?;
    let (state, history) = cell.close(pass);
    println!(rt;
        "no calls: {} writes, {} entries",
        state.writes,
        history.len()
    )?;
    two_threads(rt, alloc)
}

/// Two passes that call in turn: each reply is the value that was written last, and the history has all calls.
fn in_turn<R: Print + Wait>(rt: &R, alloc: Global) -> Result<()> {
    let (cell, mut pass) = SharedCell::<Swaps>::begin(alloc, blank(), 4)?;
    let mut other = cell.split(&mut pass, 2);
    let first = cell.call(rt, &mut pass, 5);
    let second = cell.call(rt, &mut other, 6);
    let third = cell.call(rt, &mut pass, 7);
    cell.join(&mut pass, other);
    let fourth = cell.call(rt, &mut pass, 8);
    let (state, history) = cell.close(pass);
    println!(rt;
        "in turn: {first} {second} {third} {fourth}, then {} by {} writes",
        state.value, state.writes
    )?;
    for entry in history.as_slice() {
        println!(rt; "in turn: {} written", entry.value)?;
    }
    Ok(())
}

/// Two calls, with their replies.
fn twice<R: Wait>(
    rt: &R,
    cell: &SharedCell<Swaps>,
    mut pass: Pass<Swaps>,
    from: u32,
) -> (Pass<Swaps>, [u32; 2])
    requires { IsPassOf cell.now pass × (pass.allowance ≡ 2) × (from < 100) }
    ensures { IsPassOf cell.now result.0 × (reserved_of result.0 ≡ reserved_of pass) }
{
    let first = cell.call(rt, &mut pass, from);
    let second = cell.call(rt, &mut pass, from + 1);
    (pass, [first, second])
}

/// Two threads make two calls each: the history has the four, each thread's in its order, and the replies are those of one
/// thread: each is the value that the entry before wrote.
fn two_threads<R: Print + Threads + Wait + Sync>(rt: &R, alloc: Global) -> Result<()> {
    let (cell, mut pass) = SharedCell::<Swaps>::begin(alloc, blank(), 4)?;
    let one = cell.split(&mut pass, 2);
    let two = cell.split(&mut pass, 2);
    let (one, two) = join(
        rt,
        || twice(rt, &cell, one, 10),
        || twice(rt, &cell, two, 20),
    );
    let (one, of_one) = one;
    let (two, of_two) = two;
    cell.join(&mut pass, one);
    cell.join(&mut pass, two);
    let (state, history) = cell.close(pass);
    let entries = history.as_slice();
    println!(rt;
        "two threads: {} writes, {} entries",
        state.writes,
        entries.len()
    )?;
    println!(rt;
        "two threads: each entry after the one before: {}",
        follow(entries, state.value)
    )?;
    for (from, [first, second]) in [(10u32, of_one), (20, of_two)] {
        let told = is_told(entries, from, first) && is_told(entries, from.wrapping_add(1), second);
        println!(rt;
            "two threads: calls from {from} told as they are in the history: {told}, in order: {}",
            in_order(entries, from)
        )?;
    }
    Ok(())
}

/// Whether each entry has the value that the one before it wrote, and the last wrote this.
fn follow(entries: &[Written], last: u32) -> bool {
    let mut value = 0;
    for entry in entries {
        if entry.before != value {
            return false;
        }
        value = entry.value;
    }
    value == last
}

/// Whether the history has a write of this value with this reply.
fn is_told(entries: &[Written], value: u32, reply: u32) -> bool {
    entries
        .iter()
        .any(|entry| entry.value == value && entry.before == reply)
}

/// Whether the history has this value before the next number.
fn in_order(entries: &[Written], from: u32) -> bool {
    let first = entries.iter().position(|entry| entry.value == from);
    let second = entries
        .iter()
        .position(|entry| entry.value == from.wrapping_add(1));
    first.is_some() && first < second
}
