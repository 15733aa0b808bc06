//! The shared cell and its passes.
ghost use Rattle.std.specs.Prelude.{◌≡◌, ℕ, ◌+◌, ◌-◌, ◌<◌, ◌≤◌, ◌^◌, List, [], ◌∷◌, ◌++◌, length, map, IfOk};
ghost use mathlib.Core.List.{IsPrefix};
ghost use Rattle.list_counts.specs.Counts.{once_below};
ghost use Rattle.cache_lock.specs.Sequential.{IsLegal, state_after, entries_at};
ghost use Rattle.cache_lock.specs.Passes.{IsPassOf, IsLonger, first_pass, keeping, given, joined, called, places_at, entries_of, reserved_of, IsMade, IsSound};

use crate::sequential::Sequential;
use crate::steps::{JoinStrands, Look, OneHistory};
use crate::turn::{PassSeat, PassView, Slot, split_by, take_turn, work};
use crate::view::{Held, Origin};
use atomic_table::Table;
use gimple_ir::{List, NoMemory};
use std::alloc::Global;
use std::marker::{Brand, Model};
use std::snapshot::Snapshot;
use std::sync::Wait;

/// An object that threads share. Its calls are made one at a time, each by a pass.
#[derive(Drop)]
pub struct SharedCell<O: Sequential> {
    table: Table<Slot<O>, PassView<O>, Origin<O::State>, OneHistory<O>, Global>,
}

impl<O: Sequential> Model for SharedCell<O> {
    ghost use Rattle.std.specs.Prelude.{◌≡◌, ◌<◌, ◌^◌};
    ghost use Rattle.cache_lock.specs.Passes.{CellValue};

    ghost Value = { CellValue O.State };

    ghost view = { λ c. record { id = c.table.shared.table_id; first = c.table.shared.key.first.value; calls = c.table.shared.key.calls } };

    ghost invariant = { λ c. (0 < c.table.shared.table_id.words) × (c.table.shared.table_id.slots ≡ 1) × (c.table.shared.key.calls < 2 ^ 32) };
}

/// A right to make so many calls, with what it has seen of the history and the places of its own entries there. It may go
/// to another thread.
#[derive(Drop)]
pub struct Pass<O: Sequential> {
    seat: PassSeat<O>,
}

impl<O: Sequential> Model for Pass<O> {
    ghost use Rattle.std.specs.Prelude.{◌≡◌, false, []};
    ghost use Rattle.cache_lock.specs.Passes.{PassValue};
    ghost use Rattle.cache_lock.specs.Locking.{Knows};

    ghost Value = { PassValue O.State O.Entry };

    ghost view = { λ p. record { id = p.seat.table_id; first = p.seat.me.0.first; calls = p.seat.me.0.calls; allowance = p.seat.me.0.allowance; seen = p.seat.me.0.seen; own = p.seat.me.0.own; others = p.seat.me.0.others } };

    ghost invariant = { λ p. (p.seat.me.1 ≡ []) × (p.seat.me.0.turn ≡ false) × Knows p.seat.me.0 };
}

impl<O: Sequential> SharedCell<O> {
    /// A cell whose journal has room for so many calls, and the pass that may make them all. After `NoMemory` the state is
    /// dropped.
    pub fn begin(
        alloc: Global,
        state: O::State,
        calls: u32,
    ) -> Result<(SharedCell<O>, Pass<O>), NoMemory>
        ensures cell { IfOk result (λ r. (r.0.first ≡ state) × (r.0.calls ≡ calls)) }
        ensures pass { IfOk result (λ r. r.1 ≡ first_pass r.0) }
    {
        let about = Origin {
            first: Snapshot::of(&state),
            calls: u64::from(calls),
        };
        let journal = Vec::with_capacity(alloc, calls as usize)?;
        let mut slots = Vec::with_capacity(alloc, 1)?;
        slots.push_reserved(Some(Held { state, journal }));
        match Table::new(alloc, &[0], slots, &about) {
            Ok((table, seat)) => Ok((SharedCell { table }, Pass { seat })),
            Err(_) => Err(NoMemory),
        }
    }

    /// A second pass, which has seen as much and may make so many of this one's calls.
    pub fn split(&self, pass: &mut Pass<O>, calls: u32) -> Pass<O>
        requires own { IsPassOf self.now pass.old }
        requires room { calls ≤ pass.old.allowance }
        ensures kept { pass.new ≡ keeping calls pass.old }
        ensures given { result ≡ given calls pass.old }
        ensures reserved { reserved_of pass.new + reserved_of result ≡ reserved_of pass.old }
    {
        Pass {
            seat: split_by::<O, Brand>(&self.table.shared, &mut pass.seat, calls),
        }
    }

    /// Takes in another pass: adds its allowance, keeps its strands beside the pass's own, and the longer history.
    pub fn join(&self, pass: &mut Pass<O>, other: Pass<O>)
        requires own { IsPassOf self.now pass.old × IsPassOf self.now other }
        ensures joined { pass.new ≡ joined pass.old other pass.new.seen }
        ensures seen { IsLonger pass.old.seen other.seen pass.new.seen }
        ensures legal { IsLegal O.possible O.after self.now.first pass.new.seen }
        ensures reserved { reserved_of pass.new ≡ reserved_of pass.old + reserved_of other }
        ensures entries { entries_of pass.new ≡ entries_of pass.old ++ entries_of other }
        ensures sound { IsSound pass.new }
    {
        let Pass { seat: other } = other;
        self.table
            .shared
            .join_seat::<JoinStrands>(&mut pass.seat, other);
        self.table.shared.load::<Look<O>>(&mut pass.seat, 0);
    }

    /// Waits for the turn and makes a call in it, one of the pass's allowance.
    pub fn call<R: Wait>(&self, rt: &R, pass: &mut Pass<O>, call: O::Call) -> O::Reply
        requires own { IsPassOf self.now pass.old }
        requires room { 0 < pass.old.allowance }
        ensures pass { pass.new ≡ called pass.old pass.new.seen }
        ensures reserved { reserved_of pass.new ≡ reserved_of pass.old }
        ensures entry { IsMade O.possible O.after O.call_of O.tells self.now.first pass.old call result pass.new }
        ensures legal { IsLegal O.possible O.after self.now.first pass.new.seen }
        ensures sound { IsSound pass.new }
    {
        take_turn(rt, &self.table.shared, &mut pass.seat);
        work(&self.table.shared, &mut pass.seat, call)
    }

    /// The last state and the whole history, once one pass has all calls that `begin` reserved, made or not. The list is
    /// the journal itself, so no memory is taken.
    pub fn close(self, pass: Pass<O>) -> (O::State, List<O::Entry>)
        requires own { IsPassOf self pass }
        requires all { reserved_of pass ≡ self.calls }
        ensures legal { IsLegal O.possible O.after self.first result.1 }
        ensures state { result.0 ≡ state_after O.after self.first result.1 }
        ensures seen { IsPrefix pass.seen result.1 }
        ensures entries { map (entries_at result.1) (pass.own ∷ pass.others) ≡ entries_of pass }
        ensures strands { (x : ℕ) → places_at x pass ≡ once_below x (length result.1) }
    {
        let SharedCell { table } = self;
        let Pass { seat } = pass;
        let mut closed = table.close_with(seat);
        let held = closed.take(0);
        closed.free();
        let Some(Held { state, journal }) = held else {
            unreachable!();
        };
        (state, List::from_vec(journal))
    }
}
