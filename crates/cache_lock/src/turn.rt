//! A turn at the cell: waiting for it, making the call in it, and the split by a number of calls.
ghost use Rattle.std.specs.Prelude.{◌≡◌, ◌<◌, ◌≤◌, [], ◌∷◌, false, Some};
ghost use Rattle.cache_lock.specs.Locking.{view_turning, view_keeping, view_given, IsFound, IsReady, IsDone};
ghost use Rattle.cache_lock.specs.declared.view.Held.{Held};

use crate::sequential::Sequential;
use crate::steps::{Amount, Commit, Look, OneHistory, SplitCalls, Take};
use crate::view::{Held, Origin, View};
use atomic_table::{Seat, Shared};
use std::sync::Wait;
use std::thread::yield_now;

/// What the slot of a cell holds, and None while a pass has its turn.
pub(crate) type Slot<O> = Option<Held<<O as Sequential>::State, <O as Sequential>::Entry>>;

pub(crate) type PassView<O> = View<<O as Sequential>::State, <O as Sequential>::Entry>;

pub(crate) type PassSeat<O> = Seat<Slot<O>, PassView<O>>;

pub(crate) type Word<O> = Shared<
    Slot<O>,
    PassView<O>,
    Origin<<O as Sequential>::State>,
    OneHistory<O>,
>;

/// Waits for the turn, and takes the slot. It yields between two tries.
pub(crate) fn take_turn<O: Sequential, R: Wait>(rt: &R, shared: &Word<O>, seat: &mut PassSeat<O>)
    requires table { (seat.old.table_id ≡ shared.now.table_id) × (0 < shared.now.table_id.words) }
    requires free { (seat.old.me.1 ≡ []) × (0 < seat.old.me.0.allowance) }
    ensures same { (seat.new.table_id ≡ seat.old.table_id) × (seat.new.id ≡ seat.old.id) }
    ensures took { (d : Held O.State O.Entry) × (seat.new.me.1 ≡ (0, Some d) ∷ []) × (seat.new.me.0 ≡ view_turning d.journal.items seat.old.me.0) × IsFound O.possible O.after seat.old.me.0 d }
{
    for _ in rt.forever() {
        let found = shared.load::<Look<O>>(seat, 0);
        if found % 2 == 0 {
            let now = shared.compare_exchange::<Take<O>>(seat, 0, found, found + 1);
            if now == found {
                return;
            }
        }
        yield_now();
    }
    unreachable!()
}

/// Makes the call on the state that the slot holds, enters it in the journal, and gives slot and turn back.
pub(crate) fn work<O: Sequential>(
    shared: &Word<O>,
    seat: &mut PassSeat<O>,
    call: O::Call,
) -> O::Reply
    requires table { (seat.old.table_id ≡ shared.now.table_id) × (0 < shared.now.table_id.words) }
    requires ready { IsReady O.after seat.old.me }
    ensures same { (seat.new.table_id ≡ seat.old.table_id) × (seat.new.id ≡ seat.old.id) }
    ensures done { IsDone O.possible O.after O.call_of O.tells seat.old.me call result seat.new.me }
{
    let Some(mut held) = shared.exchange(seat, 0, None) else {
        unreachable!();
    };
    let (reply, entry) = O::apply(&mut held.state, call);
    held.journal.push_reserved(entry);
    let None = shared.exchange(seat, 0, Some(held)) else {
        unreachable!();
    };
    shared.fetch_add::<Commit>(seat, 0, 1);
    reply
}

/// Splits off a seat with so many calls of the allowance.
pub(crate) fn split_by<O: Sequential, N: Amount>(
    shared: &Word<O>,
    seat: &mut PassSeat<O>,
    calls: u32,
) -> PassSeat<O>
    requires table { (seat.old.table_id ≡ shared.now.table_id) × (0 < shared.now.table_id.words) }
    requires amount { (N.amount ≡ calls) × (calls ≤ seat.old.me.0.allowance) × (seat.old.me.0.turn ≡ false) }
    ensures kept { (seat.new.table_id ≡ seat.old.table_id) × (seat.new.me ≡ (view_keeping calls seat.old.me.0, seat.old.me.1)) }
    ensures given { (result.table_id ≡ seat.old.table_id) × (result.me ≡ (view_given calls seat.old.me.0, [])) }
{
    let _ = calls;
    shared.split_seat::<SplitCalls<N>>(seat)
}
