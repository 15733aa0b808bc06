//! The claims: numbers below a count, each of which one seat draws.
ghost use Rattle.std.specs.Prelude.{◌≡◌, ◌≤◌, ◌<◌, true, IfOk, IfErr, IfSome, IfNone, IsNone};
ghost use Rattle.worker_gate.specs.Claims.{IsSeatOf, held, fresh, keeping, given, joined, drew, ended, IsSound};

use crate::steps::{Draw, DrawnOnce, JoinShares, Look, SplitShare};
use crate::view::SeatView;
use atomic_table::{Seat, Table};
use gimple_ir::{List, NoMemory};
use std::alloc::Global;
use std::marker::Model;

/// The numbers below a count, each of which is drawn once.
#[derive(Drop)]
pub struct Claims {
    count: u32,
    table: Table<(), SeatView, u64, DrawnOnce, Global>,
}

impl Model for Claims {
    ghost use Rattle.std.specs.Prelude.{◌≡◌, ◌<◌, ◌≤◌};
    ghost use Rattle.worker_gate.specs.Claims.{ClaimsValue};

    ghost Value = { ClaimsValue };

    ghost view = { λ c. record { id = c.table.shared.table_id; count = c.count } };

    ghost invariant = { λ c. (c.count ≤ 513) × (c.table.shared.key ≡ c.count) × (0 < c.table.shared.table_id.words) };
}

/// A right to draw, with the numbers that it drew. It may go to another thread.
#[derive(Drop)]
pub struct ClaimSeat {
    drawn: Vec<u32>,
    ended: bool,
    seat: Seat<(), SeatView>,
}

impl Model for ClaimSeat {
    ghost use Rattle.std.specs.Prelude.{◌≡◌, ◌≤◌, [], vec_capacity};
    ghost use Rattle.worker_gate.specs.Claims.{SeatValue, IsSound};

    ghost Value = { SeatValue };

    ghost view = { λ s. record { id = s.seat.table_id; view = s.seat.me.0 } };

    ghost invariant = { λ s. (s.drawn.items ≡ s.seat.me.0.own) × (s.ended ≡ s.seat.me.0.ended) × (s.seat.me.1 ≡ []) × (s.seat.me.0.count ≤ vec_capacity s.drawn) × IsSound s.seat.me.0 };
}

impl Claims {
    /// Claims of the numbers below `count`, and the seat that has the whole share, 65. Its list of draws is reserved.
    pub fn new(alloc: Global, count: u32) -> Result<(Claims, ClaimSeat), NoMemory>
        requires count { count ≤ 513 }
        ensures claims { IfOk result (λ r. r.0.count ≡ count) }
        ensures seat { IfOk result (λ r. r.1 ≡ record { id = r.0.id; view = fresh count }) }
        ensures sound { IfOk result (λ r. IsSound r.1.view) }
    {
        let drawn = Vec::with_capacity(alloc, count as usize)?;
        let (table, seat) = Table::of_words(alloc, &[0], &u64::from(count))?;
        let claims = Claims { count, table };
        let seat = ClaimSeat {
            drawn,
            ended: false,
            seat,
        };
        Ok((claims, seat))
    }

    /// A second seat, which gets one part of the share and a reserved list of draws of its own. It has ended where this
    /// one has. After `NoMemory` the seat stands as before.
    pub fn split(&self, alloc: Global, seat: &mut ClaimSeat) -> Result<ClaimSeat, NoMemory>
        requires own { IsSeatOf self.now seat.old }
        requires share { 2 ≤ seat.old.view.share }
        ensures kept { IfOk result (λ _. seat.new ≡ record { id = seat.old.id; view = keeping seat.old.view }) }
        ensures given { IfOk result (λ r. r ≡ record { id = seat.old.id; view = given seat.old.view }) }
        ensures sound { IfOk result (λ r. IsSound seat.new.view × IsSound r.view) }
        ensures err { IfErr result (λ _. seat.new ≡ seat.old) }
    {
        let drawn = Vec::with_capacity(alloc, self.count as usize)?;
        let other = self.table.shared.split_seat::<SplitShare>(&mut seat.seat);
        Ok(ClaimSeat {
            drawn,
            ended: seat.ended,
            seat: other,
        })
    }

    /// Takes in another seat: adds its share, and keeps its lists beside the seat's own.
    pub fn join(&self, seat: &mut ClaimSeat, other: ClaimSeat)
        requires own { IsSeatOf self.now seat.old × IsSeatOf self.now other }
        ensures joined { seat.new ≡ record { id = seat.old.id; view = joined seat.old.view other.view } }
        ensures sound { IsSound seat.new.view }
    {
        let ClaimSeat {
            drawn: _,
            ended,
            seat: other,
        } = other;
        self.table
            .shared
            .join_seat::<JoinShares>(&mut seat.seat, other);
        self.table.shared.load::<Look>(&mut seat.seat, 0);
        seat.ended = seat.ended || ended;
    }

    /// A number that no seat has drawn, or None once all are drawn, or where the seat had ended. After None the seat has
    /// ended. A seat that has ended takes no step.
    pub fn draw(&self, seat: &mut ClaimSeat) -> Option<u32>
        requires own { IsSeatOf self.now seat.old }
        ensures some { IfSome result (λ n. (n < self.now.count) × (held n seat.old.view ≡ 0) × (seat.new ≡ record { id = seat.old.id; view = drew n seat.old.view })) }
        ensures none { IfNone result (seat.new ≡ record { id = seat.old.id; view = ended seat.old.view }) }
        ensures late { seat.old.view.ended ≡ true → IsNone result }
        ensures sound { IsSound seat.new.view }
    {
        if seat.ended {
            return None;
        }
        let number = self.table.shared.fetch_add::<Draw>(&mut seat.seat, 0, 1);
        if number >= u64::from(self.count) {
            seat.ended = true;
            return None;
        }
        let number = number as u32;
        seat.drawn.push_reserved(number);
        Some(number)
    }

    /// The numbers that the seat itself drew, in order. The list is the seat's, so no memory is taken.
    pub fn close(self, seat: ClaimSeat) -> List<u32>
        requires own { IsSeatOf self seat }
        ensures own { result ≡ seat.view.own }
        ensures sound { IsSound seat.view }
    {
        let ClaimSeat {
            drawn,
            ended: _,
            seat,
        } = seat;
        drop(seat);
        List::from_vec(drawn)
    }
}
