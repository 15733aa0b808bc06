//! The kinds of atomic step on the word of the claims: split, join, fetch and add 1, and the load that ends a join.
use crate::view::SeatView;
use atomic_table::{Join, Play, Split, TableRule};

/// The rule of the word, which every step keeps.
pub(crate) struct DrawnOnce;

impl TableRule<(), SeatView, u64> for DrawnOnce {
    ghost use Rattle.worker_gate.specs.Steps.{IsKept};
    ghost use Rattle.worker_gate.specs.Claims.{fresh};

    ghost holds = { IsKept };

    ghost first = { fresh };
}

/// A fetch and add of 1, which draws the number that it finds.
pub(crate) struct Draw;

impl Play<(), SeatView> for Draw {
    ghost use Rattle.worker_gate.specs.Steps.{Drawn};

    ghost then = { Drawn };
}

/// A load, which changes nothing and tells what holds of the seat.
pub(crate) struct Look;

impl Play<(), SeatView> for Look {
    ghost use Rattle.worker_gate.specs.Steps.{Looked};

    ghost then = { Looked };
}

/// A split, which hands over one part of the share.
pub(crate) struct SplitShare;

impl Split<SeatView> for SplitShare {
    ghost use Rattle.worker_gate.specs.Claims.{keeping, given};

    ghost left = { keeping };

    ghost right = { given };
}

/// A join, which adds the shares and keeps all lists.
pub(crate) struct JoinShares;

impl Join<SeatView> for JoinShares {
    ghost use Rattle.worker_gate.specs.Claims.{joined, spent_view};

    ghost both = { joined };

    ghost spent = { spent_view };
}
