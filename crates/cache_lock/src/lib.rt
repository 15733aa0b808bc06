//! An object of one thread that many threads share: their calls form one legal history.
//!
//! A `SharedCell` holds an object's state and the journal of its entries behind one atomic word, which is twice the number
//! of entries, and 1 more while a pass has its turn. A `Pass` is a right to make so many calls; passes are split off for
//! threads and joined again, and `close` gives the last state and the whole history once all have been joined.
//!
//! `specs/Sequential.antt` says what a legal history is, `specs/Passes.antt` what contracts see of a cell and of a pass,
//! and `specs/Locking.antt` has the rule that holds between any two steps on the word. Only `call` waits; it tries and
//! yields until it has the turn, and no clause says that it ever gets it.
#![tactic(auto)]

mod cell;
mod sequential;
mod steps;
mod turn;
mod view;

pub use cell::{Pass, SharedCell};
pub use gimple_ir::NoMemory;
pub use sequential::Sequential;
pub use view::View;
