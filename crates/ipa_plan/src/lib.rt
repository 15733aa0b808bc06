//! The plan of a whole program, from summaries alone. `specs/Plans.antt` says what it is: one version of each live function, and the
//! arrays that are kept. `specs/Rules.antt` says what is known of any plan, as the layers above use it, and `specs/Laws.antt` that this
//! plan keeps these rules.
//!
//! `plan` has the live functions marked, counts once how many of them stand before each function, and then makes their versions.
#![tactic(auto)]

mod example;
mod laws;
mod numbering;
mod planning;
mod symbols;
mod versions;

pub use example::reduced_plan;
pub use laws::planned;
pub use planning::plan;
