//! Balanced partitions: cuts an order of versions into ranges of about one size, with few calls between them.
//!
//! The aim is the sum of all sizes divided by the number of partitions that are wanted, rounded up. Partitions are cut
//! one after the other. Each reaches as far as its sum stays within the aim, and one version at least. Where that is not
//! the end, it is cut back to the place, at half of the aim or beyond, that has the fewest calls between the partition
//! and later versions; the latest such place counts.
//!
//! `specs/Cuts.antt` says so over whole lists of places. The code keeps the sum before each place and the other ends of
//! each version's calls, so a sum is one subtraction, and the calls cut at the next place come from those of one version.
//! A version is looked at again by few partitions, each of at least half of the aim, so the work grows with versions and
//! calls alone.
#![tactic(auto)]

mod cutting;
mod range;
mod versions;

pub use cutting::cut;
pub use gimple_ir::NoMemory;
pub use range::Range;
