//! The image of objects under a resolution: they are merged to one whole program, and this is linked.
//!
//! In specs/, `Linking` has what the image is, and what is refused, in order.
#![tactic(auto)]

mod fault;
mod linking;

pub use fault::LinkError;
pub use linking::link_one;
