//! The image: stubs, the code of all functions, the arrays, and the segments. `specs/Stubs.antt` and `specs/Image.antt`
//! say its bytes.
//!
//! `place` makes the image of a plan whose code stands in relocatable objects, the parts. `specs/Members.antt` says which
//! words a version has in them, `specs/Filling.antt` what relocations fill, `specs/Arrays.antt` what arrays are in the data
//! segment, and `specs/Placing.antt` the image of them all.
#![tactic(auto)]

mod arrays;
mod bytes;
mod filling;
mod image;
mod members;
mod names;
mod placing;
mod stubs;
mod symbols;

pub use bytes::put_all;
pub use image::make_image;
pub use placing::place;
