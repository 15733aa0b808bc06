//! The streams of one module: its declarations, and the body of each function, each with one spelling and read from left
//! to right up to the first bad field.
//!
//! In specs/, `Codes` has the bytes that stand for opcodes, operators, types, linkage and flags, `Bodies` and `Declarations` the
//! spelling as a function of the value, `BodyReading` and `DeclarationReading` what reading gives, with its faults.
//! `Fields` and `Readers` are of any stream; so are `Encode` and `Decode`.
#![tactic(auto)]

mod body;
mod bounds;
mod codes;
mod declarations;
mod decode;
mod encode;
mod fault;
mod fields;
mod functions;
mod names;
mod operands;
mod spelled_declarations;
mod spelled_statements;
mod statements;

pub use body::{decode_body, encode_body, no_body_begins_another};
pub use bounds::BodyBounds;
pub use codes::Coded;
pub use declarations::{
    declarations_are_read_without_bodies, declarations_are_well_formed, decode_decls, encode_decls,
    no_declarations_begin_others,
};
pub use decode::{Decode, counted, counted_after, repeated, repeated_after};
pub use encode::{Encode, put_counted, put_text};
pub use fault::StreamError;
pub use fields::{byte, coded, number_below, place_below, text, typed_value, value};
pub use operands::{component, put_typed_value};
