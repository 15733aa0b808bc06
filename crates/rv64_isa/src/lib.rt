//! The instructions of RV64IM and their 32-bit words, both ways, after the RISC-V unprivileged manual, version 20191213.
//! `specs/Table.antt` has the table, `specs/Format.antt` the layout of a word, `specs/Words.antt` what a word means.
#![tactic(auto)]

pub mod decoding;
pub mod encoding;
pub mod fields;
pub mod instr;
pub mod opcode;

pub use decoding::decode;
pub use encoding::encode;
pub use instr::Instr;
