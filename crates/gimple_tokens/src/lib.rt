//! The text of a program: its tokens, and a reader that looks one token ahead.
//!
//! In specs/, `Tokens` says which tokens a text has, `Reading` what is left once one is passed over, `Stops` where reading
//! stops and why, `Numbers` which numbers may stand where, and `Operators` which signs are binary operators.
#![tactic(auto)]

mod failure;
mod identifier;
mod lexer;
mod numbers;
mod operators;
mod reader;
mod token;

pub use failure::Failure;
pub use identifier::Identifier;
pub use lexer::{Lexed, lex};
pub use numbers::NumberPlace;
pub use reader::Reader;
pub use token::{Keyword, Mark, Suffix, TextKind, Token};
