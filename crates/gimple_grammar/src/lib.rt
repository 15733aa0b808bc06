//! The text of a module, read into syntax with names: the grammar of the language.
//!
//! In specs/, `Grammar` says how a grammar is built from smaller ones and what it reads and spells, `Pieces`, `Statements`
//! and `Items` are the language's own, `Texts` says what a text spells and which fault is its first, and `Streams` what
//! its items are, read one by one.
#![tactic(auto)]

mod items;
mod outlines;
mod parts;
mod pieces;
mod statements;
mod stream;
mod syntax;
mod text;

pub use stream::{next_item, next_outline};
pub use syntax::{
    ArrayText, Binary, Body, CaseLabel, Choice, Condition, Declared, FieldText, Form, FunctionText,
    Item, ItemLine, Line, Literal, Operand, Parameters, Place, Right, StructText, Tail, Type,
};
pub use text::{SyntaxError, SyntaxFault, read_text, reading_laws};
