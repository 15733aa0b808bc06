//! What a linker answers of the symbols of a link.
use gimple_ir::{List, Name};

/// The words of the linker plugin interface.
#[derive(Clone, Copy, Debug, PartialEq, Eq)]
pub enum Word {
    Unknown,
    Undef,
    PrevailingDef,
    PrevailingDefIronly,
    PrevailingDefIronlyExp,
    PreemptedReg,
    PreemptedIr,
    ResolvedIr,
    ResolvedExec,
    ResolvedDyn,
}

/// What is answered of one symbol.
#[derive(Drop)]
pub struct Resolved {
    pub word: Word,
    pub name: Name,
    /// A number that is kept and otherwise ignored.
    pub id: u64,
}

/// What is answered of a file's symbols, in the file's order.
#[derive(Drop)]
pub struct ResolvedFile {
    pub name: Name,
    pub words: List<Resolved>,
}

/// What is answered of all files, in the order of the link.
#[derive(Drop)]
pub struct Resolution {
    pub files: List<ResolvedFile>,
}
