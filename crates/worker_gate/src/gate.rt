//! The gate: is told of each compile and each result.

/// Is told of the compiles and results of a batch's workers. It answers nothing, so it cannot change a result.
pub trait Gate {
    /// A part of a link (both counted from 0) is about to be compiled.
    fn before_compile(&self, link: u32, part: u32);

    /// A part of a link has its result, compiled or found.
    fn after_result(&self, link: u32, part: u32);
}

/// A gate that does nothing.
#[derive(Drop)]
pub struct OpenGate;

impl Gate for OpenGate {
    fn before_compile(&self, _link: u32, _part: u32) {}

    fn after_result(&self, _link: u32, _part: u32) {}
}
