//! What a run shows.

/// How a run stands: going on, ended with a status, or undefined at a statement of a function, by their numbers from 0.
#[derive(Clone, Copy, Debug, PartialEq, Eq)]
pub enum Outcome {
    Running,
    Ended(u8),
    Undefined { function: u32, statement: u32 },
}
