//! How a run stands, apart from its state.

/// Going on, ended with a status, or undefined at the newest frame's statement.
#[derive(Clone, Copy)]
pub enum Phase {
    Running,
    Ended(u8),
    Undefined,
}
