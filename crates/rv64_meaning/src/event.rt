//! What one step of the machine did, and how the machine stands.

ghost use Rattle.std.specs.Prelude.{◌≡◌};
ghost use Rattle.rv64_meaning.specs.Standings.{state_after};

/// What a step did. After the end or a trap each step says the same again.
#[derive(Clone, Copy, PartialEq, Eq, Debug)]
pub enum Event {
    /// The machine went on, and wrote nothing.
    Quiet,
    /// The machine went on, and wrote these bytes of its memory, at least one.
    Wrote { address: u64, length: u64 },
    /// The program ended with this status.
    Ended(u8),
    /// The machine trapped with its program counter at this address.
    Trapped { address: u64 },
}

/// How a machine stands after a run.
#[derive(Clone, Copy, PartialEq, Eq, Debug)]
pub enum MachineState {
    /// It can go on.
    Running,
    /// The program ended with this status.
    Ended(u8),
    /// The machine trapped with its program counter at this address.
    Trapped { address: u64 },
}

impl Event {
    /// How the machine stands after this event.
    pub(crate) fn state(self) -> MachineState
        ensures { result ≡ state_after self }
    {
        match self {
            Event::Quiet | Event::Wrote { .. } => MachineState::Running,
            Event::Ended(status) => MachineState::Ended(status),
            Event::Trapped { address } => MachineState::Trapped { address },
        }
    }
}
