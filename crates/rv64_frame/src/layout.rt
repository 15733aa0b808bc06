//! The layout of a frame, from the counts of a function.
ghost use Rattle.std.specs.Prelude.{◌≡◌, ◌≤◌, ◌<◌, ◌+◌, ◌*◌, ◌^◌};
ghost use Rattle.rv64_frame.specs.Frames.{passed_of, outgoing_of, frame_of, slot_in, return_in, incoming_in, HasFewSlots};

use gimple_ir::{Step, VersionedFunction};

/// A frame. From the stack pointer up there are the slots of the arguments that the function passes, those of its components, and
/// that of its return address, each of 8 bytes.
#[derive(Clone, Copy, Debug, PartialEq, Eq)]
pub struct FrameLayout {
    /// The largest number of arguments that one of its calls passes.
    pub outgoing: u32,
    /// The number of its components.
    pub components: u32,
    /// The size in bytes, a multiple of 16.
    pub size: u32,
}

impl FrameLayout {
    /// Where a component lies, in bytes from the stack pointer.
    pub fn component(&self, component: u32) -> u64
        ensures value { result ≡ slot_in self.now component }
        ensures small { result < 2 ^ 36 }
    {
        8 * (u64::from(self.outgoing) + u64::from(component))
    }

    /// Where the return address lies, in bytes from the stack pointer.
    pub fn return_address(&self) -> u64
        ensures value { result ≡ return_in self.now }
        ensures small { result < 2 ^ 36 }
    {
        8 * (u64::from(self.outgoing) + u64::from(self.components))
    }

    /// Where an argument of the function lies in its caller's frame, in bytes from the function's own stack pointer.
    pub fn incoming(&self, argument: u32) -> u64
        ensures value { result ≡ incoming_in self.now argument }
        ensures small { result < 2 ^ 36 }
    {
        u64::from(self.size) + 8 * u64::from(argument)
    }
}

fn passed(step: &Step) -> usize
    ensures { result ≡ passed_of step.now }
{
    match step {
        Step::Call { args, .. } => args.len(),
        _ => 0,
    }
}

fn outgoing(body: &[Step]) -> usize
    ensures { result ≡ outgoing_of body.now }
{
    let mut most = 0;
    for step in body {
        most = most.max(passed(step));
    }
    most
}

/// The frame of a version.
pub fn frame(function: &VersionedFunction) -> FrameLayout
    // at most 1,024 components, and 64 arguments in a call
    requires { HasFewSlots function.now }
    ensures { result ≡ frame_of function.now }
{
    let outgoing = outgoing(function.body.as_slice()) as u32;
    let components = function.types.len() as u32;
    FrameLayout {
        outgoing,
        components,
        size: (8 * (outgoing + components + 1) + 15) / 16 * 16,
    }
}
