//! The machine that runs an image: its start, its steps and runs, and the bytes that it writes.

ghost use Rattle.std.specs.Prelude.{◌≡◌, ℕ, ◌<◌, List, [], ◌+◌, ◌^◌, ◌++◌, None, IfOk, IfErr, OnOk, OnErr};
ghost use Rattle.rv64_meaning.specs.Machine.{State, At, next, after, step, follow, outcome_of, bytes_from};
ghost use Rattle.rv64_meaning.specs.Loading.{load_fault_of, segments_of, start_of};
ghost use Rattle.rv64_meaning.specs.View.{state_of, InOneSegment};
ghost use Rattle.rv64_meaning.specs.Standings.{segments_of_machine, memory_of_machine, standing_of, is_over, outcome_by, written_by, output_by, Tells, NamesBytes, IsCause};
ghost use Rattle.std.specs.Option.{ForSome};
ghost use Rattle.rv64_isa.specs.Words.{InRange};
ghost use Rattle.rv64_meaning.specs.declared.event.MachineState.TheVariants.{Running};

use crate::NoMemory;
use crate::event::{Event, MachineState};
use crate::fault::{ImageFault, LoadError};
use crate::hart::Hart;
use crate::loading::{first_fault, start};
use rv64_isa::Instr;

/// A machine with an image in its memory and an input to read. It hands on what it writes, and does not keep it.
#[derive(Drop)]
pub struct Machine {
    pub(crate) hart: Hart,
    pub(crate) state: MachineState,
}

impl Machine {
    /// The machine at the start of an image, or the image's first fault. Takes all the memory that steps need.
    pub fn load(image: &[u8], input: Vec<u8>) -> Result<Machine, LoadError>
        ensures accepted { IfOk result (λ m. load_fault_of image.now ≡ None) }
        ensures segments { IfOk result (λ m. segments_of_machine m ≡ segments_of image.now) }
        ensures start { IfOk result (λ m. standing_of m [] ≡ At (start_of image.now input.items)) }
        ensures refused { IfErr result (λ e. IsCause e (load_fault_of image.now)) }
    {
        match first_fault(image) {
            Some(offset) => Err(LoadError::Fault(ImageFault { offset })),
            None => {
                let hart = start(image, input)?;
                Ok(Machine {
                    hart,
                    state: MachineState::Running,
                })
            }
        }
    }

    /// Does the instruction at the program counter, or traps. After the end or a trap nothing happens, and the answer is the same
    /// again.
    pub fn step(&mut self) -> Event
        ensures segments { segments_of_machine self.new ≡ segments_of_machine self.old }
        ensures moves { (output : List ℕ) → standing_of self.new (output ++ written_by self.new result) ≡ next (segments_of_machine self.old) (standing_of self.old output) }
        ensures told { Tells result (standing_of self.new []) }
        ensures named { NamesBytes result (segments_of_machine self.new) }
    {
        match self.state {
            MachineState::Running => {
                let instr = self.hart.fetch();
                self.perform(instr)
            }
            MachineState::Ended(status) => Event::Ended(status),
            MachineState::Trapped { address } => Event::Trapped { address },
        }
    }

    /// The bytes from an address, for a range that the event of the last step named, or another inside one segment.
    pub fn bytes(&self, address: u64, length: u64) -> &[u8]
        requires { InOneSegment (segments_of_machine self.now) address length }
        ensures { result.now ≡ bytes_from length (memory_of_machine self.now) address }
    {
        self.hart.bytes(address, length)
    }

    /// Makes at most `n` steps, and appends to `out` what they write. A step whose output was refused its memory was not made,
    /// and the steps before it stand.
    pub fn run(&mut self, n: u64, out: &mut Vec<u8>) -> Result<MachineState, NoMemory>
        ensures segments { segments_of_machine self.new ≡ segments_of_machine self.old }
        ensures stands { OnOk result (standing_of self.new out.new.items ≡ after (segments_of_machine self.old) n (standing_of self.old out.old.items)) }
        ensures outcome { IfOk result (λ state. outcome_by state out.new.items ≡ outcome_of (after (segments_of_machine self.old) n (standing_of self.old out.old.items))) }
        ensures no_memory { OnErr result ((made : ℕ) × (made < n) × (standing_of self.new out.new.items ≡ after (segments_of_machine self.old) made (standing_of self.old out.old.items))) }
    {
        for _made in 0..n {
            if self.is_over() {
                return Ok(self.state);
            }
            self.advance(out)?;
        }
        Ok(self.state)
    }

    // The program has ended or trapped.
    fn is_over(&self) -> bool
        ensures { result ≡ is_over self.now.state }
    {
        !matches!(self.state, MachineState::Running)
    }

    // What a machine that runs does with what it fetched.
    fn perform(&mut self, fetched: Option<Instr>) -> Event
        requires in_range { ForSome fetched (λ i. InRange i) }
        requires pc { ForSome fetched (λ i. self.old.hart.pc + 4 < 2 ^ 64) }
        requires running { self.old.state ≡ Running }
        ensures segments { segments_of_machine self.new ≡ segments_of_machine self.old }
        ensures moves { (output : List ℕ) → let s = record (state_of self.old.hart) { output = output } in standing_of self.new (output ++ written_by self.new result) ≡ follow (step (segments_of_machine self.old) fetched s) s }
        ensures written { written_by self.new result ≡ output_by (step (segments_of_machine self.old) fetched (state_of self.old.hart)) }
        ensures told { Tells result (standing_of self.new []) }
        ensures named { NamesBytes result (segments_of_machine self.new) }
    {
        let event = self.hart.perform(fetched);
        self.state = event.state();
        event
    }

    // One step of a machine that runs. Its output goes to `out` first; where that is refused its memory nothing has changed.
    fn advance(&mut self, out: &mut Vec<u8>) -> Result<(), NoMemory>
        requires running { self.old.state ≡ Running }
        ensures segments { segments_of_machine self.new ≡ segments_of_machine self.old }
        ensures made { OnOk result (standing_of self.new out.new.items ≡ next (segments_of_machine self.old) (standing_of self.old out.old.items)) }
        ensures refused { OnErr result (standing_of self.new out.new.items ≡ standing_of self.old out.old.items) }
    {
        let fetched = self.hart.fetch();
        out.extend_from_slice(self.hart.writes(fetched))?;
        self.perform(fetched);
        Ok(())
    }
}
