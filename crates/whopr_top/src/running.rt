// The run of an image.
ghost use Rattle.std.specs.Prelude.{◌≡◌, [], None, IfOk, IfErr, OnOk};
ghost use Rattle.rv64_meaning.specs.Laws.{output_of};
ghost use Rattle.rv64_meaning.specs.Loading.{load_fault_of, run_of};
ghost use Rattle.rv64_meaning.specs.Standings.{outcome_by, IsCause};
ghost use Rattle.whopr_top.specs.Lines.{outcome_line};

use crate::lines::state_line;
use rv64_meaning::{LoadError, Machine, MachineState};
use std::alloc::Global;

/// The line that says how the machine stands after at most so many steps, and its output.
pub fn run_image(
    alloc: Global,
    image: &[u8],
    given: Vec<u8>,
    steps: u64,
) -> Result<(Vec<u8>, Vec<u8>), LoadError>
    ensures loaded { OnOk result (load_fault_of image.now ≡ None) }
    ensures line { IfOk result (λ r. r.0.items ≡ outcome_line (run_of image.now given.items steps)) }
    ensures output { IfOk result (λ r. r.1.items ≡ output_of (run_of image.now given.items steps)) }
    ensures refused { IfErr result (λ e. IsCause e (load_fault_of image.now)) }
{
    let (state, output) = state_after(alloc, image, given, steps)?;
    match state_line(alloc, state) {
        Ok(line) => Ok((line.into_bytes(), output)),
        Err(_) => Err(LoadError::NoMemory),
    }
}

// How the machine stands after at most so many steps, and its output.
fn state_after(
    alloc: Global,
    image: &[u8],
    given: Vec<u8>,
    steps: u64,
) -> Result<(MachineState, Vec<u8>), LoadError>
    ensures loaded { OnOk result (load_fault_of image.now ≡ None) }
    ensures output { IfOk result (λ r. r.1.items ≡ output_of (run_of image.now given.items steps)) }
    ensures text { IfOk result (λ r. outcome_line (outcome_by r.0 []) ≡ outcome_line (run_of image.now given.items steps)) }
    ensures refused { IfErr result (λ e. IsCause e (load_fault_of image.now)) }
{
    let mut machine = Machine::load(image, given)?;
    let mut output = Vec::new(alloc);
    match machine.run(steps, &mut output) {
        Ok(state) => Ok((state, output)),
        Err(_) => Err(LoadError::NoMemory),
    }
}
