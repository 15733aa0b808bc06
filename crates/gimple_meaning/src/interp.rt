//! The interpreter: a run of a program, one state changed in place.
ghost use Rattle.std.specs.Prelude.{◌≡◌, ◌<◌, ◌↔◌, ℕ, All, IsTrue, IfOk, OnOk, OnErr};
ghost use Rattle.gimple_meaning.specs.Held.{HasInitial, HasLiterals};
ghost use Rattle.gimple_meaning.specs.Laws.{IsOver};
ghost use Rattle.gimple_meaning.specs.Run.{outcome_of, output_of, run};
ghost use Rattle.gimple_meaning.specs.Source.{source_of, start};
ghost use Rattle.gimple_meaning.specs.Systems.{step};

use crate::outcome::Outcome;
use crate::phase::Phase;
use crate::stage::Stage;
use gimple_ir::{NoMemory, Program};
use std::alloc::Global;
use std::marker::Model;

/// A run of a program on an input, which contracts see as the program and the state of its run.
#[derive(Drop)]
pub struct Interp<'a> {
    stage: Stage<'a>,
    phase: Phase,
}

impl<'a> Model for Interp<'a> {
    ghost use Rattle.gimple_meaning.specs.Stages.{Run};

    ghost Value = { Run };

    ghost use Rattle.gimple_meaning.specs.InterpView.{run_of};

    ghost view = { run_of };
}

impl<'a> Interp<'a> {
    /// The run of a program before its first step. Initial values, literals and case values are in their types' ranges, as
    /// those of a well formed program are; nothing else is asked of it.
    pub fn start(
        alloc: Global,
        program: &'a Program,
        input: Vec<u8>,
    ) -> Result<Interp<'a>, NoMemory>
        requires arrays { All HasInitial program.now.arrays }
        requires functions { All HasLiterals program.now.functions }
        ensures program { IfOk result (λ interp. interp.program ≡ program.now) }
        ensures state { IfOk result (λ interp. interp.state ≡ start program.now input.items) }
    {
        let stage = Stage::start(alloc, program, input)?;
        Ok(Interp {
            stage,
            phase: Phase::Running,
        })
    }

    /// One step; of a run that is over it changes nothing. After `NoMemory` all is as before.
    pub fn step(&mut self) -> Result<(), NoMemory>
        ensures program { self.new.program ≡ self.old.program }
        ensures ok { OnOk result (self.new.state ≡ step (source_of self.old.program) self.old.state) }
        ensures err { OnErr result (self.new ≡ self.old) }
    {
        let Phase::Running = self.phase else {
            return Ok(());
        };
        let phase = self.stage.advance()?;
        self.phase = phase;
        Ok(())
    }

    fn is_over(&self) -> bool
        ensures { IsTrue result ↔ IsOver self.now.state }
    {
        match self.phase {
            Phase::Running => false,
            Phase::Ended(_) | Phase::Undefined => true,
        }
    }

    /// As many as `n` steps, fewer where the run is over before. After `NoMemory` the steps before the refused one stand.
    pub fn run(&mut self, n: u64) -> Result<(), NoMemory>
        ensures program { self.new.program ≡ self.old.program }
        ensures ok { OnOk result (self.new.state ≡ run (source_of self.old.program) self.old.state n) }
        ensures err { OnErr result ((k : ℕ) × (k < n) × (self.new.state ≡ run (source_of self.old.program) self.old.state k)) }
    {
        for _made in 0..n {
            if self.is_over() {
                return Ok(());
            }
            self.step()?;
        }
        Ok(())
    }

    /// How the run stands.
    pub fn outcome(&self) -> Outcome
        ensures { result ≡ outcome_of self.now.state }
    {
        match self.phase {
            Phase::Running => Outcome::Running,
            Phase::Ended(status) => Outcome::Ended(status),
            Phase::Undefined => Outcome::Undefined {
                function: self.stage.function_number(),
                statement: self.stage.place(),
            },
        }
    }

    /// What the run has written so far.
    pub fn output(&self) -> &[u8]
        ensures { result.now ≡ output_of self.now.state }
    {
        self.stage.output()
    }
}
