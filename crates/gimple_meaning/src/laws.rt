//! What is proved of every run, for proofs over it: functions that do nothing, whose clauses are the laws.
ghost use Rattle.gimple_meaning.specs.Laws.{RunsInParts, StaysOver, OutputGrows};
ghost use Rattle.gimple_meaning.specs.LockStep.{LockStep};
ghost use Rattle.gimple_meaning.specs.Shown.{FollowsOn};
ghost use Rattle.gimple_meaning.specs.Keeping.{KeepsFollows, KeepsOn};

/// Runs of any system: in parts, over for good, and with output that only grows.
pub fn run_laws()
    ensures parts { RunsInParts }
    ensures over { StaysOver }
    ensures grows { OutputGrows }
{}

/// Runs of two systems that act alike on related frames stay related, step by step, while the first is defined.
pub fn lock_step()
    ensures { LockStep }
{}

/// What follows a run that follows another follows that one too.
pub fn following()
    ensures { FollowsOn }
{}

/// A run follows the one that it keeps, and keeps what this keeps.
pub fn keeping()
    ensures follows { KeepsFollows }
    ensures on { KeepsOn }
{}
