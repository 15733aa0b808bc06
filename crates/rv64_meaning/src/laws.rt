//! What is proved of every run of the machine, for proofs over it: functions that do nothing, whose clauses are the laws.

ghost use Rattle.rv64_meaning.specs.Laws.{LoadsWhatWasStored, LoadsPastStores, RunsInParts, StaysOver, OutputGrows};

/// Loads after stores.
pub fn memory_laws()
    ensures same { LoadsWhatWasStored }
    ensures apart { LoadsPastStores }
{}

/// Runs of the machine: in parts, over for good, and with output that only grows.
pub fn run_laws()
    ensures parts { RunsInParts }
    ensures over { StaysOver }
    ensures grows { OutputGrows }
{}
