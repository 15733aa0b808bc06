//! What is known of a merged program: a function that does nothing, whose clause is the law.
ghost use Rattle.symbol_resolution.specs.Laws.{MergedLaw};

/// The merged program of real objects is true of the whole program that it stands for, which is well formed.
pub fn merged_programs()
    ensures summarised { MergedLaw }
{}
