//! What is known of the versions of a program under its plan: a function that does nothing, whose clauses are the laws.
ghost use Rattle.program_link.specs.Laws.{VersionsFit, SymbolsAgree, SymbolsDiffer, MainStands, UsesKept, TextSmall, ArraysSmall};

/// The versions of a program under its plan can be compiled and placed: their symbols differ, they name kept arrays, and within the
/// limits of a link they are small.
pub fn versioned()
    ensures fit { VersionsFit }
    ensures agree { SymbolsAgree }
    ensures differ { SymbolsDiffer }
    ensures main { MainStands }
    ensures uses { UsesKept }
    ensures text { TextSmall }
    ensures arrays { ArraysSmall }
{}
