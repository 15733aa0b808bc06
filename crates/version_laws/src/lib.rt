//! That the versions of a whole program, under any plan that keeps to the rules, run as the program does: functions that do nothing,
//! whose clauses are the laws.
//!
//! In specs/, `States` says how versions stand for the program, `Linked` what the program is linked as, and `Laws` has the laws.
#![tactic(auto)]

ghost use Rattle.version_laws.specs.Laws.{VersionsLaw, TypedLaw};

use program_link::versioned;

/// The run of the versions stands for that of the source program, step by step, while this is defined.
pub fn versions_keep()
    ensures { VersionsLaw }
{}

/// The versions are well formed: their numbers name what is there, labels stand once, and types agree.
pub fn typed_versions()
    ensures { TypedLaw }
{
    versioned();
}
