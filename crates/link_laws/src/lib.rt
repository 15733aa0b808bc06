//! That the image of a whole program follows it.
//!
//! In specs/, `Laws` has the two laws: the image can be loaded, and it does on every input what the program does.
#![tactic(auto)]

ghost use Rattle.link_laws.specs.Laws.{LinkedLoads, LinkedFollows};

use follow_laws::{direct_images, machine_follows, starts};
use gimple_meaning::{following, keeping};
use ipa_plan::planned;
use program_link::versioned;
use version_laws::{typed_versions, versions_keep};

/// The image of each whole program that passes no limit can be loaded, and does on every input what the program does.
pub fn linked_image_follows()
    ensures loads { LinkedLoads }
    ensures follows { LinkedFollows }
{
    planned();
    versioned();
    direct_images();
    starts();
    machine_follows();
    typed_versions();
    versions_keep();
    keeping();
    following();
}
