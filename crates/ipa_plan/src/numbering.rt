//! Where the versions of the live functions stand in a plan.
ghost use Rattle.std.specs.Prelude.{◌≡◌, ◌<◌, ◌^◌, length, IfOk};
ghost use Rattle.call_graph.specs.Live.{marked};
ghost use Rattle.ipa_plan.specs.Plans.{version_place};
ghost use Rattle.ipa_plan.specs.Numbering.{places_of, IsNumbering};

use gimple_ir::{List, NoMemory};
use std::alloc::Global;

/// The live functions, and for each function how many live ones stand before it.
#[derive(Drop)]
pub struct Numbering {
    pub live: List<bool>,
    pub places: List<u32>,
}

fn places(alloc: Global, live: &[bool]) -> Result<List<u32>, NoMemory>
    requires { length live.now < 2 ^ 32 }
    ensures { IfOk result (λ places. places ≡ places_of live.now) }
{
    let mut places = Vec::new(alloc);
    let mut before = 0;
    for is_live in live {
        places.push(before)?;
        if *is_live {
            before += 1;
        }
    }
    Ok(List::from_vec(places))
}

impl Numbering {
    /// That of the live functions.
    pub fn new(alloc: Global, live: List<bool>) -> Result<Numbering, NoMemory>
        requires { length live < 2 ^ 32 }
        ensures live { IfOk result (λ numbering. numbering.live ≡ live) }
        ensures places { IfOk result IsNumbering }
    {
        let places = places(alloc, live.as_slice())?;
        Ok(Numbering { live, places })
    }

    /// Whether a function is live.
    pub fn is_live(&self, function: usize) -> bool
        requires { function < length self.now.live }
        ensures { result ≡ marked self.now.live function }
    {
        *self.live.get(function)
    }

    /// The place of a function's version.
    pub fn place(&self, function: u32) -> u32
        requires numbering { IsNumbering self.now }
        requires function { function < length self.now.live }
        ensures { result ≡ version_place self.now.live function }
    {
        *self.places.get(function as usize)
    }
}
