//! What the numbers in a body may name.
ghost use Rattle.std.specs.Prelude.{◌≡◌, ◌<◌, ◌^◌};
ghost use Rattle.module_stream.specs.Bodies.{component_count};

use gimple_ir::{List, ScalarType};

/// What the numbers in a body may name: one type for each component, and how many there are of the others.
#[derive(Drop)]
pub struct BodyBounds {
    pub types: List<ScalarType>,
    pub variables: u32,
    pub labels: u32,
    pub arrays: u32,
    pub functions: u32,
}

impl BodyBounds {
    /// Each count fits a u32.
    pub fn are_counts(&self)
        ensures variables { self.now.variables < 2 ^ 32 }
        ensures labels { self.now.labels < 2 ^ 32 }
        ensures arrays { self.now.arrays < 2 ^ 32 }
        ensures functions { self.now.functions < 2 ^ 32 }
    {
        let _variables = self.variables;
        let _labels = self.labels;
        let _arrays = self.arrays;
        let _functions = self.functions;
    }

    /// How many components can be named by a u32.
    pub fn component_count(&self) -> u64
        ensures { result ≡ component_count self.now }
    {
        (self.types.len() as u64).min(1 << 32)
    }
}
