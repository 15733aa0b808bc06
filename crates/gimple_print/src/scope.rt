//! What the numbers in the statements of one function name.
ghost use Rattle.std.specs.Prelude.{◌≡◌, IfOk};
ghost use Rattle.gimple_print.specs.Statements.{names_in, name_at, component_text, component_type_text};

use crate::places::{Place, places_of};
use crate::words::scalar_text;
use gimple_ir::{Function, List, Module, NoMemory};
use std::alloc::Global;
use std::marker::Model;

/// A function of a module, with the place of each component.
#[derive(Drop)]
pub struct Scope<'a> {
    source: &'a Module,
    function: &'a Function,
    places: List<Place>,
}

impl<'a> Model for Scope<'a> {
    ghost use Rattle.std.specs.Prelude.{◌≡◌};
    ghost use Rattle.gimple_print.specs.Places.{places_of};
    ghost use Rattle.gimple_print.specs.Statements.{Names, names_in};

    ghost Value = { Names };

    ghost view = { λ scope. names_in scope.source.now scope.function.now };

    ghost invariant = { λ scope. scope.places ≡ places_of scope.source.now.structs scope.function.now.variables };
}

impl<'a> Scope<'a> {
    /// The scope of a function, with the table of its places.
    pub fn new(
        alloc: Global,
        source: &'a Module,
        function: &'a Function,
    ) -> Result<Scope<'a>, NoMemory>
        ensures { IfOk result (λ scope. scope ≡ names_in source.now function.now) }
    {
        let structs = source.structs.as_slice();
        let places = places_of(alloc, structs, function.variables.as_slice())?;
        Ok(Scope {
            source,
            function,
            places,
        })
    }

    /// The text of a component.
    pub fn component(&self, component: u32) -> &[u8]
        ensures { result.now ≡ component_text self.now component }
    {
        match self.places.as_slice().get(component as usize) {
            Some(place) => place.text.as_slice(),
            None => &[],
        }
    }

    /// The text of a component's type.
    pub fn component_type(&self, component: u32) -> &'static str
        ensures { result.now ≡ component_type_text self.now component }
    {
        match self.places.as_slice().get(component as usize) {
            Some(place) => scalar_text(place.ty),
            None => "",
        }
    }

    /// The name of a variable.
    #[tactic(auto, using(crate::proofs::Named::name_at_map))]
    pub fn variable(&self, variable: u32) -> &[u8]
        ensures { result.now ≡ name_at self.now.variables variable }
    {
        match self.function.variables.as_slice().get(variable as usize) {
            Some(found) => found.name.as_slice(),
            None => &[],
        }
    }

    /// The name of a label.
    pub fn label(&self, label: u32) -> &[u8]
        ensures { result.now ≡ name_at self.now.labels label }
    {
        match self.function.labels.as_slice().get(label as usize) {
            Some(found) => found.as_slice(),
            None => &[],
        }
    }

    /// The name of an array.
    #[tactic(auto, using(crate::proofs::Named::name_at_map))]
    pub fn array(&self, array: u32) -> &[u8]
        ensures { result.now ≡ name_at self.now.arrays array }
    {
        match self.source.arrays.as_slice().get(array as usize) {
            Some(found) => found.name.as_slice(),
            None => &[],
        }
    }

    /// The name of a function.
    #[tactic(auto, using(crate::proofs::Named::name_at_map))]
    pub fn function(&self, function: u32) -> &[u8]
        ensures { result.now ≡ name_at self.now.functions function }
    {
        match self.source.functions.as_slice().get(function as usize) {
            Some(found) => found.name.as_slice(),
            None => &[],
        }
    }
}
