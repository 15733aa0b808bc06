//! Where the components of a function's variables lie, and of which type they are.
ghost use Rattle.std.specs.Prelude.{◌≡◌, ◌≤◌, ◌<◌, IfOk, slice_get, take};
ghost use Rattle.gimple_ir.specs.CodeBound.{components_in, components_of, parameter_components};
ghost use Rattle.gimple_ir.specs.Statements.{component_types};
ghost use Rattle.func_summary.specs.JumpFunctions.{field_of, is_parameter};
ghost use Rattle.func_summary.specs.Tables.{firsts_of};

use gimple_ir::{Function, NoMemory, ScalarType, Variable};
use std::alloc::Global;
use std::marker::Model;

/// A function, with the first component of each variable and the type of each component.
#[derive(Drop)]
pub struct Layout<'a> {
    function: &'a Function,
    firsts: Vec<u32>,
    total: u32,
    types: Vec<ScalarType>,
}

impl<'a> Model for Layout<'a> {
    ghost use Rattle.gimple_ir.specs.declared.types.Function.{Function as Source};
    ghost use Rattle.func_summary.specs.Tables.{IsLaidOut};

    ghost Value = { Source };

    ghost view = { λ layout. layout.function.now };

    ghost invariant = { λ layout. IsLaidOut layout.function.now layout.firsts.items layout.total layout.types.items };
}

fn component_types(alloc: Global, variables: &[Variable]) -> Result<Vec<ScalarType>, NoMemory>
    ensures { IfOk result (λ types. types.items ≡ component_types variables.now) }
{
    let mut types = Vec::new(alloc);
    for variable in variables {
        types.extend_from_slice(variable.types.as_slice())?;
    }
    Ok(types)
}

fn components_in(variables: &[Variable]) -> u32
    requires { components_in variables.now ≤ 1024 }
    ensures { result ≡ components_in variables.now }
{
    let mut total = 0u32;
    for variable in variables {
        total += variable.types.len() as u32;
    }
    total
}

fn firsts(alloc: Global, variables: &[Variable]) -> Result<Vec<u32>, NoMemory>
    requires { components_in variables.now ≤ 1024 }
    ensures { IfOk result (λ firsts. firsts.items ≡ firsts_of variables.now) }
{
    let mut total = 0u32;
    let mut firsts = Vec::new(alloc);
    for variable in variables {
        firsts.push(total)?;
        total += variable.types.len() as u32;
    }
    Ok(firsts)
}

impl<'a> Layout<'a> {
    /// Lays the components of a function out, in one pass over its variables.
    pub fn new(alloc: Global, function: &'a Function) -> Result<Layout<'a>, NoMemory>
        requires { components_in function.now.variables ≤ 1024 }
        ensures { IfOk result (λ layout. layout ≡ function.now) }
    {
        let variables = function.variables.as_slice();
        let firsts = firsts(alloc, variables)?;
        let types = component_types(alloc, variables)?;
        Ok(Layout {
            function,
            firsts,
            total: components_in(variables),
            types,
        })
    }

    /// The function.
    pub fn function(&self) -> &Function
        ensures { result.now ≡ self.now }
    {
        self.function
    }

    /// The number of components.
    pub fn total(&self) -> u32
        ensures value { result ≡ components_in self.now.variables }
        ensures small { components_in self.now.variables ≤ 1024 }
    {
        self.total
    }

    /// The number of components of the variable, or 0 where the number names none.
    pub fn fields(&self, variable: u32) -> u32
        ensures value { result ≡ components_of self.now.variables variable }
        ensures small { components_of self.now.variables variable ≤ 1024 }
    {
        let place = variable as usize;
        let variables = &self.function.variables;
        if place < variables.len() {
            variables.get(place).types.len() as u32
        } else {
            0
        }
    }

    /// The first component of the variable, or their number where the number names none.
    fn first(&self, variable: u32) -> u32
        ensures value { result ≡ components_in (take variable self.now.variables) }
        ensures small { result ≤ 1024 }
    {
        let place = variable as usize;
        if place < self.firsts.len() {
            self.firsts[place]
        } else {
            self.total
        }
    }

    /// The component of a field of the variable.
    pub fn field(&self, variable: u32, field: u32) -> u32
        requires { field ≤ 1024 }
        ensures value { result ≡ field_of self.now.variables variable field }
        ensures within { field < components_of self.now.variables variable → result < components_in self.now.variables }
    {
        self.first(variable) + field
    }

    /// The number of components of the parameters.
    pub fn parameters(&self) -> u32
        ensures value { result ≡ parameter_components self.now }
        ensures within { parameter_components self.now ≤ components_in self.now.variables }
    {
        self.first(self.function.parameters)
    }

    /// Whether the component is one of a parameter.
    pub fn is_parameter(&self, component: u32) -> bool
        ensures { result ≡ is_parameter self.now component }
    {
        component < self.parameters()
    }

    /// The type of the component, or None where the number names none.
    pub fn type_of(&self, component: u32) -> Option<ScalarType>
        ensures { result ≡ slice_get (component_types self.now.variables) component }
    {
        self.types.get(component as usize).copied()
    }
}
