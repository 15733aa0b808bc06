//! A function as the interpreter takes it: with tables of its components and labels, so that a step searches for nothing.
ghost use Rattle.std.specs.Prelude.{◌≡◌, IfOk, length, position, slice_get, sum_by, take};
ghost use Rattle.gimple_ir.specs.Statements.{component_types};
ghost use Rattle.gimple_ir.specs.CodeBound.{components_in, components_of, parameter_components};
ghost use Rattle.gimple_meaning.specs.Source.{is_label, place_of, first_component};
ghost use Rattle.gimple_meaning.specs.Tables.{AreFirsts, ArePlaces, noted};

use gimple_ir::{Function, NoMemory, ScalarType, Statement, Variable};
use std::alloc::Global;
use std::marker::Model;

/// A function, which contracts see as itself. `places` has the places of its labels, as many as it lists, and `firsts` the first
/// component of each variable.
#[derive(Drop)]
pub struct Layout<'a> {
    function: &'a Function,
    types: Vec<ScalarType>,
    places: Vec<usize>,
    firsts: Vec<usize>,
    components: usize,
    parameter_count: usize,
}

impl<'a> Model for Layout<'a> {
    ghost use Rattle.std.specs.Prelude.{◌≡◌};
    ghost use Rattle.gimple_ir.specs.declared.types.Function.{Function as Definition};
    ghost use Rattle.gimple_ir.specs.Statements.{component_types};

    ghost Value = { Definition };

    ghost view = { λ layout. layout.function.now };

    ghost use Rattle.std.specs.Prelude.{length};
    ghost use Rattle.gimple_ir.specs.CodeBound.{components_in, parameter_components};
    ghost use Rattle.gimple_meaning.specs.Tables.{ArePlaces, AreFirsts};

    ghost invariant = { λ layout. (layout.types.items ≡ component_types layout.function.now.variables) × ArePlaces layout.function.now.body 0 layout.places.items × AreFirsts layout.function.now.variables layout.firsts.items × (length layout.firsts.items ≡ length layout.function.now.variables) × (layout.components ≡ components_in layout.function.now.variables) × (layout.parameter_count ≡ parameter_components layout.function.now) };
}

fn component_types(alloc: Global, variables: &[Variable]) -> Result<Vec<ScalarType>, NoMemory>
    ensures { IfOk result (λ types. types.items ≡ component_types variables.now) }
{
    let mut types = Vec::new(alloc);
    for variable in variables {
        types.extend_from_slice(variable.types.as_slice())?;
    }
    Ok(types)
}

fn is_label(statement: &Statement, label: u32) -> bool
    ensures { result ≡ is_label label statement.now }
{
    match statement {
        Statement::Label(other) => *other == label,
        _ => false,
    }
}

fn find_label(body: &[Statement], label: u32) -> Option<usize>
    ensures { result ≡ position (is_label label) body.now }
{
    body.iter().position(|s| is_label(s, label))
}

fn label_place(body: &[Statement], label: u32) -> usize
    ensures { result ≡ place_of body.now label }
{
    match find_label(body, label) {
        Some(place) => place,
        None => body.len(),
    }
}

fn count_components(variables: &[Variable]) -> Result<usize, NoMemory>
    ensures { IfOk result (λ count. count ≡ components_in variables.now) }
{
    let mut count = 0usize;
    for variable in variables {
        let Some(more) = count.checked_add(variable.types.len()) else {
            return Err(NoMemory);
        };
        count = more;
    }
    Ok(count)
}

fn first_variables(variables: &[Variable], count: u32) -> &[Variable]
    ensures { result.now ≡ take count variables.now }
{
    if count as usize >= variables.len() {
        variables
    } else {
        &variables[..count as usize]
    }
}

fn note(places: &mut Vec<usize>, statement: &Statement, place: usize)
    ensures { places.new.items ≡ noted places.old.items statement.now place }
{
    if let Statement::Label(label) = statement {
        if (*label as usize) < places.len() {
            places[*label as usize] = place;
        }
    }
}

fn label_places(alloc: Global, body: &[Statement], labels: usize) -> Result<Vec<usize>, NoMemory>
    ensures { IfOk result (λ places. ArePlaces body.now 0 places.items) }
{
    let mut places = Vec::new(alloc);
    places.resize(labels, body.len())?;
    let mut place = body.len();
    while place > 0 {
        place -= 1;
        note(&mut places, &body[place], place);
    }
    Ok(places)
}

fn first_components(alloc: Global, variables: &[Variable]) -> Result<Vec<usize>, NoMemory>
    ensures firsts { IfOk result (λ firsts. AreFirsts variables.now firsts.items) }
    ensures length { IfOk result (λ firsts. length firsts.items ≡ length variables.now) }
{
    let mut firsts = Vec::new(alloc);
    let mut count = 0usize;
    for variable in variables {
        let Some(more) = count.checked_add(variable.types.len()) else {
            return Err(NoMemory);
        };
        firsts.push(count)?;
        count = more;
    }
    Ok(firsts)
}

impl<'a> Layout<'a> {
    /// The layout of a function.
    pub fn new(alloc: Global, function: &'a Function) -> Result<Layout<'a>, NoMemory>
        ensures { IfOk result (λ layout. layout ≡ function.now) }
    {
        let variables = function.variables.as_slice();
        let types = component_types(alloc, variables)?;
        let places = label_places(alloc, function.body.as_slice(), function.labels.len())?;
        let firsts = first_components(alloc, variables)?;
        let components = count_components(variables)?;
        let parameter_count = count_components(first_variables(variables, function.parameters))?;
        Ok(Layout {
            function,
            types,
            places,
            firsts,
            components,
            parameter_count,
        })
    }

    /// The function.
    pub fn function(&self) -> &'a Function
        ensures { result.now ≡ self.now }
    {
        self.function
    }

    /// The type of a component, if it is there.
    pub fn component_type(&self, component: u32) -> Option<ScalarType>
        ensures { result ≡ slice_get (component_types self.now.variables) component }
    {
        self.types.get(component as usize).copied()
    }

    /// The place of a label, or the end of the body.
    pub fn place(&self, label: u32) -> usize
        ensures { result ≡ place_of self.now.body label }
    {
        match self.places.get(label as usize) {
            Some(place) => *place,
            None => label_place(self.function.body.as_slice(), label),
        }
    }

    /// The number of a variable's first component.
    pub fn first_component(&self, variable: u32) -> usize
        ensures { result ≡ first_component self.now.variables variable }
    {
        match self.firsts.get(variable as usize) {
            Some(first) => *first,
            None => self.components,
        }
    }

    /// The number of a variable's components.
    pub fn components_of(&self, variable: u32) -> usize
        ensures { result ≡ components_of self.now.variables variable }
    {
        match self.function.variables.as_slice().get(variable as usize) {
            Some(found) => found.types.len(),
            None => 0,
        }
    }

    /// The number of components.
    pub fn components(&self) -> usize
        ensures { result ≡ components_in self.now.variables }
    {
        self.components
    }

    /// The number of parameters' components.
    pub fn parameter_components(&self) -> usize
        ensures { result ≡ parameter_components self.now }
    {
        self.parameter_count
    }
}
