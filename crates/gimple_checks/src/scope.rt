//! What a statement of one function may name, and whether it names it.
ghost use Rattle.std.specs.Prelude.{◌≡◌, IfOk};
ghost use Rattle.std.specs.List.{list_all};
ghost use Rattle.gimple_ir.specs.Statements.{component_types, knows_component, knows_operand, knows_variable, knows_argument, knows_target, knows_array, knows_function, knows_label, knows, type_of_component, ByNumber};
ghost use Rattle.gimple_ir.specs.Checks.{scope_in};

use crate::names::is_builtin;
use gimple_ir::{
    Arg, Args, Array, Case, Function, List, Module, NoMemory, Operand, ScalarType, Statement,
    Variable,
};
use std::alloc::Global;
use std::marker::Model;

/// A function of a module, with the type of each component.
#[derive(Drop)]
pub struct Scope<'a> {
    source: &'a Module,
    function: &'a Function,
    types: Vec<ScalarType>,
}

impl<'a> Model for Scope<'a> {
    ghost use Rattle.std.specs.Prelude.{◌≡◌};
    ghost use Rattle.gimple_ir.specs.Statements.{Scope as Names, component_types};
    ghost use Rattle.gimple_ir.specs.Checks.{scope_in};

    ghost Value = { Names };

    ghost view = { λ scope. scope_in scope.source.now scope.function.now };

    ghost invariant = { λ scope. scope.types.items ≡ component_types scope.function.now.variables };
}

fn component_types(alloc: Global, variables: &[Variable]) -> Result<Vec<ScalarType>, NoMemory>
    ensures { IfOk result (λ types. types.items ≡ component_types variables.now) }
{
    let mut types = Vec::new(alloc);
    for variable in variables {
        types.extend_from_slice(variable.types.as_slice())?;
    }
    Ok(types)
}

impl<'a> Scope<'a> {
    /// The scope of a function, with the types of its components laid out.
    pub fn new(
        alloc: Global,
        source: &'a Module,
        function: &'a Function,
    ) -> Result<Scope<'a>, NoMemory>
        ensures { IfOk result (λ scope. scope ≡ scope_in source.now function.now) }
    {
        let types = component_types(alloc, function.variables.as_slice())?;
        Ok(Scope {
            source,
            function,
            types,
        })
    }

    /// The function; a module's structs are told apart by their numbers.
    pub fn function(&self) -> &Function
        ensures value { result.now ≡ self.now.function }
        ensures structs { self.now.structs ≡ ByNumber }
    {
        self.function
    }

    /// The functions of the module.
    pub fn functions(&self) -> &List<Function>
        ensures { result.now ≡ self.now.functions }
    {
        &self.source.functions
    }

    /// The arrays of the module.
    pub fn arrays(&self) -> &List<Array>
        ensures { result.now ≡ self.now.arrays }
    {
        &self.source.arrays
    }

    /// The type of the component, or None where the number names none.
    pub fn type_of_component(&self, component: u32) -> Option<ScalarType>
        ensures { result ≡ type_of_component self.now component }
    {
        self.types.get(component as usize).copied()
    }

    fn knows_component(&self, component: u32) -> bool
        ensures { result ≡ knows_component self.now component }
    {
        (component as usize) < self.types.len()
    }

    fn knows_operand(&self, operand: Operand) -> bool
        ensures { result ≡ knows_operand self.now operand }
    {
        match operand {
            Operand::Component(component) => self.knows_component(component),
            Operand::Literal(_) => true,
        }
    }

    fn knows_target(&self, target: Option<u32>) -> bool
        ensures { result ≡ knows_target self.now target }
    {
        match target {
            None => true,
            Some(component) => self.knows_component(component),
        }
    }

    fn knows_variable(&self, variable: u32) -> bool
        ensures { result ≡ knows_variable self.now variable }
    {
        (variable as usize) < self.function().variables.len()
    }

    fn knows_argument(&self, argument: Arg) -> bool
        ensures { result ≡ knows_argument self.now argument }
    {
        match argument {
            Arg::One(operand) => self.knows_operand(operand),
            Arg::Whole(variable) => self.knows_variable(variable),
        }
    }

    fn knows_array(&self, array: u32) -> bool
        ensures { result ≡ knows_array self.now array }
    {
        (array as usize) < self.arrays().len()
    }

    fn knows_function(&self, function: u32) -> bool
        ensures { result ≡ knows_function self.now function }
    {
        (function as usize) < self.functions().len()
    }

    fn knows_label(&self, label: u32) -> bool
        ensures { result ≡ knows_label self.now label }
    {
        let labels = &self.function().labels;
        let place = label as usize;
        !(place < labels.len() && is_builtin(labels.get(place)))
    }

    fn knows_cases(&self, cases: &List<Case>) -> bool
        ensures { result ≡ list_all (λ c. knows_label self.now c.label) cases.now }
    {
        cases
            .as_slice()
            .iter()
            .all(|case| self.knows_label(case.label))
    }

    fn knows_arguments(&self, args: &Args) -> bool
        ensures { result ≡ list_all (knows_argument self.now) args.now }
    {
        args.as_slice()
            .iter()
            .all(|argument| self.knows_argument(*argument))
    }

    /// Whether each name in the statement is one of something of the sort that its place asks for.
    pub fn knows(&self, statement: &Statement) -> bool
        ensures { result ≡ knows self.now statement.now }
    {
        match statement {
            Statement::Nop | Statement::ReturnVoid => true,
            Statement::Label(label) | Statement::Goto(label) => self.knows_label(*label),
            Statement::Cond {
                left,
                right,
                yes,
                no,
                ..
            } => {
                self.knows_operand(*left)
                    && self.knows_operand(*right)
                    && self.knows_label(*yes)
                    && self.knows_label(*no)
            }
            Statement::Switch {
                on,
                cases,
                otherwise,
            } => {
                self.knows_operand(*on) && self.knows_label(*otherwise) && self.knows_cases(cases)
            }
            Statement::Return(operand) | Statement::Putchar(operand) | Statement::Exit(operand) => {
                self.knows_operand(*operand)
            }
            Statement::Copy { to, from }
            | Statement::Unary { to, from, .. }
            | Statement::Convert { to, from } => {
                self.knows_component(*to) && self.knows_operand(*from)
            }
            Statement::Binary {
                to,
                left,
                right,
                ..
            } => {
                self.knows_component(*to) && self.knows_operand(*left) && self.knows_operand(*right)
            }
            Statement::Load { to, array, index } => {
                self.knows_component(*to) && self.knows_array(*array) && self.knows_operand(*index)
            }
            Statement::Store { array, index, from } => {
                self.knows_array(*array) && self.knows_operand(*index) && self.knows_operand(*from)
            }
            Statement::CopyStruct { to, from } => {
                self.knows_variable(*to) && self.knows_variable(*from)
            }
            Statement::Call { to, function, args } => {
                self.knows_target(*to)
                    && self.knows_function(*function)
                    && self.knows_arguments(args)
            }
            Statement::Getchar(to) => self.knows_target(*to),
        }
    }
}
