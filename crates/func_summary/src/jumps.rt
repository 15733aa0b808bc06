//! The jump functions of the components of a function.
ghost use Rattle.std.specs.Prelude.{◌≡◌, ◌<◌, length, nat_eq, IfOk, All};
ghost use Rattle.gimple_ir.specs.CodeBound.{components_in};
ghost use Rattle.func_summary.specs.JumpFunctions.{keeps_entry, over_entry, sole_value, assignments_to, assignments_of, component_jump};
ghost use Rattle.func_summary.specs.Tables.{assigned_of};
ghost use Rattle.func_summary.specs.Ready.{CanCompute};

use crate::assignments::{Assigned, assignment_table};
use crate::layout::Layout;
use gimple_ir::{JumpFunction, NoMemory};
use std::alloc::Global;
use std::marker::Model;

/// A function, with how often each of its components is assigned.
#[derive(Drop)]
pub struct Jumps<'a> {
    layout: &'a Layout<'a>,
    assigned: Vec<Assigned>,
}

impl<'a> Model for Jumps<'a> {
    ghost use Rattle.std.specs.Prelude.{◌≡◌};
    ghost use Rattle.gimple_ir.specs.declared.types.Function.{Function as Source};
    ghost use Rattle.gimple_ir.specs.CodeBound.{components_in};
    ghost use Rattle.func_summary.specs.JumpFunctions.{assignments_of};
    ghost use Rattle.func_summary.specs.Tables.{assigned_table};

    ghost Value = { Source };

    ghost view = { λ jumps. jumps.layout.now };

    ghost invariant = { λ jumps. jumps.assigned.items ≡ assigned_table (components_in jumps.layout.now.variables) (assignments_of jumps.layout.now) };
}

impl<'a> Jumps<'a> {
    /// Counts the assignments of the body, in one pass.
    pub fn new(alloc: Global, layout: &'a Layout<'a>) -> Result<Jumps<'a>, NoMemory>
        requires { All CanCompute layout.now.body }
        ensures { IfOk result (λ jumps. jumps ≡ layout.now) }
    {
        let assigned = assignment_table(alloc, layout)?;
        Ok(Jumps { layout, assigned })
    }

    /// The function's layout.
    pub fn layout(&self) -> &Layout
        ensures { result.now ≡ self.now }
    {
        self.layout
    }

    fn row(&self, component: u32) -> Assigned
        requires { component < components_in self.now.variables }
        ensures { result ≡ assigned_of (assignments_to component (assignments_of self.now)) }
    {
        self.assigned[component as usize]
    }

    /// What the component is given that exactly one statement assigns, and else `Unknown`.
    fn sole_value(&self, component: u32) -> JumpFunction
        requires { component < components_in self.now.variables }
        ensures { result ≡ sole_value (assignments_to component (assignments_of self.now)) }
    {
        match self.row(component) {
            Assigned::Never => JumpFunction::Unknown,
            Assigned::Once(value) => value,
            Assigned::Often => JumpFunction::Unknown,
        }
    }

    fn is_never_assigned(&self, component: u32) -> bool
        requires { component < components_in self.now.variables }
        ensures { result ≡ nat_eq (length (assignments_to component (assignments_of self.now))) 0 }
    {
        match self.row(component) {
            Assigned::Never => true,
            Assigned::Once(_) => false,
            Assigned::Often => false,
        }
    }

    /// Whether the component is one of a parameter that no statement assigns.
    fn keeps_entry(&self, component: u32) -> bool
        ensures { result ≡ keeps_entry self.now component }
    {
        component < self.layout.parameters() && self.is_never_assigned(component)
    }

    /// The jump function where it reads nothing but a component with its entry value, and else `Unknown`.
    fn over_entry(&self, value: JumpFunction) -> JumpFunction
        ensures { result ≡ over_entry self.now value }
    {
        let is_known = match value {
            JumpFunction::Unknown | JumpFunction::Const(_) => true,
            JumpFunction::Pass(component)
            | JumpFunction::Unary(_, component)
            | JumpFunction::Convert(_, component)
            | JumpFunction::Left(_, component, _)
            | JumpFunction::Right(_, _, component) => self.keeps_entry(component),
        };
        if is_known {
            value
        } else {
            JumpFunction::Unknown
        }
    }

    /// The jump function of a component that stands as an argument.
    pub fn component_jump(&self, component: u32) -> JumpFunction
        requires { component < components_in self.now.variables }
        ensures { result ≡ component_jump self.now component }
    {
        if self.layout.is_parameter(component) {
            self.over_entry(JumpFunction::Pass(component))
        } else {
            self.over_entry(self.sole_value(component))
        }
    }
}
