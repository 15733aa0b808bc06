//! What the names in one function stand for, looked up in tables.
ghost use Rattle.std.specs.Prelude.{◌≡◌, ◌<◌, ◌+◌, IfOk, map, length, min};
ghost use Rattle.std.specs.List.{flat_map, position};
ghost use Rattle.std.specs.Option.{option_copied, option_map_or};
ghost use Rattle.std.specs.Str.{bytes_eq};
ghost use Rattle.gimple_ir.specs.declared.types.Operand.TheVariants.{Component};
ghost use Rattle.gimple_syntax.specs.declared.named.Named.TheVariants.{Unknown, Single};
ghost use Rattle.gimple_syntax.specs.Numbers.{nothing, number_of, item_number, at_number};
ghost use Rattle.gimple_syntax.specs.Places.{types_of, first_component, field_at, variable_at, named_by, operand_named};
ghost use Rattle.gimple_syntax.specs.Statements.{variable_named, array_named, has_type};
ghost use Rattle.gimple_syntax.specs.Items.{names_of};
ghost use Rattle.gimple_syntax.specs.Layouts.{firsts_from};

use crate::items::{Items, table_of};
use crate::lent::Lent;
use crate::literals::value_of;
use crate::named::Named;
use crate::table::{NameTable, capped};
use gimple_grammar::{Declared, FieldText, Operand as Written, Place, StructText, Type};
use gimple_ir::{NoMemory, Operand, ScalarType};
use gimple_tokens::Identifier;
use std::alloc::Global;
use std::marker::Model;

/// The number of the first component of each variable, and the type of each component.
#[derive(Drop)]
struct Layout {
    firsts: Vec<u32>,
    types: Vec<ScalarType>,
}

fn lay_out(
    alloc: Global,
    items: &Items<'_, '_>,
    variables: &[Lent<'_, Declared<'_>>],
) -> Result<Layout, NoMemory>
    ensures begun { IfOk result (λ found. found.firsts.items ≡ firsts_from items.now.structs 0 variables.now) }
    ensures typed { IfOk result (λ found. found.types.items ≡ flat_map (λ d. types_of items.now.structs d.ty) variables.now) }
{
    let mut firsts = Vec::new(alloc);
    let mut types = Vec::new(alloc);
    for variable in variables {
        firsts.push(capped(types.len()))?;
        items.add_types(&mut types, &variable.get().ty)?;
    }
    Ok(Layout { firsts, types })
}

/// The names that a function's statements may use.
#[derive(Drop)]
pub struct Scope<'s, 'i, 'b, 't> {
    items: &'s Items<'i, 't>,
    variables: Vec<Lent<'b, Declared<'t>>>,
    variable_numbers: NameTable<'t>,
    firsts: Vec<u32>,
    types: Vec<ScalarType>,
    labels: NameTable<'t>,
}

impl<'s, 'i, 'b, 't> Model for Scope<'s, 'i, 'b, 't> {
    ghost use Rattle.std.specs.Prelude.{map};
    ghost use Rattle.gimple_syntax.specs.Places.{Names};
    ghost use Rattle.gimple_syntax.specs.Items.{names_of};
    ghost use Rattle.gimple_syntax.specs.Layouts.{IsLaidOut};

    ghost Value = { Names };

    ghost view = { λ s. names_of s.items.now s.variables.items s.labels };

    ghost invariant = { λ s. IsLaidOut (names_of s.items.now s.variables.items s.labels) s.variable_numbers s.firsts.items s.types.items };
}

impl<'s, 'i, 'b, 't> Scope<'s, 'i, 'b, 't> {
    /// The names in a function with these variables, parameters first, and these labels.
    pub fn new(
        alloc: Global,
        items: &'s Items<'i, 't>,
        variables: Vec<Lent<'b, Declared<'t>>>,
        labels: Vec<&'t [u8]>,
    ) -> Result<Scope<'s, 'i, 'b, 't>, NoMemory>
        ensures { IfOk result (λ scope. scope ≡ names_of items.now variables.entry.items (map (λ l. l.now) labels.entry.items)) }
    {
        let variable_numbers = table_of(alloc, variables.as_slice())?;
        let labels = NameTable::new(alloc, labels)?;
        let Layout { firsts, types } = lay_out(alloc, items, variables.as_slice())?;
        Ok(Scope {
            items,
            variables,
            variable_numbers,
            firsts,
            types,
            labels,
        })
    }

    fn first_component(&self, variable: u32) -> u32
        requires { variable < length self.now.variables }
        ensures { result ≡ first_component self.now variable }
    {
        self.firsts[variable as usize]
    }

    fn field_at(&self, variable: u32, field: &Identifier, found: Option<&StructText>) -> Named
        requires { variable < length self.now.variables }
        ensures { result ≡ field_at self.now variable field.now (option_copied found.entry) }
    {
        let Some(text) = found else {
            return Named::Unknown;
        };
        let place = field_place(field, text.fields.as_slice());
        component_after(self.first_component(variable), place)
    }

    fn variable_at(&self, variable: u32, ty: &Type, field: Option<&Identifier>) -> Named
        requires { variable < length self.now.variables }
        ensures { result ≡ variable_at self.now variable ty.now (option_copied field.entry) }
    {
        match (ty, field) {
            (Type::Scalar(_), None) => {
                Named::Single(Operand::Component(self.first_component(variable)))
            }
            (Type::Scalar(_), Some(_)) => Named::Unknown,
            (Type::Struct(_), None) => Named::Whole(variable),
            (Type::Struct(tag), Some(name)) => {
                self.field_at(variable, name, self.items.struct_named(tag))
            }
        }
    }

    /// What the variable of this name, or a field of it, is.
    #[tactic(auto, unfolding(crate::specs::Places::named_by))]
    pub fn variable(&self, name: &Identifier, field: Option<&Identifier>) -> Named
        ensures { result ≡ variable_named self.now name.now (option_copied field.entry) }
    {
        let number = self.variable_numbers.number(name.as_slice());
        if number == 0xffff_ffff {
            return Named::Unknown;
        }
        match self.variables.get(number as usize) {
            Some(declared) => self.variable_at(number, &declared.get().ty, field),
            None => Named::Unknown,
        }
    }

    /// What the operand names.
    pub fn operand(&self, operand: &Written) -> Named
        ensures { result ≡ operand_named self.now operand.now }
    {
        match operand {
            Written::Place(place) => self.place(place),
            Written::Literal(literal) => Named::Single(Operand::Literal(value_of(*literal))),
        }
    }

    fn place(&self, place: &Place) -> Named
        ensures { result ≡ named_by self.now place.now }
    {
        self.variable(&place.name, place.field.as_ref())
    }

    /// The number of the label, or 2^32 - 1.
    pub fn label(&self, name: &Identifier) -> u32
        ensures { result ≡ number_of self.now.labels name.now }
    {
        self.labels.number(name.as_slice())
    }

    /// The number of the function of this name, or 2^32 - 1.
    pub fn function(&self, name: &Identifier) -> u32
        ensures { result ≡ item_number self.now.functions name.now }
    {
        self.items.function_number(name)
    }

    /// How many parameters the function of this number has.
    pub fn arity(&self, function: u32) -> Option<u32>
        ensures { result ≡ at_number self.now.arities function }
    {
        self.items.arity(function)
    }

    /// The array of this name, as if its number were that of a component.
    pub fn array(&self, name: &Identifier) -> Named
        ensures { result ≡ array_named self.now name.now }
    {
        let number = self.items.array_number(name);
        if number == 0xffff_ffff {
            Named::Unknown
        } else {
            Named::Single(Operand::Component(number))
        }
    }

    /// Whether the operand is a component of this type.
    pub fn has_type(&self, ty: ScalarType, operand: Operand) -> bool
        ensures { result ≡ has_type self.now ty operand }
    {
        let component = match operand {
            Operand::Component(component) => component,
            Operand::Literal(_) => 0xffff_ffff,
        };
        match self.types.get(component as usize) {
            Some(found) => ty == *found,
            None => false,
        }
    }
}

fn field_place(name: &Identifier, fields: &[FieldText]) -> Option<usize>
    ensures { result ≡ position (λ f. bytes_eq name.now f.name) fields.now }
{
    fields
        .iter()
        .position(|field| name.as_slice() == field.name.as_slice())
}

/// The component this far after the first.
fn component_after(first: u32, place: Option<usize>) -> Named
    ensures { result ≡ option_map_or (λ p. Single (Component (min (first + p) nothing))) place Unknown }
{
    match place {
        Some(p) => Named::Single(Operand::Component(first.saturating_add(capped(p)))),
        None => Named::Unknown,
    }
}
