//! The items of a module by sort, with the numbers of their names.
ghost use Rattle.std.specs.Prelude.{◌≡◌, ◌++◌, Some, IfOk, OnOk, map};
ghost use Rattle.std.specs.List.{filter_map};
ghost use Rattle.std.specs.Option.{option_copied};
ghost use Rattle.gimple_syntax.specs.Numbers.{at_number, item_number};
ghost use Rattle.gimple_syntax.specs.Places.{struct_number, usable, struct_named, types_of};
ghost use Rattle.gimple_syntax.specs.Items.{parameters_of, arity, items_of};

use crate::lent::Lent;
use crate::table::{NameTable, capped};
use gimple_grammar::{
    ArrayText, Declared, FieldText, FunctionText, Item, ItemLine, Parameters, StructText, Type,
};
use gimple_ir::{List, NoMemory, ScalarType};
use gimple_tokens::Identifier;
use std::alloc::Global;
use std::marker::Model;

/// What has a name.
pub trait HasName<'t> {
    ghost use Rattle.std.specs.Prelude.{List, ℕ};

    ghost name_of: { Self → List ℕ };

    fn name(&self) -> &'t [u8]
        ensures { result.now ≡ name_of self.now };
}

impl<'t> HasName<'t> for Declared<'t> {
    ghost name_of = { λ declared. declared.name };

    fn name(&self) -> &'t [u8] {
        self.name.as_slice()
    }
}

impl<'t> HasName<'t> for StructText<'t> {
    ghost name_of = { λ text. text.name };

    fn name(&self) -> &'t [u8] {
        self.name.as_slice()
    }
}

impl<'t> HasName<'t> for ArrayText<'t> {
    ghost name_of = { λ text. text.name };

    fn name(&self) -> &'t [u8] {
        self.name.as_slice()
    }
}

impl<'t> HasName<'t> for FunctionText<'t> {
    ghost name_of = { λ text. text.name };

    fn name(&self) -> &'t [u8] {
        self.name.as_slice()
    }
}

/// The names of what is referred to, in order.
pub fn names_of<'t, T: HasName<'t>>(
    alloc: Global,
    items: &[Lent<'_, T>],
) -> Result<Vec<&'t [u8]>, NoMemory>
    ensures { IfOk result (λ names. map (λ name. name.now) names.items ≡ map T.name_of items.now) }
{
    let mut names = Vec::new(alloc);
    for item in items {
        names.push(item.get().name())?;
    }
    Ok(names)
}

/// The numbers of their names.
pub fn table_of<'t, T: HasName<'t>>(
    alloc: Global,
    items: &[Lent<'_, T>],
) -> Result<NameTable<'t>, NoMemory>
    ensures { IfOk result (λ table. table ≡ map T.name_of items.now) }
{
    let names = names_of(alloc, items)?;
    NameTable::new(alloc, names)
}

/// The head of an item of one sort.
pub trait Sort<'t> {
    ghost use Rattle.std.specs.Prelude.{Option};
    ghost use Rattle.gimple_grammar.specs.declared.syntax.Item.{Item};

    ghost head_of: { Item → Option Self };

    fn head<'b>(item: &'b Item<'t>) -> Option<&'b Self>
        ensures { option_copied result ≡ head_of item.now };
}

impl<'t> Sort<'t> for StructText<'t> {
    ghost use Rattle.gimple_syntax.specs.Items.{struct_in};

    ghost head_of = { struct_in };

    fn head<'b>(item: &'b Item<'t>) -> Option<&'b StructText<'t>> {
        match item {
            Item::Struct(text) => Some(text),
            _ => None,
        }
    }
}

impl<'t> Sort<'t> for ArrayText<'t> {
    ghost use Rattle.gimple_syntax.specs.Items.{array_text};

    ghost head_of = { array_text };

    fn head<'b>(item: &'b Item<'t>) -> Option<&'b ArrayText<'t>> {
        match item {
            Item::ExternArray(text) => Some(text),
            Item::Array(_, text) => Some(text),
            _ => None,
        }
    }
}

impl<'t> Sort<'t> for FunctionText<'t> {
    ghost use Rattle.gimple_syntax.specs.Items.{function_head};

    ghost head_of = { function_head };

    fn head<'b>(item: &'b Item<'t>) -> Option<&'b FunctionText<'t>> {
        match item {
            Item::ExternFunction(text) => Some(text),
            Item::Function(_, text, _) => Some(text),
            _ => None,
        }
    }
}

fn heads<'b, 't, T: Sort<'t>>(
    alloc: Global,
    items: &'b [ItemLine<'t>],
) -> Result<Vec<Lent<'b, T>>, NoMemory>
    ensures { IfOk result (λ found. found.items ≡ filter_map (λ item. T.head_of item.item) items.now) }
{
    let mut found = Vec::new(alloc);
    for item in items {
        if let Some(head) = T::head(&item.item) {
            found.push(Lent::new(head))?;
        }
    }
    Ok(found)
}

/// The parameters, of which there may be none.
pub fn parameters_of<'b, 't>(parameters: &'b Parameters<'t>) -> &'b [Declared<'t>]
    ensures { result.now ≡ parameters_of parameters.now }
{
    match parameters {
        Parameters::None | Parameters::Void => &[],
        Parameters::Some(list) => list.as_slice(),
    }
}

/// The number of parameters.
pub fn arity(head: &FunctionText) -> u32
    ensures { result ≡ arity head.now }
{
    capped(parameters_of(&head.parameters).len())
}

fn arities(alloc: Global, heads: &[Lent<'_, FunctionText<'_>>]) -> Result<Vec<u32>, NoMemory>
    ensures { IfOk result (λ arities. arities.items ≡ map arity heads.now) }
{
    let mut arities = Vec::new(alloc);
    for head in heads {
        arities.push(arity(head.get()))?;
    }
    Ok(arities)
}

/// The names of a module's items.
#[derive(Drop)]
pub struct Items<'b, 't> {
    structs: Vec<Lent<'b, StructText<'t>>>,
    struct_numbers: NameTable<'t>,
    arrays: NameTable<'t>,
    functions: NameTable<'t>,
    arities: Vec<u32>,
}

impl<'b, 't> Model for Items<'b, 't> {
    ghost use Rattle.std.specs.Prelude.{◌≡◌, map};
    ghost use Rattle.gimple_syntax.specs.Items.{Items as Known};

    ghost Value = { Known };

    ghost view = { λ items. record { structs = items.structs.items; arrays = items.arrays; functions = items.functions; arities = items.arities.items } };

    ghost invariant = { λ items. items.struct_numbers ≡ map (λ text. text.name) items.structs.items };
}

impl<'b, 't> Items<'b, 't> {
    /// The items by sort, each sort in the order of the text.
    pub fn new(alloc: Global, items: &'b [ItemLine<'t>]) -> Result<Items<'b, 't>, NoMemory>
        ensures { IfOk result (λ found. found ≡ items_of items.now) }
    {
        let structs = heads::<StructText>(alloc, items)?;
        let arrays = heads::<ArrayText>(alloc, items)?;
        let functions = heads::<FunctionText>(alloc, items)?;
        let arities = arities(alloc, functions.as_slice())?;
        let struct_numbers = table_of(alloc, structs.as_slice())?;
        let arrays = table_of(alloc, arrays.as_slice())?;
        let functions = table_of(alloc, functions.as_slice())?;
        Ok(Items {
            structs,
            struct_numbers,
            arrays,
            functions,
            arities,
        })
    }

    /// The number of the struct of this tag, or 2^32 - 1.
    pub fn struct_number(&self, tag: &Identifier) -> u32
        ensures { result ≡ struct_number self.now.structs tag.now }
    {
        self.struct_numbers.number(tag.as_slice())
    }

    /// The struct of this tag, if it has at most 8 fields.
    pub fn struct_named(&self, tag: &Identifier) -> Option<&'b StructText<'t>>
        ensures { option_copied result ≡ struct_named self.now.structs tag.now }
    {
        let number = self.struct_number(tag);
        if number == 0xffff_ffff {
            return None;
        }
        match self.structs.get(number as usize) {
            Some(text) => usable(text.get()),
            None => None,
        }
    }

    /// The number of the array of this name, or 2^32 - 1.
    pub fn array_number(&self, name: &Identifier) -> u32
        ensures { result ≡ item_number self.now.arrays name.now }
    {
        item_number(&self.arrays, name)
    }

    /// The number of the function of this name, or 2^32 - 1.
    pub fn function_number(&self, name: &Identifier) -> u32
        ensures { result ≡ item_number self.now.functions name.now }
    {
        item_number(&self.functions, name)
    }

    /// How many parameters the function of this number has.
    pub fn arity(&self, function: u32) -> Option<u32>
        ensures { result ≡ at_number self.now.arities function }
    {
        if function == 0xffff_ffff {
            return None;
        }
        self.arities.get(function as usize).copied()
    }

    /// Adds the types of the components of a variable of this type.
    pub fn add_types(&self, types: &mut Vec<ScalarType>, ty: &Type) -> Result<(), NoMemory>
        ensures { OnOk result (types.new.items ≡ types.old.items ++ types_of self.now.structs ty.now) }
    {
        match ty {
            Type::Scalar(scalar) => {
                types.push(*scalar)?;
                Ok(())
            }
            Type::Struct(tag) => match self.struct_named(tag) {
                Some(text) => add_field_types(types, text.fields.as_slice()),
                None => Ok(()),
            },
        }
    }
}

fn usable<'b, 't>(text: &'b StructText<'t>) -> Option<&'b StructText<'t>>
    ensures { option_copied result ≡ usable (Some text.now) }
{
    if text.fields.len() <= 8 {
        Some(text)
    } else {
        None
    }
}

fn item_number(table: &NameTable<'_>, name: &Identifier) -> u32
    ensures { result ≡ item_number table.now name.now }
{
    if name.as_slice().starts_with(b"__builtin_") {
        0xffff_ffff
    } else {
        table.number(name.as_slice())
    }
}

fn add_field_types(types: &mut Vec<ScalarType>, fields: &[FieldText]) -> Result<(), NoMemory>
    ensures { OnOk result (types.new.items ≡ types.old.items ++ map (λ field. field.ty) fields.now) }
{
    for field in fields {
        types.push(field.ty)?;
    }
    Ok(())
}
