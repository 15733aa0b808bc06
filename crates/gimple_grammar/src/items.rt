// Reads items: `specs/Items.antt`.
ghost use Rattle.std.specs.Prelude.{◌≡◌, false, true, [], ◌∷◌, IfOk};
ghost use Rattle.gimple_tokens.specs.Tokens.{Sign, End, placed};
ghost use Rattle.gimple_tokens.specs.Reading.{same, line_of};
ghost use Rattle.gimple_tokens.specs.Stops.{GivesOr};
ghost use Rattle.gimple_grammar.specs.Grammar.{◌◁◌, only, chain, many};
ghost use Rattle.gimple_grammar.specs.Adding.{AddsOne, AddsNext};
ghost use Rattle.gimple_grammar.specs.Pieces.{array_length, no_type};
ghost use Rattle.gimple_grammar.specs.Items.{field_text, fields, struct_text, headed, bracket, unsigned_head, head, initial, initials, array_rest, parameter, parameters, local, body, function_rest, defined_after, defined, extern_after, external, with_linkage, linked_of, item, item_line, module_text};

use crate::parts::{Defined, Head};
use crate::pieces::{
    int_or_long, is_type, literal, one_of, scalar, skip_sign, skip_word, variable,
};
use crate::statements::statements;
use crate::syntax::{
    ArrayText, Body, Declared, FieldText, FunctionText, Item, ItemLine, Literal, Parameters,
    StructText,
};
use gimple_ir::{ElementType, Linkage, List, ResultType, ScalarType};
use gimple_tokens::{Failure, Identifier, Keyword, Mark, NumberPlace, Reader};
use std::alloc::Global;

// ---- structs

#[tactic(auto, unfolding(crate::specs::Items::field_text, crate::specs::Pieces::name))]
fn add_field<'a>(reader: &mut Reader<'a>, found: &mut List<FieldText<'a>>) -> Result<(), Failure>
    ensures { AddsOne result found.old found.new reader.new (field_text.read reader.old) }
{
    let ty = scalar(reader)?;
    let name = reader.name()?;
    reader.expect_sign(Mark::Semicolon)?;
    found.push(FieldText { ty, name })?;
    Ok(())
}

fn more_fields<'a>(alloc: Global, reader: &mut Reader<'a>) -> Result<List<FieldText<'a>>, Failure>
    ensures { GivesOr result reader.new ((many (same (Sign Mark.CloseCurly)) field_text).read reader.old) }
{
    let mut found = List::new(alloc);
    'more: while !reader.is_sign(Mark::CloseCurly) {
        add_field(reader, &mut found)?;
    }
    Ok(found)
}

#[tactic(auto, unfolding(crate::specs::Items::struct_text, crate::specs::Items::fields, crate::specs::Pieces::name))]
pub(crate) fn struct_text<'a>(
    alloc: Global,
    reader: &mut Reader<'a>,
) -> Result<StructText<'a>, Failure>
    ensures { GivesOr result reader.new (struct_text.read reader.old) }
{
    let name = reader.name()?;
    reader.expect_sign(Mark::OpenCurly)?;
    let fields = more_fields(alloc, reader)?;
    reader.expect_sign(Mark::CloseCurly)?;
    reader.expect_sign(Mark::Semicolon)?;
    Ok(StructText { name, fields })
}

// ---- heads

fn headed<'a>(ty: ScalarType, name: Identifier<'a>, is_array: bool) -> Head<'a>
    ensures { result ≡ headed ty name.entry is_array }
{
    if is_array {
        Head::Array(ElementType::Scalar(ty), name)
    } else {
        Head::Function(ResultType::Scalar(ty), name)
    }
}

#[tactic(auto, unfolding(crate::specs::Items::bracket))]
fn bracket(reader: &mut Reader<'_>) -> Result<bool, Failure>
    ensures { GivesOr result reader.new (bracket.read reader.old) }
{
    one_of(reader, Mark::OpenSquare, Mark::OpenRound)
}

#[tactic(auto, unfolding(crate::specs::Items::unsigned_head, crate::specs::Pieces::name))]
fn unsigned_head<'a>(reader: &mut Reader<'a>) -> Result<Head<'a>, Failure>
    ensures { GivesOr result reader.new (unsigned_head.read reader.old) }
{
    if reader.is_word(Keyword::Char) {
        skip_word(reader, Keyword::Char);
        let name = reader.name()?;
        reader.expect_sign(Mark::OpenSquare)?;
        return Ok(Head::Array(ElementType::UnsignedChar, name));
    }
    reader.expect_word(Keyword::Int)?;
    let name = reader.name()?;
    let is_array = bracket(reader)?;
    Ok(headed(ScalarType::UnsignedInt, name, is_array))
}

#[tactic(auto, unfolding(crate::specs::Items::head, crate::specs::Pieces::name))]
pub(crate) fn head<'a>(reader: &mut Reader<'a>) -> Result<Head<'a>, Failure>
    ensures { GivesOr result reader.new (head.read reader.old) }
{
    if reader.is_word(Keyword::Void) {
        skip_word(reader, Keyword::Void);
        let name = reader.name()?;
        reader.expect_sign(Mark::OpenRound)?;
        return Ok(Head::Function(ResultType::Void, name));
    }
    if reader.is_word(Keyword::Unsigned) {
        skip_word(reader, Keyword::Unsigned);
        return unsigned_head(reader);
    }
    let ty = int_or_long(reader)?;
    let name = reader.name()?;
    let is_array = bracket(reader)?;
    Ok(headed(ty, name, is_array))
}

// ---- arrays

#[tactic(auto, unfolding(crate::specs::Items::initial))]
fn add_initial(
    reader: &mut Reader<'_>,
    element: ElementType,
    found: &mut List<Literal>,
) -> Result<bool, Failure>
    ensures { AddsNext result found.old found.new reader.new ((initial element).read reader.old) }
{
    let next = literal(reader, NumberPlace::Initial(element))?;
    let more = one_of(reader, Mark::Comma, Mark::CloseCurly)?;
    found.push(next)?;
    Ok(more)
}

fn some_initials(
    alloc: Global,
    reader: &mut Reader<'_>,
    element: ElementType,
) -> Result<List<Literal>, Failure>
    ensures { GivesOr result reader.new ((chain (initial element)).read reader.old) }
{
    let mut found = List::new(alloc);
    let mut more = true;
    'next: while more {
        more = add_initial(reader, element, &mut found)?;
    }
    Ok(found)
}

#[tactic(auto, unfolding(crate::specs::Items::initials))]
fn initials(
    alloc: Global,
    reader: &mut Reader<'_>,
    element: ElementType,
) -> Result<List<Literal>, Failure>
    ensures { GivesOr result reader.new ((initials element).read reader.old) }
{
    if reader.is_sign(Mark::Semicolon) {
        skip_sign(reader, Mark::Semicolon);
        return Ok(List::new(alloc));
    }
    reader.expect_sign(Mark::Equals)?;
    reader.expect_sign(Mark::OpenCurly)?;
    let found = some_initials(alloc, reader, element)?;
    reader.expect_sign(Mark::Semicolon)?;
    Ok(found)
}

#[tactic(auto, unfolding(crate::specs::Items::array_rest, crate::specs::Pieces::array_length))]
pub(crate) fn array_rest(
    alloc: Global,
    reader: &mut Reader<'_>,
    element: ElementType,
) -> Result<(u32, List<Literal>), Failure>
    ensures { GivesOr result reader.new ((array_rest element).read reader.old) }
{
    let length = reader.array_length()?;
    reader.expect_sign(Mark::CloseSquare)?;
    let initial = initials(alloc, reader, element)?;
    Ok((length, initial))
}

// ---- functions

#[tactic(auto, unfolding(crate::specs::Items::parameter))]
fn add_parameter<'a>(
    reader: &mut Reader<'a>,
    found: &mut List<Declared<'a>>,
) -> Result<bool, Failure>
    ensures { AddsNext result found.old found.new reader.new (parameter.read reader.old) }
{
    let next = variable(reader)?;
    let more = one_of(reader, Mark::Comma, Mark::CloseRound)?;
    found.push(next)?;
    Ok(more)
}

fn some_parameters<'a>(
    alloc: Global,
    reader: &mut Reader<'a>,
) -> Result<List<Declared<'a>>, Failure>
    ensures { GivesOr result reader.new ((chain parameter).read reader.old) }
{
    let mut found = List::new(alloc);
    let mut more = true;
    'next: while more {
        more = add_parameter(reader, &mut found)?;
    }
    Ok(found)
}

#[tactic(auto, unfolding(crate::specs::Items::parameters))]
pub(crate) fn parameters<'a>(
    alloc: Global,
    reader: &mut Reader<'a>,
) -> Result<Parameters<'a>, Failure>
    ensures { GivesOr result reader.new (parameters.read reader.old) }
{
    if reader.is_sign(Mark::CloseRound) {
        skip_sign(reader, Mark::CloseRound);
        return Ok(Parameters::None);
    }
    if reader.is_word(Keyword::Void) {
        skip_word(reader, Keyword::Void);
        reader.expect_sign(Mark::CloseRound)?;
        return Ok(Parameters::Void);
    }
    Ok(Parameters::Some(some_parameters(alloc, reader)?))
}

#[tactic(auto, unfolding(crate::specs::Items::local))]
fn add_local<'a>(reader: &mut Reader<'a>, found: &mut List<Declared<'a>>) -> Result<(), Failure>
    ensures { AddsOne result found.old found.new reader.new (local.read reader.old) }
{
    let next = variable(reader)?;
    reader.expect_sign(Mark::Semicolon)?;
    found.push(next)?;
    Ok(())
}

fn more_locals<'a>(alloc: Global, reader: &mut Reader<'a>) -> Result<List<Declared<'a>>, Failure>
    ensures { GivesOr result reader.new ((many no_type local).read reader.old) }
{
    let mut found = List::new(alloc);
    'more: while is_type(reader) {
        add_local(reader, &mut found)?;
    }
    Ok(found)
}

#[tactic(auto, unfolding(crate::specs::Items::body))]
fn body<'a>(alloc: Global, reader: &mut Reader<'a>) -> Result<Body<'a>, Failure>
    ensures { GivesOr result reader.new (body.read reader.old) }
{
    let locals = more_locals(alloc, reader)?;
    let lines = statements(alloc, reader)?;
    Ok(Body { locals, lines })
}

#[tactic(auto, unfolding(crate::specs::Items::function_rest))]
fn function_rest<'a>(
    alloc: Global,
    reader: &mut Reader<'a>,
) -> Result<(Parameters<'a>, Body<'a>), Failure>
    ensures { GivesOr result reader.new (function_rest.read reader.old) }
{
    let parameters = parameters(alloc, reader)?;
    reader.expect_sign(Mark::OpenCurly)?;
    let body = body(alloc, reader)?;
    Ok((parameters, body))
}

// ---- definitions and declarations

fn defined_after<'a>(
    alloc: Global,
    reader: &mut Reader<'a>,
    head: Head<'a>,
) -> Result<Defined<'a>, Failure>
    ensures { GivesOr result reader.new (defined_after head.entry reader.old) }
{
    match head {
        Head::Array(element, name) => {
            let (length, initial) = array_rest(alloc, reader, element)?;
            Ok(Defined::Array(ArrayText {
                element,
                name,
                length,
                initial,
            }))
        }
        Head::Function(ty, name) => {
            let (parameters, body) = function_rest(alloc, reader)?;
            let function = FunctionText {
                result: ty,
                name,
                parameters,
            };
            Ok(Defined::Function(function, body))
        }
    }
}

#[tactic(auto, unfolding(crate::specs::Items::defined))]
fn defined<'a>(alloc: Global, reader: &mut Reader<'a>) -> Result<Defined<'a>, Failure>
    ensures { GivesOr result reader.new (defined.read reader.old) }
{
    let head = head(reader)?;
    defined_after(alloc, reader, head)
}

#[tactic(auto, unfolding(crate::specs::Pieces::array_length))]
fn extern_length(reader: &mut Reader<'_>) -> Result<u32, Failure>
    ensures { GivesOr result reader.new ((array_length ◁ Sign Mark.CloseSquare ◁ Sign Mark.Semicolon).read reader.old) }
{
    let length = reader.array_length()?;
    reader.expect_sign(Mark::CloseSquare)?;
    reader.expect_sign(Mark::Semicolon)?;
    Ok(length)
}

fn extern_parameters<'a>(alloc: Global, reader: &mut Reader<'a>) -> Result<Parameters<'a>, Failure>
    ensures { GivesOr result reader.new ((parameters ◁ Sign Mark.Semicolon).read reader.old) }
{
    let found = parameters(alloc, reader)?;
    reader.expect_sign(Mark::Semicolon)?;
    Ok(found)
}

fn extern_after<'a>(
    alloc: Global,
    reader: &mut Reader<'a>,
    head: Head<'a>,
) -> Result<Item<'a>, Failure>
    ensures { GivesOr result reader.new (extern_after head.entry reader.old) }
{
    match head {
        Head::Array(element, name) => {
            let length = extern_length(reader)?;
            Ok(Item::ExternArray(ArrayText {
                element,
                name,
                length,
                initial: List::new(alloc),
            }))
        }
        Head::Function(ty, name) => {
            let parameters = extern_parameters(alloc, reader)?;
            Ok(Item::ExternFunction(FunctionText {
                result: ty,
                name,
                parameters,
            }))
        }
    }
}

#[tactic(auto, unfolding(crate::specs::Items::external))]
pub(crate) fn external<'a>(alloc: Global, reader: &mut Reader<'a>) -> Result<Item<'a>, Failure>
    ensures { GivesOr result reader.new (external.read reader.old) }
{
    let head = head(reader)?;
    extern_after(alloc, reader, head)
}

pub(crate) fn with_linkage<'a>(linkage: Linkage, defined: Defined<'a>) -> Item<'a>
    ensures { result ≡ with_linkage linkage defined.entry }
{
    match defined {
        Defined::Array(array) => Item::Array(linkage, array),
        Defined::Function(function, body) => Item::Function(linkage, function, body),
    }
}

fn linked<'a>(alloc: Global, reader: &mut Reader<'a>, linkage: Linkage) -> Result<Item<'a>, Failure>
    ensures { GivesOr result reader.new ((only defined (with_linkage linkage) (linked_of linkage)).read reader.old) }
{
    let defined = defined(alloc, reader)?;
    Ok(with_linkage(linkage, defined))
}

// ---- items

#[tactic(auto, unfolding(crate::specs::Items::item))]
fn item<'a>(alloc: Global, reader: &mut Reader<'a>) -> Result<Item<'a>, Failure>
    ensures { GivesOr result reader.new (item.read reader.old) }
{
    if reader.is_word(Keyword::Struct) {
        skip_word(reader, Keyword::Struct);
        return Ok(Item::Struct(struct_text(alloc, reader)?));
    }
    if reader.is_word(Keyword::Extern) {
        skip_word(reader, Keyword::Extern);
        return external(alloc, reader);
    }
    if reader.is_word(Keyword::Static) {
        skip_word(reader, Keyword::Static);
        return linked(alloc, reader, Linkage::Static);
    }
    if reader.is_word(Keyword::Weak) {
        skip_word(reader, Keyword::Weak);
        return linked(alloc, reader, Linkage::Weak);
    }
    linked(alloc, reader, Linkage::Strong)
}

/// Reads an item with its line.
#[tactic(auto, unfolding(crate::specs::Items::item_line))]
pub(crate) fn item_line<'a>(alloc: Global, reader: &mut Reader<'a>) -> Result<ItemLine<'a>, Failure>
    ensures { GivesOr result reader.new (item_line.read reader.old) }
{
    let line = reader.line();
    let item = item(alloc, reader)?;
    Ok(ItemLine { line, item })
}

fn add_item<'a>(
    alloc: Global,
    reader: &mut Reader<'a>,
    found: &mut List<ItemLine<'a>>,
) -> Result<(), Failure>
    ensures { AddsOne result found.old found.new reader.new (item_line.read reader.old) }
{
    let next = item_line(alloc, reader)?;
    found.push(next)?;
    Ok(())
}

/// Reads the items of a text, up to its end.
pub(crate) fn more_items<'a>(
    alloc: Global,
    reader: &mut Reader<'a>,
) -> Result<List<ItemLine<'a>>, Failure>
    ensures given { GivesOr result reader.new ((many (same End) item_line).read reader.old) }
    ensures end { IfOk result (λ items. reader.new ≡ placed End (line_of reader.new) ∷ []) }
{
    let mut found = List::new(alloc);
    'more: while !reader.is_end() {
        add_item(alloc, reader, &mut found)?;
    }
    Ok(found)
}
