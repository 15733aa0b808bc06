// Reads items without the bodies of functions: `specs/Streams.antt`.
ghost use Rattle.gimple_grammar.specs.Grammar.{only};
ghost use Rattle.gimple_grammar.specs.Items.{function_rest, defined_after, defined, with_linkage, linked_of, item, item_line};
ghost use Rattle.gimple_grammar.specs.Streams.{without_body, outline_of, defined_outline, GivesShort};

use crate::items::{array_rest, external, head, parameters, struct_text, with_linkage};
use crate::parts::{Defined, Head};
use crate::pieces::skip_word;
use crate::syntax::{ArrayText, Body, FunctionText, Item, ItemLine, Parameters};
use gimple_ir::{Linkage, List};
use gimple_tokens::{Failure, Keyword, Mark, Reader};
use std::alloc::Global;

#[tactic(auto, unfolding(crate::specs::Items::function_rest))]
fn outline_rest<'a>(alloc: Global, reader: &mut Reader<'a>) -> Result<Parameters<'a>, Failure>
    ensures { GivesShort (λ x. x.0) result reader.new (function_rest.read reader.old) }
{
    let parameters = parameters(alloc, reader)?;
    reader.expect_sign(Mark::OpenCurly)?;
    reader.skip_past_brace();
    Ok(parameters)
}

fn outline_after<'a>(
    alloc: Global,
    reader: &mut Reader<'a>,
    head: Head<'a>,
) -> Result<Defined<'a>, Failure>
    ensures { GivesShort defined_outline result reader.new (defined_after head.entry reader.old) }
{
    match head {
        Head::Array(element, name) => {
            let (length, initial) = array_rest(alloc, reader, element)?;
            Ok(Defined::Array(ArrayText {
                element,
                name,
                length,
                initial,
            }))
        }
        Head::Function(ty, name) => {
            let parameters = outline_rest(alloc, reader)?;
            let function = FunctionText {
                result: ty,
                name,
                parameters,
            };
            let body = Body {
                locals: List::new(alloc),
                lines: List::new(alloc),
            };
            Ok(Defined::Function(function, body))
        }
    }
}

#[tactic(auto, unfolding(crate::specs::Items::defined))]
fn outline_defined<'a>(alloc: Global, reader: &mut Reader<'a>) -> Result<Defined<'a>, Failure>
    ensures { GivesShort defined_outline result reader.new (defined.read reader.old) }
{
    let head = head(reader)?;
    outline_after(alloc, reader, head)
}

fn outline_linked<'a>(
    alloc: Global,
    reader: &mut Reader<'a>,
    linkage: Linkage,
) -> Result<Item<'a>, Failure>
    ensures { GivesShort without_body result reader.new ((only defined (with_linkage linkage) (linked_of linkage)).read reader.old) }
{
    let defined = outline_defined(alloc, reader)?;
    Ok(with_linkage(linkage, defined))
}

#[tactic(auto, unfolding(crate::specs::Items::item))]
fn outline_item<'a>(alloc: Global, reader: &mut Reader<'a>) -> Result<Item<'a>, Failure>
    ensures { GivesShort without_body result reader.new (item.read reader.old) }
{
    if reader.is_word(Keyword::Struct) {
        skip_word(reader, Keyword::Struct);
        return Ok(Item::Struct(struct_text(alloc, reader)?));
    }
    if reader.is_word(Keyword::Extern) {
        skip_word(reader, Keyword::Extern);
        return external(alloc, reader);
    }
    if reader.is_word(Keyword::Static) {
        skip_word(reader, Keyword::Static);
        return outline_linked(alloc, reader, Linkage::Static);
    }
    if reader.is_word(Keyword::Weak) {
        skip_word(reader, Keyword::Weak);
        return outline_linked(alloc, reader, Linkage::Weak);
    }
    outline_linked(alloc, reader, Linkage::Strong)
}

/// Reads an item with its line, of a function all but its body.
#[tactic(auto, unfolding(crate::specs::Items::item_line))]
pub(crate) fn outline_line<'a>(
    alloc: Global,
    reader: &mut Reader<'a>,
) -> Result<ItemLine<'a>, Failure>
    ensures { GivesShort outline_of result reader.new (item_line.read reader.old) }
{
    let line = reader.line();
    let item = outline_item(alloc, reader)?;
    Ok(ItemLine { line, item })
}
