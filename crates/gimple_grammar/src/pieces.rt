// Reads names, numbers, operands, types and variables: `specs/Pieces.antt`.
ghost use Rattle.std.specs.Prelude.{◌≡◌, false, true, Ok};
ghost use Rattle.gimple_tokens.specs.Tokens.{Word, Sign};
ghost use Rattle.gimple_tokens.specs.Reading.{head_of, same};
ghost use Rattle.gimple_tokens.specs.Stops.{past, GivesOr};
ghost use Rattle.gimple_grammar.specs.Grammar.{chain};
ghost use Rattle.gimple_grammar.specs.Adding.{AddsNext};
ghost use Rattle.gimple_grammar.specs.Pieces.{literal, field_at, place, operand, one_of, argument, arguments, long, int_or_long, scalar, variable, is_type};

use crate::syntax::{Declared, Literal, Operand, Place, Type};
use gimple_ir::{List, ScalarType};
use gimple_tokens::{Failure, Identifier, Keyword, Mark, NumberPlace, Reader};
use std::alloc::Global;

/// Passes over a sign that stands first.
pub(crate) fn skip_sign(reader: &mut Reader<'_>, mark: Mark)
    requires { same (Sign mark) (head_of reader.old) ≡ true }
    ensures { past (Sign mark) reader.old ≡ Ok reader.new }
{
    reader.pass_sign(mark);
}

/// Passes over a keyword that stands first.
pub(crate) fn skip_word(reader: &mut Reader<'_>, word: Keyword)
    requires { same (Word word) (head_of reader.old) ≡ true }
    ensures { past (Word word) reader.old ≡ Ok reader.new }
{
    reader.pass_word(word);
}

/// Reads a number that may stand at a place, with `-` before it or not.
#[tactic(auto, unfolding(crate::specs::Pieces::literal, crate::specs::Pieces::number))]
pub(crate) fn literal(reader: &mut Reader<'_>, place: NumberPlace) -> Result<Literal, Failure>
    ensures { GivesOr result reader.new ((literal place).read reader.old) }
{
    let negative = reader.is_sign(Mark::Minus);
    if negative {
        reader.expect_sign(Mark::Minus)?;
    }
    let (number, suffix) = reader.number_at(place, negative)?;
    Ok(Literal {
        negative,
        number,
        suffix,
    })
}

#[tactic(auto, unfolding(crate::specs::Pieces::field_at, crate::specs::Pieces::name))]
fn field<'a>(reader: &mut Reader<'a>) -> Result<Option<Identifier<'a>>, Failure>
    ensures { GivesOr result reader.new (field_at reader.old) }
{
    if reader.is_sign(Mark::Dot) {
        skip_sign(reader, Mark::Dot);
        return Ok(Some(reader.name()?));
    }
    Ok(None)
}

/// Reads a variable or a field of one.
#[tactic(auto, unfolding(crate::specs::Pieces::place, crate::specs::Pieces::name))]
pub(crate) fn place<'a>(reader: &mut Reader<'a>) -> Result<Place<'a>, Failure>
    ensures { GivesOr result reader.new (place.read reader.old) }
{
    let name = reader.name()?;
    let field = field(reader)?;
    Ok(Place { name, field })
}

/// Reads a place or a literal.
#[tactic(auto, unfolding(crate::specs::Pieces::operand, crate::specs::Pieces::place, crate::specs::Pieces::name))]
pub(crate) fn operand<'a>(reader: &mut Reader<'a>) -> Result<Operand<'a>, Failure>
    ensures { GivesOr result reader.new (operand.read reader.old) }
{
    if reader.has_name() {
        return Ok(Operand::Place(place(reader)?));
    }
    Ok(Operand::Literal(literal(reader, NumberPlace::Literal)?))
}

/// Reads one of two signs, and whether it is the first.
#[tactic(auto, unfolding(crate::specs::Pieces::one_of))]
pub(crate) fn one_of(reader: &mut Reader<'_>, first: Mark, second: Mark) -> Result<bool, Failure>
    ensures { GivesOr result reader.new ((one_of (Sign first) (Sign second)).read reader.old) }
{
    if reader.is_sign(first) {
        skip_sign(reader, first);
        return Ok(true);
    }
    reader.expect_sign(second)?;
    Ok(false)
}

#[tactic(auto, unfolding(crate::specs::Pieces::argument))]
fn add_argument<'a>(reader: &mut Reader<'a>, found: &mut List<Operand<'a>>) -> Result<bool, Failure>
    ensures { AddsNext result found.old found.new reader.new (argument.read reader.old) }
{
    let next = operand(reader)?;
    let more = one_of(reader, Mark::Comma, Mark::CloseRound)?;
    found.push(next)?;
    Ok(more)
}

fn some_arguments<'a>(alloc: Global, reader: &mut Reader<'a>) -> Result<List<Operand<'a>>, Failure>
    ensures { GivesOr result reader.new ((chain argument).read reader.old) }
{
    let mut found = List::new(alloc);
    let mut more = true;
    'next: while more {
        more = add_argument(reader, &mut found)?;
    }
    Ok(found)
}

/// Reads what stands between the brackets of a call, and the bracket that closes.
#[tactic(auto, unfolding(crate::specs::Pieces::arguments))]
pub(crate) fn arguments<'a>(
    alloc: Global,
    reader: &mut Reader<'a>,
) -> Result<List<Operand<'a>>, Failure>
    ensures { GivesOr result reader.new (arguments.read reader.old) }
{
    if reader.is_sign(Mark::CloseRound) {
        skip_sign(reader, Mark::CloseRound);
        return Ok(List::new(alloc));
    }
    some_arguments(alloc, reader)
}

#[tactic(auto, unfolding(crate::specs::Pieces::long))]
fn long(reader: &mut Reader<'_>) -> Result<ScalarType, Failure>
    ensures { GivesOr result reader.new (long.read reader.old) }
{
    if reader.is_word(Keyword::Int) {
        skip_word(reader, Keyword::Int);
        return Ok(ScalarType::LongInt);
    }
    reader.expect_word(Keyword::Unsigned)?;
    reader.expect_word(Keyword::Int)?;
    Ok(ScalarType::LongUnsignedInt)
}

/// Reads a scalar type that does not begin with `unsigned`.
#[tactic(auto, unfolding(crate::specs::Pieces::int_or_long))]
pub(crate) fn int_or_long(reader: &mut Reader<'_>) -> Result<ScalarType, Failure>
    ensures { GivesOr result reader.new (int_or_long.read reader.old) }
{
    if reader.is_word(Keyword::Int) {
        skip_word(reader, Keyword::Int);
        return Ok(ScalarType::Int);
    }
    reader.expect_word(Keyword::Long)?;
    long(reader)
}

/// Reads a scalar type.
#[tactic(auto, unfolding(crate::specs::Pieces::scalar))]
pub(crate) fn scalar(reader: &mut Reader<'_>) -> Result<ScalarType, Failure>
    ensures { GivesOr result reader.new (scalar.read reader.old) }
{
    if reader.is_word(Keyword::Unsigned) {
        skip_word(reader, Keyword::Unsigned);
        reader.expect_word(Keyword::Int)?;
        return Ok(ScalarType::UnsignedInt);
    }
    int_or_long(reader)
}

/// Reads a variable with its type.
#[tactic(auto, unfolding(crate::specs::Pieces::variable, crate::specs::Pieces::name))]
pub(crate) fn variable<'a>(reader: &mut Reader<'a>) -> Result<Declared<'a>, Failure>
    ensures { GivesOr result reader.new (variable.read reader.old) }
{
    if reader.is_word(Keyword::Struct) {
        skip_word(reader, Keyword::Struct);
        let tag = reader.name()?;
        let name = reader.name()?;
        return Ok(Declared {
            ty: Type::Struct(tag),
            name,
        });
    }
    let ty = scalar(reader)?;
    let name = reader.name()?;
    Ok(Declared {
        ty: Type::Scalar(ty),
        name,
    })
}

/// Whether a type stands first.
pub(crate) fn is_type(reader: &Reader<'_>) -> bool
    ensures { result ≡ is_type (head_of reader.now) }
{
    reader.is_word(Keyword::Int)
        || reader.is_word(Keyword::Unsigned)
        || reader.is_word(Keyword::Long)
        || reader.is_word(Keyword::Struct)
}
