// Reads statements: `specs/Statements.antt`.
ghost use Rattle.std.specs.Prelude.{◌≡◌, false, true};
ghost use Rattle.gimple_tokens.specs.Tokens.{Sign};
ghost use Rattle.gimple_tokens.specs.Reading.{same};
ghost use Rattle.gimple_tokens.specs.Stops.{GivesOr};
ghost use Rattle.gimple_grammar.specs.Grammar.{◌▷◌, ◌◁◌, ◌then◌, only, many};
ghost use Rattle.gimple_grammar.specs.Adding.{AddsOne};
ghost use Rattle.gimple_grammar.specs.Pieces.{number, operand};
ghost use Rattle.gimple_grammar.specs.Statements.{after, value_of, number_made, number_parts, negative, store_made, store_of, name_tail, named_by, right, tail, branches, condition, case_label, cases, selection, returned, if_of, switch_of, return_of, form, statement, statements};

use crate::parts::{After, NameTail};
use crate::pieces::{arguments, literal, operand, place, scalar, skip_sign, skip_word};
use crate::syntax::{
    Binary, CaseLabel, Choice, Condition, Form, Line, Literal, Operand, Place, Right, Tail,
};
use gimple_ir::List;
use gimple_tokens::{Failure, Identifier, Keyword, Mark, NumberPlace, Reader};
use std::alloc::Global;

// ---- what stands on the right of `=`

#[tactic(auto, unfolding(crate::specs::Statements::after, crate::specs::Pieces::operator))]
fn after<'a>(reader: &mut Reader<'a>) -> Result<After<'a>, Failure>
    ensures { GivesOr result reader.new (after.read reader.old) }
{
    if reader.is_sign(Mark::Semicolon) {
        skip_sign(reader, Mark::Semicolon);
        return Ok(After::End);
    }
    let op = reader.operator()?;
    let right = operand(reader)?;
    reader.expect_sign(Mark::Semicolon)?;
    Ok(After::Binary(op, right))
}

// The right side of which this is the first operand.
fn value_of<'a>(left: Operand<'a>, after: After<'a>) -> Right<'a>
    ensures { result ≡ value_of left.entry after.entry }
{
    match after {
        After::End => Right::Value(left),
        After::Binary(op, right) => Right::Binary(Binary { left, op, right }),
    }
}

// A number, and what stands after it.
#[tactic(auto, unfolding(crate::specs::Pieces::number))]
fn number_first<'a>(reader: &mut Reader<'a>, negative: bool) -> Result<Right<'a>, Failure>
    ensures { GivesOr result reader.new ((only (number NumberPlace.Literal negative then after) (number_made negative) (number_parts negative)).read reader.old) }
{
    let (number, suffix) = reader.number_at(NumberPlace::Literal, negative)?;
    let after = after(reader)?;
    let literal = Literal {
        negative,
        number,
        suffix,
    };
    Ok(value_of(Operand::Literal(literal), after))
}

#[tactic(auto, unfolding(crate::specs::Statements::negative, crate::specs::Pieces::place, crate::specs::Pieces::name, crate::specs::Pieces::number))]
fn negative<'a>(reader: &mut Reader<'a>) -> Result<Right<'a>, Failure>
    ensures { GivesOr result reader.new (negative.read reader.old) }
{
    if reader.has_name() {
        let place = place(reader)?;
        reader.expect_sign(Mark::Semicolon)?;
        return Ok(Right::Negate(Operand::Place(place)));
    }
    if reader.is_sign(Mark::Minus) {
        skip_sign(reader, Mark::Minus);
        let (number, suffix) = reader.number_at(NumberPlace::Literal, true)?;
        reader.expect_sign(Mark::Semicolon)?;
        return Ok(Right::Negate(Operand::Literal(Literal {
            negative: true,
            number,
            suffix,
        })));
    }
    number_first(reader, true)
}

#[tactic(auto, unfolding(crate::specs::Statements::name_tail, crate::specs::Pieces::name))]
fn name_tail<'a>(alloc: Global, reader: &mut Reader<'a>) -> Result<NameTail<'a>, Failure>
    ensures { GivesOr result reader.new (name_tail.read reader.old) }
{
    if reader.is_sign(Mark::OpenSquare) {
        skip_sign(reader, Mark::OpenSquare);
        let index = operand(reader)?;
        reader.expect_sign(Mark::CloseSquare)?;
        reader.expect_sign(Mark::Semicolon)?;
        return Ok(NameTail::Load(index));
    }
    if reader.is_sign(Mark::OpenRound) {
        skip_sign(reader, Mark::OpenRound);
        let arguments = arguments(alloc, reader)?;
        reader.expect_sign(Mark::Semicolon)?;
        return Ok(NameTail::Call(arguments));
    }
    if reader.is_sign(Mark::Dot) {
        skip_sign(reader, Mark::Dot);
        let field = reader.name()?;
        let after = after(reader)?;
        return Ok(NameTail::Value(Some(field), after));
    }
    Ok(NameTail::Value(None, after(reader)?))
}

// The right side that begins with this name.
fn named_by<'a>(name: Identifier<'a>, tail: NameTail<'a>) -> Right<'a>
    ensures { result ≡ named_by name.entry tail.entry }
{
    match tail {
        NameTail::Load(index) => Right::Load(name, index),
        NameTail::Call(arguments) => Right::Call(name, arguments),
        NameTail::Value(field, after) => value_of(Operand::Place(Place { name, field }), after),
    }
}

#[tactic(auto, unfolding(crate::specs::Statements::right, crate::specs::Pieces::name))]
fn right<'a>(alloc: Global, reader: &mut Reader<'a>) -> Result<Right<'a>, Failure>
    ensures { GivesOr result reader.new (right.read reader.old) }
{
    if reader.is_sign(Mark::Tilde) {
        skip_sign(reader, Mark::Tilde);
        let of = operand(reader)?;
        reader.expect_sign(Mark::Semicolon)?;
        return Ok(Right::Complement(of));
    }
    if reader.is_sign(Mark::OpenRound) {
        skip_sign(reader, Mark::OpenRound);
        let ty = scalar(reader)?;
        reader.expect_sign(Mark::CloseRound)?;
        let of = operand(reader)?;
        reader.expect_sign(Mark::Semicolon)?;
        return Ok(Right::Convert(ty, of));
    }
    if reader.is_sign(Mark::Minus) {
        skip_sign(reader, Mark::Minus);
        return negative(reader);
    }
    if reader.has_name() {
        let name = reader.name()?;
        let tail = name_tail(alloc, reader)?;
        return Ok(named_by(name, tail));
    }
    number_first(reader, false)
}

// ---- what stands after a name that begins a statement

#[tactic(auto, unfolding(crate::specs::Statements::tail, crate::specs::Pieces::name))]
fn tail<'a>(alloc: Global, reader: &mut Reader<'a>) -> Result<Tail<'a>, Failure>
    ensures { GivesOr result reader.new (tail.read reader.old) }
{
    if reader.is_sign(Mark::Colon) {
        skip_sign(reader, Mark::Colon);
        return Ok(Tail::Label);
    }
    if reader.is_sign(Mark::OpenRound) {
        skip_sign(reader, Mark::OpenRound);
        let arguments = arguments(alloc, reader)?;
        reader.expect_sign(Mark::Semicolon)?;
        return Ok(Tail::Call(arguments));
    }
    if reader.is_sign(Mark::OpenSquare) {
        return store(reader);
    }
    if reader.is_sign(Mark::Dot) {
        skip_sign(reader, Mark::Dot);
        let field = reader.name()?;
        reader.expect_sign(Mark::Equals)?;
        return Ok(Tail::AssignField(field, right(alloc, reader)?));
    }
    reader.expect_sign(Mark::Equals)?;
    Ok(Tail::Assign(right(alloc, reader)?))
}

// `[a] = b;`
fn store<'a>(reader: &mut Reader<'a>) -> Result<Tail<'a>, Failure>
    ensures { GivesOr result reader.new ((only (Sign Mark.OpenSquare ▷ operand ◁ Sign Mark.CloseSquare then Sign Mark.Equals ▷ operand ◁ Sign Mark.Semicolon) store_made store_of).read reader.old) }
{
    reader.expect_sign(Mark::OpenSquare)?;
    let index = operand(reader)?;
    reader.expect_sign(Mark::CloseSquare)?;
    reader.expect_sign(Mark::Equals)?;
    let from = operand(reader)?;
    reader.expect_sign(Mark::Semicolon)?;
    Ok(Tail::Store(index, from))
}

// ---- what stands after `if`, `switch` and `return`

#[tactic(auto, unfolding(crate::specs::Statements::branches, crate::specs::Pieces::name))]
fn branches<'a>(reader: &mut Reader<'a>) -> Result<(Identifier<'a>, Identifier<'a>), Failure>
    ensures { GivesOr result reader.new (branches.read reader.old) }
{
    reader.expect_word(Keyword::Goto)?;
    let met = reader.name()?;
    reader.expect_sign(Mark::Semicolon)?;
    reader.expect_word(Keyword::Else)?;
    reader.expect_word(Keyword::Goto)?;
    let missed = reader.name()?;
    reader.expect_sign(Mark::Semicolon)?;
    Ok((met, missed))
}

#[tactic(auto, unfolding(crate::specs::Statements::condition, crate::specs::Pieces::operator))]
fn condition<'a>(reader: &mut Reader<'a>) -> Result<Form<'a>, Failure>
    ensures { GivesOr result reader.new ((only condition Form.If if_of).read reader.old) }
{
    reader.expect_sign(Mark::OpenRound)?;
    let left = operand(reader)?;
    let op = reader.operator()?;
    let right = operand(reader)?;
    reader.expect_sign(Mark::CloseRound)?;
    let (met, missed) = branches(reader)?;
    Ok(Form::If(Condition {
        left,
        op,
        right,
        met,
        missed,
    }))
}

#[tactic(auto, unfolding(crate::specs::Statements::case_label, crate::specs::Pieces::name))]
fn add_case<'a>(reader: &mut Reader<'a>, found: &mut List<CaseLabel<'a>>) -> Result<(), Failure>
    ensures { AddsOne result found.old found.new reader.new (case_label.read reader.old) }
{
    reader.expect_sign(Mark::Comma)?;
    reader.expect_word(Keyword::Case)?;
    let value = literal(reader, NumberPlace::Literal)?;
    reader.expect_sign(Mark::Colon)?;
    let label = reader.name()?;
    found.push(CaseLabel { value, label })?;
    Ok(())
}

fn more_cases<'a>(alloc: Global, reader: &mut Reader<'a>) -> Result<List<CaseLabel<'a>>, Failure>
    ensures { GivesOr result reader.new ((many (same (Sign Mark.Greater)) case_label).read reader.old) }
{
    let mut found = List::new(alloc);
    'more: while !reader.is_sign(Mark::Greater) {
        add_case(reader, &mut found)?;
    }
    Ok(found)
}

#[tactic(auto, unfolding(crate::specs::Statements::selection, crate::specs::Statements::cases, crate::specs::Pieces::name))]
fn selection<'a>(alloc: Global, reader: &mut Reader<'a>) -> Result<Form<'a>, Failure>
    ensures { GivesOr result reader.new ((only selection Form.Switch switch_of).read reader.old) }
{
    reader.expect_sign(Mark::OpenRound)?;
    let on = operand(reader)?;
    reader.expect_sign(Mark::CloseRound)?;
    reader.expect_sign(Mark::Less)?;
    reader.expect_word(Keyword::Default)?;
    reader.expect_sign(Mark::Colon)?;
    let otherwise = reader.name()?;
    let cases = more_cases(alloc, reader)?;
    reader.expect_sign(Mark::Greater)?;
    reader.expect_sign(Mark::Semicolon)?;
    Ok(Form::Switch(Choice {
        on,
        otherwise,
        cases,
    }))
}

#[tactic(auto, unfolding(crate::specs::Statements::returned))]
fn returned<'a>(reader: &mut Reader<'a>) -> Result<Form<'a>, Failure>
    ensures { GivesOr result reader.new ((only returned Form.Return return_of).read reader.old) }
{
    if reader.is_sign(Mark::Semicolon) {
        skip_sign(reader, Mark::Semicolon);
        return Ok(Form::Return(None));
    }
    let value = operand(reader)?;
    reader.expect_sign(Mark::Semicolon)?;
    Ok(Form::Return(Some(value)))
}

// ---- statements

#[tactic(auto, unfolding(crate::specs::Statements::form, crate::specs::Pieces::name))]
fn form<'a>(alloc: Global, reader: &mut Reader<'a>) -> Result<Form<'a>, Failure>
    ensures { GivesOr result reader.new (form.read reader.old) }
{
    if reader.is_sign(Mark::Semicolon) {
        skip_sign(reader, Mark::Semicolon);
        return Ok(Form::Empty);
    }
    if reader.is_word(Keyword::Goto) {
        skip_word(reader, Keyword::Goto);
        let label = reader.name()?;
        reader.expect_sign(Mark::Semicolon)?;
        return Ok(Form::Goto(label));
    }
    if reader.is_word(Keyword::If) {
        skip_word(reader, Keyword::If);
        return condition(reader);
    }
    if reader.is_word(Keyword::Switch) {
        skip_word(reader, Keyword::Switch);
        return selection(alloc, reader);
    }
    if reader.is_word(Keyword::Return) {
        skip_word(reader, Keyword::Return);
        return returned(reader);
    }
    let name = reader.name()?;
    let tail = tail(alloc, reader)?;
    Ok(Form::Named(name, tail))
}

#[tactic(auto, unfolding(crate::specs::Statements::statement))]
fn add_statement<'a>(
    alloc: Global,
    reader: &mut Reader<'a>,
    found: &mut List<Line<'a>>,
) -> Result<(), Failure>
    ensures { AddsOne result found.old found.new reader.new (statement.read reader.old) }
{
    let line = reader.line();
    let form = form(alloc, reader)?;
    found.push(Line { line, form })?;
    Ok(())
}

fn more_statements<'a>(alloc: Global, reader: &mut Reader<'a>) -> Result<List<Line<'a>>, Failure>
    ensures { GivesOr result reader.new ((many (same (Sign Mark.CloseCurly)) statement).read reader.old) }
{
    let mut found = List::new(alloc);
    'more: while !reader.is_sign(Mark::CloseCurly) {
        add_statement(alloc, reader, &mut found)?;
    }
    Ok(found)
}

/// Reads statements, and the brace that closes.
#[tactic(auto, unfolding(crate::specs::Statements::statements))]
pub(crate) fn statements<'a>(
    alloc: Global,
    reader: &mut Reader<'a>,
) -> Result<List<Line<'a>>, Failure>
    ensures { GivesOr result reader.new (statements.read reader.old) }
{
    let found = more_statements(alloc, reader)?;
    reader.expect_sign(Mark::CloseCurly)?;
    Ok(found)
}
