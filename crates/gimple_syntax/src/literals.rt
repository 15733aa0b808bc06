//! The values of literals.
ghost use Rattle.std.specs.Prelude.{◌≡◌, IfOk, map};
ghost use Rattle.gimple_syntax.specs.Numbers.{type_of_suffix, signed, value_of, byte_of, element_of, shortened, ends_in_zero};

use gimple_grammar::Literal;
use gimple_ir::{ElementType, List, NoMemory, ScalarType, Value};
use gimple_tokens::Suffix;
use std::alloc::Global;

fn type_of_suffix(suffix: Suffix) -> ScalarType
    ensures { result ≡ type_of_suffix suffix }
{
    match suffix {
        Suffix::Plain => ScalarType::Int,
        Suffix::U => ScalarType::UnsignedInt,
        Suffix::L => ScalarType::LongInt,
        Suffix::Ul => ScalarType::LongUnsignedInt,
    }
}

fn signed(literal: Literal) -> i128
    ensures { result ≡ signed literal }
{
    let number = i128::from(literal.number);
    if literal.negative { -number } else { number }
}

/// The value of a literal, in its type's range.
pub fn value_of(literal: Literal) -> Value
    ensures { result ≡ value_of literal }
{
    let ty = type_of_suffix(literal.suffix);
    Value {
        ty,
        num: ty.from_residue(ty.residue(signed(literal))),
    }
}

fn element_of(element: ElementType, literal: Literal) -> i128
    ensures { result ≡ element_of element literal }
{
    match element {
        ElementType::Scalar(ty) => ty.from_residue(ty.residue(signed(literal))),
        ElementType::UnsignedChar => i128::from(literal.number % 256),
    }
}

fn ends_in_zero(values: &[i128]) -> bool
    ensures { result ≡ ends_in_zero values.now }
{
    match values.last() {
        Some(value) => *value == 0,
        None => false,
    }
}

fn drop_zeros(values: &mut Vec<i128>)
    ensures { values.new.items ≡ shortened values.old.items }
{
    'zeros: while ends_in_zero(values.as_slice()) {
        let _zero = values.pop();
    }
}

/// The elements' values, without the zeros at the end.
pub fn initial_of(
    alloc: Global,
    element: ElementType,
    literals: &[Literal],
) -> Result<List<i128>, NoMemory>
    ensures { IfOk result (λ values. values ≡ shortened (map (element_of element) literals.now)) }
{
    let mut values = Vec::new(alloc);
    for literal in literals {
        values.push(element_of(element, *literal))?;
    }
    drop_zeros(&mut values);
    Ok(List::from_vec(values))
}
