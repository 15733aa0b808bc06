// Which numbers may stand where, and what is wrong with those that may not: `specs/Numbers.antt`.
ghost use Rattle.std.specs.Prelude.{◌≡◌, true, false, nat_lt};
ghost use Rattle.gimple_tokens.specs.Tokens.{lexeme_of};
ghost use Rattle.gimple_tokens.specs.Stops.{fault_at};
ghost use Rattle.gimple_tokens.specs.Numbers.{literal_limit, element_limit, limit_of, number_fault, length_fault};

use crate::token::{Suffix, TextKind, Token};
use gimple_ir::{ElementType, ScalarType};

/// Where a number stands, which decides its range.
#[derive(Clone, Copy, Debug, PartialEq, Eq)]
pub enum NumberPlace {
    /// A literal, whose type is that of its suffix.
    Literal,
    /// An initial value of an array of such elements.
    Initial(ElementType),
}

fn is_literal(negative: bool, number: u64, suffix: Suffix) -> bool
    ensures { result ≡ nat_lt number (literal_limit negative suffix) }
{
    match (suffix, negative) {
        (Suffix::Plain, false) => number < 1 << 31,
        (Suffix::Plain, true) => number <= 1 << 31,
        (Suffix::U, false) => number < 1 << 32,
        (Suffix::L, false) => number < 1 << 63,
        (Suffix::L, true) => number <= 1 << 63,
        (Suffix::Ul, false) => true,
        (Suffix::U | Suffix::Ul, true) => false,
    }
}

fn is_positive_element(number: u64, element: ElementType) -> bool
    ensures { result ≡ nat_lt number (element_limit false element) }
{
    match element {
        ElementType::Scalar(ScalarType::Int) => number < 1 << 31,
        ElementType::Scalar(ScalarType::UnsignedInt) => number < 1 << 32,
        ElementType::Scalar(ScalarType::LongInt) => number < 1 << 63,
        ElementType::Scalar(ScalarType::LongUnsignedInt) => true,
        ElementType::UnsignedChar => number < 1 << 8,
    }
}

fn is_negated_element(number: u64, element: ElementType) -> bool
    ensures { result ≡ nat_lt number (element_limit true element) }
{
    match element {
        ElementType::Scalar(ScalarType::Int) => number <= 1 << 31,
        ElementType::Scalar(ScalarType::LongInt) => number <= 1 << 63,
        ElementType::Scalar(ScalarType::UnsignedInt | ScalarType::LongUnsignedInt) => number < 1,
        ElementType::UnsignedChar => number < 1,
    }
}

/// Whether a number, with `-` before it or not, may stand at a place.
pub(crate) fn is_in_range(place: NumberPlace, negative: bool, number: u64, suffix: Suffix) -> bool
    ensures { result ≡ nat_lt number (limit_of place negative suffix) }
{
    match (place, suffix) {
        (NumberPlace::Literal, _) => is_literal(negative, number, suffix),
        (NumberPlace::Initial(element), Suffix::Plain) if negative => {
            is_negated_element(number, element)
        }
        (NumberPlace::Initial(element), Suffix::Plain) => is_positive_element(number, element),
        (NumberPlace::Initial(_), _) => false,
    }
}

/// The kind of the fault where a token cannot come.
pub(crate) fn fault_at(token: Token) -> TextKind
    ensures { result ≡ fault_at (lexeme_of token.entry) }
{
    match token {
        Token::Bad(kind) => kind,
        _ => TextKind::Syntax,
    }
}

/// The kind of the fault where a number must come that may stand at a place.
pub(crate) fn number_fault(place: NumberPlace, token: Token) -> TextKind
    ensures { result ≡ number_fault place (lexeme_of token.entry) }
{
    match (place, token) {
        (NumberPlace::Literal, Token::Number(_, _)) => TextKind::Literal,
        (NumberPlace::Initial(_), Token::Number(_, Suffix::Plain)) => TextKind::Literal,
        _ => fault_at(token),
    }
}

/// The kind of the fault where an array's length must come.
pub(crate) fn length_fault(token: Token) -> TextKind
    ensures { result ≡ length_fault (lexeme_of token.entry) }
{
    match token {
        Token::Number(_, Suffix::Plain) => TextKind::Literal,
        _ => fault_at(token),
    }
}
