//! Whether the types of two symbols match.
ghost use Rattle.std.specs.Prelude.{◌≡◌, take};
ghost use Rattle.std.specs.Cmp.Lexicographic.{pointwise};
ghost use Rattle.gimple_ir.specs.Lattices.{same_type as type_equals};
ghost use Rattle.symbol_resolution.specs.NameFaults.{same_result as result_equals, same_element as element_equals, parameters_of, same_components as components_equal, same_function as function_matches, same_array as array_matches};

use gimple_ir::{Array, ElementType, Function, ResultType, ScalarType, Variable};

fn same_result(a: ResultType, b: ResultType) -> bool
    ensures { result ≡ result_equals a b }
{
    match (a, b) {
        (ResultType::Void, ResultType::Void) => true,
        (ResultType::Scalar(a), ResultType::Scalar(b)) => a == b,
        _ => false,
    }
}

fn same_element(a: ElementType, b: ElementType) -> bool
    ensures { result ≡ element_equals a b }
{
    match (a, b) {
        (ElementType::UnsignedChar, ElementType::UnsignedChar) => true,
        (ElementType::Scalar(a), ElementType::Scalar(b)) => a == b,
        _ => false,
    }
}

fn same_type(a: ScalarType, b: ScalarType) -> bool
    ensures { result ≡ type_equals a b }
{
    a == b
}

fn same_types(a: &[ScalarType], b: &[ScalarType]) -> bool
    ensures { result ≡ pointwise type_equals a.now b.now }
{
    if a.len() != b.len() {
        return false;
    }
    for (place, ty) in a.iter().enumerate() {
        if !same_type(*ty, b[place]) {
            return false;
        }
    }
    true
}

fn same_components(a: &Variable, b: &Variable) -> bool
    ensures { result ≡ components_equal a.now b.now }
{
    same_types(a.types.as_slice(), b.types.as_slice())
}

fn same_parameters(a: &[Variable], b: &[Variable]) -> bool
    ensures { result ≡ pointwise components_equal a.now b.now }
{
    if a.len() != b.len() {
        return false;
    }
    for (place, variable) in a.iter().enumerate() {
        if !same_components(variable, &b[place]) {
            return false;
        }
    }
    true
}

/// The parameters of a function.
pub fn parameters(function: &Function) -> &[Variable]
    ensures { result.now ≡ parameters_of function.now }
{
    let variables = function.variables.as_slice();
    let count = function.parameters as usize;
    if count < variables.len() {
        &variables[..count]
    } else {
        variables
    }
}

/// Equal results, and parameters whose components have equal types, split alike.
pub fn same_function(a: &Function, b: &Function) -> bool
    ensures { result ≡ function_matches a.now b.now }
{
    same_result(a.result, b.result) && same_parameters(parameters(a), parameters(b))
}

/// Equal elements and lengths.
pub fn same_array(a: &Array, b: &Array) -> bool
    ensures { result ≡ array_matches a.now b.now }
{
    same_element(a.element, b.element) && a.length == b.length
}
