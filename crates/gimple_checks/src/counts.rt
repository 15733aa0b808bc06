//! The counts that limits stand for. Sums stop at the greatest number of their type, far above every limit.
ghost use Rattle.std.specs.Prelude.{◌≡◌, ◌^◌, ◌-◌, min};
ghost use Rattle.gimple_ir.specs.Names.{is_between};
ghost use Rattle.gimple_ir.specs.CodeBound.{components_in, parameter_components};
ghost use Rattle.gimple_ir.specs.Checks.{counts_fit, is_extern};

use gimple_ir::{Function, Linkage, Variable};

/// Whether the number lies between the two, which count.
pub fn is_between(low: usize, high: usize, number: usize) -> bool
    ensures { result ≡ is_between low high number }
{
    low <= number && number <= high
}

/// The number of components of the variables.
pub fn components(variables: &[Variable]) -> u64
    ensures { result ≡ min (components_in variables.now) (2 ^ 64 - 1) }
{
    let mut total = 0u64;
    for variable in variables {
        total = total.saturating_add(variable.types.len() as u64);
    }
    total
}

/// The number of components of the parameters.
pub fn parameter_components(function: &Function) -> u64
    ensures { result ≡ min (parameter_components function.now) (2 ^ 64 - 1) }
{
    let variables = function.variables.as_slice();
    let parameters = function.parameters as usize;
    if parameters < variables.len() {
        components(&variables[..parameters])
    } else {
        components(variables)
    }
}

/// Whether the item is a declaration.
pub fn is_extern(linkage: Linkage) -> bool
    ensures { result ≡ is_extern linkage }
{
    match linkage {
        Linkage::Extern => true,
        Linkage::Strong | Linkage::Weak | Linkage::Static => false,
    }
}

/// Whether the counts of a function lie within their limits.
pub fn counts_fit(function: &Function) -> bool
    ensures { result ≡ counts_fit function.now }
{
    components(function.variables.as_slice()) <= 1024
        && parameter_components(function) <= 64
        && (is_extern(function.linkage) || is_between(1, 8192, function.body.len()))
}
