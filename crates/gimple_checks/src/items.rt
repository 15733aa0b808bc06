//! The first fault of a struct, an array and a function by itself.
ghost use Rattle.std.specs.Prelude.{◌≡◌, ◌<◌, ◌^◌, IfOk, length};
ghost use Rattle.std.specs.List.{list_all};
ghost use Rattle.gimple_ir.specs.Checks.{fault_at, struct_kind, array_kind, head_kind, knows_struct, statements_fault, bound_kind};

use crate::bound::code_bound;
use crate::counts::{counts_fit, is_between, is_extern};
use crate::labels::{ends_closed, labels_stand};
use crate::names::{any_builtin, is_builtin, repeats};
use crate::scope::Scope;
use gimple_ir::{
    Array, Function, NoMemory, Statement, StructDef, TypeFault, TypeKind, VarType, Variable,
};
use std::alloc::Global;

/// The fault of this kind at this place.
pub fn fault_at(item: u32, statement: u32, kind: TypeKind) -> TypeFault
    ensures { fault_at item statement (Some kind) ≡ Some result }
{
    TypeFault {
        kind,
        item,
        statement,
    }
}

/// The kind of a struct's first fault; `double` tells that its name stands before.
pub fn struct_kind(
    alloc: Global,
    double: bool,
    def: &StructDef,
) -> Result<Option<TypeKind>, NoMemory>
    ensures { IfOk result (λ kind. kind ≡ struct_kind double def.now) }
{
    let fields = def.fields.as_slice();
    let repeated = repeats(alloc, fields)?;
    Ok(if double || repeated {
        Some(TypeKind::DoubleName)
    } else if is_builtin(&def.name) || any_builtin(fields) {
        Some(TypeKind::UnknownName)
    } else if !is_between(1, 8, fields.len()) {
        Some(TypeKind::TooMany)
    } else {
        None
    })
}

/// The kind of an array's first fault; `double` tells that its name stands before.
pub fn array_kind(double: bool, array: &Array) -> Option<TypeKind>
    ensures { result ≡ array_kind double array.now }
{
    let length = array.length as usize;
    if double {
        Some(TypeKind::DoubleName)
    } else if is_builtin(&array.name) {
        Some(TypeKind::UnknownName)
    } else if !is_between(1, 67_108_864, length) || array.initial.len() > length {
        Some(TypeKind::TooMany)
    } else {
        None
    }
}

fn knows_struct(structs: usize, ty: VarType) -> bool
    ensures { result ≡ knows_struct structs ty }
{
    match ty {
        VarType::Scalar(_) => true,
        VarType::Struct(number) => (number as usize) < structs,
    }
}

fn knows_structs(structs: usize, variables: &[Variable]) -> bool
    ensures { result ≡ list_all (λ v. knows_struct structs v.ty) variables.now }
{
    variables
        .iter()
        .all(|variable| knows_struct(structs, variable.ty))
}

/// The kind of a function's first fault before its statements; `double` tells that its name stands before.
pub fn head_kind(
    alloc: Global,
    double: bool,
    structs: usize,
    function: &Function,
) -> Result<Option<TypeKind>, NoMemory>
    ensures { IfOk result (λ kind. kind ≡ head_kind double structs function.now) }
{
    let variables = function.variables.as_slice();
    let repeated = repeats(alloc, variables)?;
    let stand = labels_stand(alloc, function)?;
    Ok(if double || repeated {
        Some(TypeKind::DoubleName)
    } else if is_builtin(&function.name)
        || any_builtin(variables)
        || !knows_structs(structs, variables)
    {
        Some(TypeKind::UnknownName)
    } else if !counts_fit(function) {
        Some(TypeKind::TooMany)
    } else if !stand {
        Some(TypeKind::BadLabel)
    } else if !is_extern(function.linkage) && !ends_closed(&function.body) {
        Some(TypeKind::OpenEnd)
    } else {
        None
    })
}

/// The first fault of a statement in the function's body.
pub fn statements_fault(scope: &Scope, item: u32) -> Option<TypeFault>
    requires { length scope.now.function.body < 2 ^ 32 }
    ensures { result ≡ statements_fault scope.now item scope.now.function.body }
{
    let body = &scope.function().body;
    for place in 0..body.len() {
        if let Some(kind) = scope.statement_kind(body.get(place)) {
            return Some(fault_at(item, place as u32, kind));
        }
    }
    None
}

/// The fault of code that may be too long.
pub fn bound_kind(function: &Function) -> Option<TypeKind>
    ensures { result ≡ bound_kind function.now }
{
    if code_bound(function) > 524_288 {
        Some(TypeKind::TooMany)
    } else {
        None
    }
}
