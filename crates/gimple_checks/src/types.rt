//! Whether the types in a statement are those that it asks for.
ghost use Rattle.std.specs.Prelude.{◌≡◌, slice_get, Some};
ghost use Rattle.std.specs.List.{list_all, zip};
ghost use Rattle.std.specs.Option.{option_copied};
ghost use Rattle.gimple_ir.specs.Statements.{type_of, read_type, type_of_element, type_of_result, type_of_call, alike, is_comparison, is_shift, binary_fits, same_struct, is_of_type, copies_struct, argument_fits, arguments_fit, result_fits, is_void, types_fit, ByNumber};

use crate::scope::Scope;
use gimple_ir::{
    Arg, Args, BinaryOp, Case, ElementType, List, Operand, ResultType, ScalarType, Statement,
    VarType, Variable,
};

fn alike(left: Option<ScalarType>, right: Option<ScalarType>) -> bool
    ensures { result ≡ alike left right }
{
    match (left, right) {
        (Some(a), Some(b)) => a == b,
        _ => false,
    }
}

fn is_int(found: Option<ScalarType>) -> bool
    ensures { result ≡ alike (Some ScalarType.Int) found }
{
    alike(Some(ScalarType::Int), found)
}

fn read_type(element: ElementType) -> ScalarType
    ensures { result ≡ read_type element }
{
    match element {
        ElementType::Scalar(ty) => ty,
        ElementType::UnsignedChar => ScalarType::Int,
    }
}

fn type_of_result(returned: ResultType) -> Option<ScalarType>
    ensures { result ≡ type_of_result returned }
{
    match returned {
        ResultType::Void => None,
        ResultType::Scalar(ty) => Some(ty),
    }
}

fn is_comparison(op: BinaryOp) -> bool
    ensures { result ≡ is_comparison op }
{
    match op {
        BinaryOp::Eq | BinaryOp::Ne | BinaryOp::Lt | BinaryOp::Le | BinaryOp::Gt | BinaryOp::Ge =>
            true,
        _ => false,
    }
}

fn is_shift(op: BinaryOp) -> bool
    ensures { result ≡ is_shift op }
{
    match op {
        BinaryOp::Shl | BinaryOp::Shr => true,
        _ => false,
    }
}

fn binary_fits(
    op: BinaryOp,
    to: Option<ScalarType>,
    left: Option<ScalarType>,
    right: Option<ScalarType>,
) -> bool
    ensures { result ≡ binary_fits op to left right }
{
    if is_comparison(op) {
        alike(to, Some(ScalarType::Int)) && alike(left, right)
    } else if is_shift(op) {
        alike(to, left)
    } else {
        alike(to, left) && alike(to, right)
    }
}

fn same_struct(left: VarType, right: VarType) -> bool
    ensures { result ≡ same_struct left right }
{
    match (left, right) {
        (VarType::Struct(a), VarType::Struct(b)) => a == b,
        _ => false,
    }
}

fn is_of_type(ty: VarType, found: Option<ScalarType>) -> bool
    ensures { result ≡ is_of_type ty found }
{
    match ty {
        VarType::Scalar(scalar) => alike(Some(scalar), found),
        VarType::Struct(_) => false,
    }
}

fn is_void(returned: ResultType) -> bool
    ensures { result ≡ is_void returned }
{
    match returned {
        ResultType::Void => true,
        ResultType::Scalar(_) => false,
    }
}

fn cases_alike(found: Option<ScalarType>, cases: &List<Case>) -> bool
    ensures { result ≡ list_all (λ c. alike found (Some c.value.ty)) cases.now }
{
    cases
        .as_slice()
        .iter()
        .all(|case| alike(found, Some(case.value.ty)))
}

impl<'a> Scope<'a> {
    fn type_of(&self, operand: Operand) -> Option<ScalarType>
        ensures { result ≡ type_of self.now operand }
    {
        match operand {
            Operand::Component(component) => self.type_of_component(component),
            Operand::Literal(value) => Some(value.ty),
        }
    }

    fn type_of_element(&self, array: u32) -> Option<ScalarType>
        ensures { result ≡ type_of_element self.now array }
    {
        let arrays = self.arrays();
        let place = array as usize;
        if place < arrays.len() {
            Some(read_type(arrays.get(place).element))
        } else {
            None
        }
    }

    fn type_of_call(&self, function: u32) -> Option<ScalarType>
        ensures { result ≡ type_of_call self.now function }
    {
        let functions = self.functions();
        let place = function as usize;
        if place < functions.len() {
            type_of_result(functions.get(place).result)
        } else {
            None
        }
    }

    fn variable(&self, number: u32) -> Option<&Variable>
        ensures value { option_copied result ≡ slice_get self.now.function.variables number }
        ensures structs { self.now.structs ≡ ByNumber }
    {
        self.function().variables.as_slice().get(number as usize)
    }

    fn copies_struct(&self, to: u32, from: u32) -> bool
        ensures { result ≡ copies_struct self.now to from }
    {
        match (self.variable(to), self.variable(from)) {
            (Some(target), Some(source)) => same_struct(target.ty, source.ty),
            _ => false,
        }
    }

    fn argument_fits(&self, argument: Arg, parameter: &Variable) -> bool
        ensures { result ≡ argument_fits self.now argument parameter.now }
    {
        let function = self.function();
        match argument {
            Arg::One(operand) => is_of_type(parameter.ty, self.type_of(operand)),
            Arg::Whole(number) => match function.variables.as_slice().get(number as usize) {
                Some(variable) => same_struct(variable.ty, parameter.ty),
                None => false,
            },
        }
    }

    fn each_fits(&self, args: &[Arg], parameters: &[Variable]) -> bool
        ensures { result ≡ list_all (λ pair. argument_fits self.now pair.0 pair.1) (zip args.now parameters.now) }
    {
        args.iter().zip(parameters.iter()).all(|(argument, parameter)| self.argument_fits(
            *argument, parameter,
        ))
    }

    fn arguments_fit(&self, function: u32, args: &Args) -> bool
        ensures { result ≡ arguments_fit self.now function args.now }
    {
        let functions = self.functions();
        let place = function as usize;
        if place >= functions.len() {
            return false;
        }
        self.each_fits(args.as_slice(), functions.get(place).variables.as_slice())
    }

    fn result_fits(&self, to: Option<u32>, found: Option<ScalarType>) -> bool
        ensures { result ≡ result_fits self.now to found }
    {
        match to {
            None => true,
            Some(component) => alike(self.type_of_component(component), found),
        }
    }

    /// Whether the types in the statement are those that it asks for.
    pub fn types_fit(&self, statement: &Statement) -> bool
        ensures { result ≡ types_fit self.now statement.now }
    {
        match statement {
            Statement::Nop | Statement::Label(_) | Statement::Goto(_) | Statement::Convert { .. } =>
                true,
            Statement::Cond {
                op,
                left,
                right,
                ..
            } => is_comparison(*op) && alike(self.type_of(*left), self.type_of(*right)),
            Statement::Switch { on, cases, .. } => { cases_alike(self.type_of(*on), cases) }
            Statement::ReturnVoid => is_void(self.function().result),
            Statement::Return(operand) => {
                alike(
                    type_of_result(self.function().result),
                    self.type_of(*operand),
                )
            }
            Statement::Copy { to, from } | Statement::Unary { to, from, .. } => {
                alike(self.type_of_component(*to), self.type_of(*from))
            }
            Statement::Binary {
                to,
                op,
                left,
                right,
            } => {
                let to = self.type_of_component(*to);
                binary_fits(*op, to, self.type_of(*left), self.type_of(*right))
            }
            Statement::Load { to, array, .. } => {
                alike(self.type_of_component(*to), self.type_of_element(*array))
            }
            Statement::Store { array, from, .. } => {
                alike(self.type_of_element(*array), self.type_of(*from))
            }
            Statement::CopyStruct { to, from } => self.copies_struct(*to, *from),
            Statement::Call { to, function, args } => {
                self.arguments_fit(*function, args)
                    && self.result_fits(*to, self.type_of_call(*function))
            }
            Statement::Getchar(to) => self.result_fits(*to, Some(ScalarType::Int)),
            Statement::Putchar(operand) | Statement::Exit(operand) => {
                is_int(self.type_of(*operand))
            }
        }
    }
}
