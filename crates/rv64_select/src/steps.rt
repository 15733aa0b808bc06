//! The step table: one function a row, and the assembly of a whole function.
ghost use Rattle.std.specs.Prelude.{◌≡◌, [], ◌∷◌, ◌++◌, ◌+◌, ◌<◌, ◌≤◌, ◌^◌, length, pos, OnOk, IfOk, All};
ghost use Rattle.std.specs.List.{flat_map};
ghost use Rattle.rv64_frame.specs.Frames.{passed_of, outgoing_of, frame_of};
ghost use Rattle.rv64_abi.specs.Registers.{t0, t1, t2, a7};
ghost use Rattle.rv64_isa.specs.declared.instr.Instr.TheVariants.{Addi, Ecall};
ghost use Rattle.rv64_select.specs.declared.item.Symbol.TheVariants as symbols;
ghost use Rattle.rv64_select.specs.declared.item.Item.TheVariants as item;
ghost use Rattle.rv64_select.specs.Operations.{branch, unary_operation, conversion, operation};
ghost use Rattle.gimple_meaning.specs.Versioned.{type_of_component, type_of, element_of};
ghost use Rattle.rv64_select.specs.Assembly.{plain, operand_in, set_in, binding_items, bindings_items, entry_items, return_items, case_items, pair_items, argument_items, address_items, step_items, assembly_of};
ghost use Rattle.gimple_meaning.specs.Versioned.{ComponentFits, OperandFits, ArrayFits, StepFits, IsVersioned};

use crate::constants::{machine_form, put_all, put_constant};
use crate::item::{Item, Symbol};
use crate::operations::{put_branch, put_conversion, put_operation, put_scaling, put_unary};
use crate::slots::{put_assign, put_enter, put_load, put_operand, put_return, put_set, put_store};
use gimple_ir::{
    BinaryOp, Binding, Case, ElementType, NoMemory, Operand, Pair, ScalarType, Step, UnaryOp,
    VersionedFunction,
};
use rv64_abi::{A0, A7, T0, T1, T2};
use rv64_frame::FrameLayout;
use rv64_isa::Instr;
use std::alloc::Global;

// ---- types

fn type_of_component(function: &VersionedFunction, component: u32) -> ScalarType
    requires { ComponentFits function.now component }
    ensures { result ≡ type_of_component function.now component }
{
    *function.types.get(component as usize)
}

fn type_of(function: &VersionedFunction, operand: Operand) -> ScalarType
    requires { OperandFits function.now operand }
    ensures { result ≡ type_of function.now operand }
{
    match operand {
        Operand::Component(component) => type_of_component(function, component),
        Operand::Literal(value) => value.ty,
    }
}

fn element_of(function: &VersionedFunction, array: u32) -> ElementType
    requires { ArrayFits function.now array }
    ensures { result ≡ element_of function.now array }
{
    function.arrays.get(array as usize).element
}

// ---- jumps

fn put_jump(out: &mut Vec<Item>, label: u32) -> Result<(), NoMemory>
    ensures { OnOk result (out.new.items ≡ out.old.items ++ item.Jump label ∷ []) }
{
    out.push(Item::Jump(label))?;
    Ok(())
}

fn put_cond(
    out: &mut Vec<Item>,
    function: &VersionedFunction,
    layout: &FrameLayout,
    op: BinaryOp,
    left: Operand,
    right: Operand,
) -> Result<(), NoMemory>
    requires { OperandFits function.now left }
    ensures { OnOk result (out.new.items ≡ out.old.items ++ (plain (operand_in layout.now t0 left) ++ (plain (operand_in layout.now t1 right) ++ plain (branch op (type_of function.now left))))) }
{
    put_operand(out, layout, T0, left)?;
    put_operand(out, layout, T1, right)?;
    put_branch(out, op, type_of(function, left))
}

fn put_case(out: &mut Vec<Item>, case: &Case) -> Result<(), NoMemory>
    ensures { OnOk result (out.new.items ≡ out.old.items ++ case_items case.now) }
{
    put_constant(out, T1, machine_form(case.value))?;
    out.push(Item::Plain(Instr::Bne {
        rs1: T0,
        rs2: T1,
        imm: 8,
    }))?;
    put_jump(out, case.label)
}

fn put_cases(out: &mut Vec<Item>, cases: &[Case]) -> Result<(), NoMemory>
    ensures { OnOk result (out.new.items ≡ out.old.items ++ flat_map case_items cases.now) }
{
    for case in cases {
        put_case(out, case)?;
    }
    Ok(())
}

// ---- moves and operations

fn put_pair(out: &mut Vec<Item>, layout: &FrameLayout, pair: &Pair) -> Result<(), NoMemory>
    ensures { OnOk result (out.new.items ≡ out.old.items ++ pair_items layout.now pair.now) }
{
    put_operand(out, layout, T0, pair.from)?;
    put_set(out, layout, T0, pair.to)
}

fn put_pairs(out: &mut Vec<Item>, layout: &FrameLayout, pairs: &[Pair]) -> Result<(), NoMemory>
    ensures { OnOk result (out.new.items ≡ out.old.items ++ flat_map (pair_items layout.now) pairs.now) }
{
    for pair in pairs {
        put_pair(out, layout, pair)?;
    }
    Ok(())
}

fn put_binary(
    out: &mut Vec<Item>,
    function: &VersionedFunction,
    layout: &FrameLayout,
    op: BinaryOp,
    left: Operand,
    right: Operand,
) -> Result<(), NoMemory>
    requires { OperandFits function.now left }
    ensures { OnOk result (out.new.items ≡ out.old.items ++ (plain (operand_in layout.now t0 left) ++ (plain (operand_in layout.now t1 right) ++ plain (operation op (type_of function.now left))))) }
{
    put_operand(out, layout, T0, left)?;
    put_operand(out, layout, T1, right)?;
    put_operation(out, op, type_of(function, left))
}

// ---- arrays

fn put_address(out: &mut Vec<Item>, element: ElementType, array: u32) -> Result<(), NoMemory>
    ensures { OnOk result (out.new.items ≡ out.old.items ++ address_items element array) }
{
    put_scaling(out, element)?;
    out.push(Item::Upper {
        rd: T2,
        symbol: Symbol::Array(array),
    })?;
    out.push(Item::Plain(Instr::Add {
        rd: T2,
        rs1: T2,
        rs2: T0,
    }))?;
    Ok(())
}

fn put_element_load(
    out: &mut Vec<Item>,
    layout: &FrameLayout,
    element: ElementType,
    array: u32,
    index: Operand,
) -> Result<(), NoMemory>
    ensures { OnOk result (out.new.items ≡ out.old.items ++ (plain (operand_in layout.now t0 index) ++ (address_items element array ++ item.Load element t0 t2 (symbols.Array array) ∷ []))) }
{
    put_operand(out, layout, T0, index)?;
    put_address(out, element, array)?;
    out.push(Item::Load {
        element,
        rd: T0,
        rs1: T2,
        symbol: Symbol::Array(array),
    })?;
    Ok(())
}

fn put_element_store(
    out: &mut Vec<Item>,
    layout: &FrameLayout,
    element: ElementType,
    array: u32,
    index: Operand,
    from: Operand,
) -> Result<(), NoMemory>
    ensures { OnOk result (out.new.items ≡ out.old.items ++ (plain (operand_in layout.now t0 index) ++ (plain (operand_in layout.now t1 from) ++ (address_items element array ++ item.Store element t2 t1 (symbols.Array array) ∷ [])))) }
{
    put_operand(out, layout, T0, index)?;
    put_operand(out, layout, T1, from)?;
    put_address(out, element, array)?;
    out.push(Item::Store {
        element,
        rs1: T2,
        rs2: T1,
        symbol: Symbol::Array(array),
    })?;
    Ok(())
}

// ---- calls

fn put_arguments(
    out: &mut Vec<Item>,
    layout: &FrameLayout,
    args: &[Operand],
) -> Result<(), NoMemory>
    requires { length args.now ≤ 64 }
    ensures { OnOk result (out.new.items ≡ out.old.items ++ argument_items layout.now 0 args.now) }
{
    for (place, argument) in args.iter().enumerate() {
        put_operand(out, layout, T0, *argument)?;
        put_store(out, T0, 8 * place as u64)?;
    }
    Ok(())
}

fn put_call(out: &mut Vec<Item>, symbol: Symbol) -> Result<(), NoMemory>
    ensures { OnOk result (out.new.items ≡ out.old.items ++ item.Call symbol ∷ []) }
{
    out.push(Item::Call(symbol))?;
    Ok(())
}

fn put_exit(out: &mut Vec<Item>) -> Result<(), NoMemory>
    ensures { OnOk result (out.new.items ≡ out.old.items ++ (item.Plain (Addi a7 0 (pos 93)) ∷ (item.Plain Ecall ∷ []))) }
{
    put_all(
        out,
        &[
            Instr::Addi {
                rd: A7,
                rs1: 0,
                imm: 93,
            },
            Instr::Ecall,
        ],
    )
}

// ---- steps

fn put_step(
    out: &mut Vec<Item>,
    function: &VersionedFunction,
    layout: &FrameLayout,
    step: &Step,
) -> Result<(), NoMemory>
    requires fits { StepFits function.now step.now }
    requires few { passed_of step.now ≤ 64 }
    ensures { OnOk result (out.new.items ≡ out.old.items ++ step_items layout.now function.now step.now) }
{
    match step {
        Step::Nop => Ok(()),
        Step::Label(label) => {
            out.push(Item::Label(*label))?;
            Ok(())
        }
        Step::Goto(label) => put_jump(out, *label),
        Step::Cond {
            op,
            left,
            right,
            yes,
            no,
        } => {
            put_cond(out, function, layout, *op, *left, *right)?;
            put_jump(out, *no)?;
            put_jump(out, *yes)
        }
        Step::Switch {
            on,
            cases,
            otherwise,
        } => {
            put_operand(out, layout, T0, *on)?;
            put_cases(out, cases.as_slice())?;
            put_jump(out, *otherwise)
        }
        Step::Return(None) => put_return(out, layout),
        Step::Return(Some(value)) => {
            put_operand(out, layout, A0, *value)?;
            put_return(out, layout)
        }
        Step::Copies(pairs) => put_pairs(out, layout, pairs.as_slice()),
        Step::Unary { to, op, from } => {
            put_operand(out, layout, T0, *from)?;
            put_unary(out, *op, type_of(function, *from))?;
            put_set(out, layout, T0, *to)
        }
        Step::Convert { to, from } => {
            put_operand(out, layout, T0, *from)?;
            put_conversion(
                out,
                type_of_component(function, *to),
                type_of(function, *from),
            )?;
            put_set(out, layout, T0, *to)
        }
        Step::Binary {
            to,
            op,
            left,
            right,
        } => {
            put_binary(out, function, layout, *op, *left, *right)?;
            put_set(out, layout, T0, *to)
        }
        Step::Load { to, array, index } => {
            put_element_load(out, layout, element_of(function, *array), *array, *index)?;
            put_set(out, layout, T0, *to)
        }
        Step::Store { array, index, from } => put_element_store(
            out,
            layout,
            element_of(function, *array),
            *array,
            *index,
            *from,
        ),
        Step::Call { to, call, args } => {
            put_arguments(out, layout, args.as_slice())?;
            put_call(out, Symbol::Target(*call))?;
            put_assign(out, layout, A0, *to)
        }
        Step::Putchar(value) => {
            put_operand(out, layout, A0, *value)?;
            put_call(out, Symbol::Putchar)
        }
        Step::Getchar(to) => {
            put_call(out, Symbol::Getchar)?;
            put_assign(out, layout, A0, *to)
        }
        Step::Exit(value) => {
            put_operand(out, layout, A0, *value)?;
            put_exit(out)
        }
    }
}

// ---- the whole function

fn put_binding(
    out: &mut Vec<Item>,
    layout: &FrameLayout,
    component: u32,
    binding: Binding,
) -> Result<(), NoMemory>
    ensures { OnOk result (out.new.items ≡ out.old.items ++ binding_items layout.now component binding) }
{
    match binding {
        Binding::Dead => return Ok(()),
        Binding::Arg(argument) => put_load(out, T0, layout.incoming(argument))?,
        Binding::Const(value) => put_constant(out, T0, machine_form(value))?,
    }
    put_set(out, layout, T0, component)
}

fn put_bindings(
    out: &mut Vec<Item>,
    layout: &FrameLayout,
    bindings: &[Binding],
) -> Result<(), NoMemory>
    requires { length bindings.now < 2 ^ 32 }
    ensures { OnOk result (out.new.items ≡ out.old.items ++ bindings_items layout.now 0 bindings.now) }
{
    for (component, binding) in bindings.iter().enumerate() {
        put_binding(out, layout, component as u32, *binding)?;
    }
    Ok(())
}

fn put_body(
    out: &mut Vec<Item>,
    function: &VersionedFunction,
    layout: &FrameLayout,
) -> Result<(), NoMemory>
    requires steps { All (StepFits function.now) function.now.body }
    requires few { outgoing_of function.now.body ≤ 64 }
    ensures { OnOk result (out.new.items ≡ out.old.items ++ flat_map (step_items layout.now function.now) function.now.body) }
{
    for step in function.body.as_slice() {
        put_step(out, function, layout, step)?;
    }
    Ok(())
}

/// The assembly of a function with its frame.
pub fn assembly(
    alloc: Global,
    function: &VersionedFunction,
    layout: &FrameLayout,
) -> Result<Vec<Item>, NoMemory>
    requires versioned { IsVersioned function.now }
    requires layout { layout.now ≡ frame_of function.now }
    ensures { IfOk result (λ items. items.items ≡ assembly_of function.now) }
{
    let mut out = Vec::new(alloc);
    put_enter(&mut out, layout)?;
    put_bindings(&mut out, layout, function.bindings.as_slice())?;
    put_body(&mut out, function, layout)?;
    Ok(out)
}
