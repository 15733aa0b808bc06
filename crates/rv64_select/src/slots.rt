//! Accesses to the frame: slots, operands and components, and how a function enters and leaves its frame.
ghost use Rattle.std.specs.Prelude.{◌≡◌, [], ◌∷◌, ◌++◌, ◌^◌, ◌<◌, ◌<ℤ◌, pos, OnOk};
ghost use Rattle.rv64_isa.specs.declared.instr.Instr.TheVariants.{Lui, Add, Ld, Sd};
ghost use Rattle.rv64_abi.specs.Offsets.{lo, upper_of};
ghost use Rattle.rv64_abi.specs.Registers.{sp, t3};
ghost use Rattle.rv64_frame.specs.Frames.{return_in};
ghost use Rattle.rv64_select.specs.Templates.{load_slot, store_slot};
ghost use Rattle.rv64_select.specs.Assembly.{plain, operand_in, set_in, assign_in, enter_code, return_items};

use crate::constants::{machine_form, put_all, put_constant};
use crate::item::Item;
use gimple_ir::{NoMemory, Operand};
use rv64_abi::{RA, SP, T0, T3, lower, upper};
use rv64_frame::FrameLayout;
use rv64_isa::Instr;

// The far slots, by an address in a register.

fn put_far_load(out: &mut Vec<Item>, register: u8, slot: i64) -> Result<(), NoMemory>
    requires { slot <ℤ pos (2 ^ 36) }
    ensures { OnOk result (out.new.items ≡ out.old.items ++ plain (Lui register (upper_of slot) ∷ (Add register register sp ∷ (Ld register register (lo slot) ∷ [])))) }
{
    let upper = upper(slot);
    let lower = lower(slot);
    put_all(
        out,
        &[
            Instr::Lui {
                rd: register,
                imm: upper,
            },
            Instr::Add {
                rd: register,
                rs1: register,
                rs2: SP,
            },
            Instr::Ld {
                rd: register,
                rs1: register,
                imm: lower,
            },
        ],
    )
}

fn put_far_store(out: &mut Vec<Item>, register: u8, slot: i64) -> Result<(), NoMemory>
    requires { slot <ℤ pos (2 ^ 36) }
    ensures { OnOk result (out.new.items ≡ out.old.items ++ plain (Lui t3 (upper_of slot) ∷ (Add t3 t3 sp ∷ (Sd t3 register (lo slot) ∷ [])))) }
{
    let upper = upper(slot);
    let lower = lower(slot);
    put_all(
        out,
        &[
            Instr::Lui { rd: T3, imm: upper },
            Instr::Add {
                rd: T3,
                rs1: T3,
                rs2: SP,
            },
            Instr::Sd {
                rs1: T3,
                rs2: register,
                imm: lower,
            },
        ],
    )
}

/// Appends what puts a slot of the frame into a register.
pub fn put_load(out: &mut Vec<Item>, register: u8, slot: u64) -> Result<(), NoMemory>
    requires { slot < 2 ^ 36 }
    ensures { OnOk result (out.new.items ≡ out.old.items ++ plain (load_slot register slot)) }
{
    if slot <= 2047 {
        return put_all(
            out,
            &[Instr::Ld {
                rd: register,
                rs1: SP,
                imm: slot as i32,
            }],
        );
    }
    put_far_load(out, register, slot as i64)
}

/// Appends what puts a register into a slot of the frame. It may change the temporary `t3`.
pub fn put_store(out: &mut Vec<Item>, register: u8, slot: u64) -> Result<(), NoMemory>
    requires { slot < 2 ^ 36 }
    ensures { OnOk result (out.new.items ≡ out.old.items ++ plain (store_slot register slot)) }
{
    if slot <= 2047 {
        return put_all(
            out,
            &[Instr::Sd {
                rs1: SP,
                rs2: register,
                imm: slot as i32,
            }],
        );
    }
    put_far_store(out, register, slot as i64)
}

/// Appends what puts an operand into a register.
pub fn put_operand(
    out: &mut Vec<Item>,
    layout: &FrameLayout,
    register: u8,
    operand: Operand,
) -> Result<(), NoMemory>
    ensures { OnOk result (out.new.items ≡ out.old.items ++ plain (operand_in layout.now register operand)) }
{
    match operand {
        Operand::Component(component) => put_load(out, register, layout.component(component)),
        Operand::Literal(value) => put_constant(out, register, machine_form(value)),
    }
}

/// Appends what puts a register into a component.
pub fn put_set(
    out: &mut Vec<Item>,
    layout: &FrameLayout,
    register: u8,
    component: u32,
) -> Result<(), NoMemory>
    ensures { OnOk result (out.new.items ≡ out.old.items ++ plain (set_in layout.now register component)) }
{
    put_store(out, register, layout.component(component))
}

/// Appends what puts a register into a component, if there is one.
pub fn put_assign(
    out: &mut Vec<Item>,
    layout: &FrameLayout,
    register: u8,
    component: Option<u32>,
) -> Result<(), NoMemory>
    ensures { OnOk result (out.new.items ≡ out.old.items ++ plain (assign_in layout.now register component)) }
{
    match component {
        None => Ok(()),
        Some(component) => put_set(out, layout, register, component),
    }
}

/// Appends what makes the frame, and keeps the return address in it.
pub fn put_enter(out: &mut Vec<Item>, layout: &FrameLayout) -> Result<(), NoMemory>
    ensures { OnOk result (out.new.items ≡ out.old.items ++ plain (enter_code layout.now.size (return_in layout.now))) }
{
    put_constant(out, T0, -i64::from(layout.size))?;
    put_all(
        out,
        &[Instr::Add {
            rd: SP,
            rs1: SP,
            rs2: T0,
        }],
    )?;
    put_store(out, RA, layout.return_address())
}

/// Appends what gives the frame back, and returns.
pub fn put_return(out: &mut Vec<Item>, layout: &FrameLayout) -> Result<(), NoMemory>
    ensures { OnOk result (out.new.items ≡ out.old.items ++ return_items layout.now) }
{
    put_load(out, RA, layout.return_address())?;
    put_constant(out, T0, i64::from(layout.size))?;
    put_all(
        out,
        &[
            Instr::Add {
                rd: SP,
                rs1: SP,
                rs2: T0,
            },
            Instr::Jalr {
                rd: 0,
                rs1: RA,
                imm: 0,
            },
        ],
    )
}
