//! What the code of a function is made of before it has addresses: instructions, and what labels and symbols fill in.
use gimple_ir::ElementType;
use rv64_isa::Instr;

/// What code names outside of its function.
#[derive(Clone, Copy)]
pub enum Symbol {
    /// The stub that writes a byte.
    Putchar,
    /// The stub that reads a byte.
    Getchar,
    /// The target of a call, by the call's number.
    Target(u32),
    /// An array, by its number.
    Array(u32),
}

/// An item of a function's assembly. All but `Label` and `Call` are one word.
#[derive(Clone, Copy)]
pub enum Item {
    /// An instruction as it stands.
    Plain(Instr),
    /// Where a label stands; no words.
    Label(u32),
    /// A jump to a label.
    Jump(u32),
    /// A call of a symbol; two words.
    Call(Symbol),
    /// The upper part of a symbol's address into a register.
    Upper {
        rd: u8,
        symbol: Symbol,
    },
    /// An element of an array into a register; `rs1` is as far behind the upper part of the array's address as the element lies in
    /// the array.
    Load {
        element: ElementType,
        rd: u8,
        rs1: u8,
        symbol: Symbol,
    },
    /// The register `rs2` into an element of an array, with `rs1` as at `Load`.
    Store {
        element: ElementType,
        rs1: u8,
        rs2: u8,
        symbol: Symbol,
    },
}
