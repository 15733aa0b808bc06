//! The major opcodes: bits 0 to 6 of a word (section 24, table 24.1).

/// Loads.
pub const LOAD: u8 = 0x03;
/// Operations on a register and an immediate.
pub const OP_IMM: u8 = 0x13;
/// `auipc`.
pub const AUIPC: u8 = 0x17;
/// Operations on the low 32 bits of a register and an immediate.
pub const OP_IMM_32: u8 = 0x1b;
/// Stores.
pub const STORE: u8 = 0x23;
/// Operations on two registers.
pub const OP: u8 = 0x33;
/// `lui`.
pub const LUI: u8 = 0x37;
/// Operations on the low 32 bits of two registers.
pub const OP_32: u8 = 0x3b;
/// Branches.
pub const BRANCH: u8 = 0x63;
/// `jalr`.
pub const JALR: u8 = 0x67;
/// `jal`.
pub const JAL: u8 = 0x6f;
/// Environment calls.
pub const SYSTEM: u8 = 0x73;
