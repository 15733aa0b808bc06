//! The numbers of the ELF-64 format and of its supplement for RISC-V, in the standards' spelling, each of them once.
//! (System V ABI, chapter 4, "ELF Header", "Sections" and "Symbol Table"; RISC-V ELF psABI, "Relocations".)

/// The first four bytes of a file.
pub const ELFMAG0: u8 = 0x7f;

pub const ELFMAG1: u8 = 0x45;

pub const ELFMAG2: u8 = 0x4c;

pub const ELFMAG3: u8 = 0x46;
/// Objects of 64 bits.
pub const ELFCLASS64: u8 = 2;
/// Numbers with the low byte first.
pub const ELFDATA2LSB: u8 = 1;
/// The format's version, as a byte of the identification and as a word of the header.
pub const EV_CURRENT: u8 = 1;
/// A file that is to be linked.
pub const ET_REL: u16 = 1;

pub const EM_RISCV: u16 = 243;

/// Types of sections: bytes of the program, symbols, strings, relocations with addends.
pub const SHT_PROGBITS: u32 = 1;

pub const SHT_SYMTAB: u32 = 2;

pub const SHT_STRTAB: u32 = 3;

pub const SHT_RELA: u32 = 4;
/// The flag of a section with compressed bytes.
pub const SHF_COMPRESSED: u64 = 0x800;
/// Flags of a section that the program's memory holds, and of one with instructions.
pub const SHF_ALLOC: u64 = 2;

pub const SHF_EXECINSTR: u64 = 4;

/// The info byte of a global function, and of a global symbol without a type (bind `STB_GLOBAL` in the high four bits).
pub const STB_GLOBAL_STT_FUNC: u8 = 0x12;

pub const STB_GLOBAL_STT_NOTYPE: u8 = 0x10;

/// Relocations: a call's pair of words, the high 20 bits of an address, and its low 12 in a load or a store.
pub const R_RISCV_CALL_PLT: u32 = 19;

pub const R_RISCV_HI20: u32 = 26;

pub const R_RISCV_LO12_I: u32 = 27;

pub const R_RISCV_LO12_S: u32 = 28;
