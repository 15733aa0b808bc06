// Registers by the names of the psABI's integer calling convention.

/// The return address.
pub const RA: u8 = 1;
/// The stack pointer.
pub const SP: u8 = 2;
/// Temporaries.
pub const T0: u8 = 5;

pub const T1: u8 = 6;

pub const T2: u8 = 7;

pub const T3: u8 = 28;
/// The first argument, and the result.
pub const A0: u8 = 10;
/// The second argument.
pub const A1: u8 = 11;
/// The third argument.
pub const A2: u8 = 12;
/// The number of a system call.
pub const A7: u8 = 17;
