//! A hart of RV64IM with its memory and its input.

ghost use Rattle.std.specs.Prelude.{◌≤◌, ◌+◌, length};

/// A hart with its memory and its input: the text begins at 0x10000, the data segment at `data_start` behind it, and `read` bytes
/// of the input have been read.
#[derive(Drop)]
pub struct Hart {
    pub text: Vec<u8>,
    pub data: Vec<u8>,
    pub data_start: u64,
    pub registers: [u64; 32],
    pub pc: u64,
    pub input: Vec<u8>,
    pub read: usize,
    ghost apart: { 65536 + length text.items ≤ data_start },
}
