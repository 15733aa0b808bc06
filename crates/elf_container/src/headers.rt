//! The numbers of a file and of its section headers (System V ABI, chapter 4, "Sections"), the low byte first.
ghost use Rattle.std.specs.Prelude.{◌≡◌, ◌≤◌, ◌+◌, ◌*◌, length, IfOk};
ghost use Rattle.std.specs.Int.{w16, w32, w64};
ghost use Rattle.elf_container.specs.Reading.{number, header_at, headers_at};

use gimple_ir::NoMemory;
use std::alloc::Global;

/// What a section header tells that is not the same in each: the name's offset in `.shstrtab`, the type, the flags, the bytes'
/// offset and size in the file, link, info and the size of an entry.
#[derive(Clone, Copy)]
pub struct Header {
    pub name: u32,
    pub kind: u32,
    pub flags: u64,
    pub offset: u64,
    pub size: u64,
    pub link: u32,
    pub info: u32,
    pub entry_size: u64,
}

#[tactic(auto, unfolding(crate::specs::Reading::number))]
pub fn number16(bytes: &[u8], at: usize) -> u16
    requires { at + 2 ≤ length bytes.now }
    ensures { result ≡ number w16 at bytes.now }
{
    let (_, back) = bytes.split_at(at);
    let (front, _) = back.split_at(2);
    u16::from_le_bytes([front[0], front[1]])
}

#[tactic(auto, unfolding(crate::specs::Reading::number))]
pub fn number32(bytes: &[u8], at: usize) -> u32
    requires { at + 4 ≤ length bytes.now }
    ensures { result ≡ number w32 at bytes.now }
{
    let (_, back) = bytes.split_at(at);
    let (front, _) = back.split_at(4);
    u32::from_le_bytes([front[0], front[1], front[2], front[3]])
}

#[tactic(auto, unfolding(crate::specs::Reading::number))]
pub fn number64(bytes: &[u8], at: usize) -> u64
    requires { at + 8 ≤ length bytes.now }
    ensures { result ≡ number w64 at bytes.now }
{
    let (_, back) = bytes.split_at(at);
    let (front, _) = back.split_at(8);
    u64::from_le_bytes([
        front[0], front[1], front[2], front[3], front[4], front[5], front[6], front[7],
    ])
}

fn header_from(bytes: &[u8], at: usize) -> Header
    requires { at + 64 ≤ length bytes.now }
    ensures { result ≡ header_at at bytes.now }
{
    Header {
        name: number32(bytes, at),
        kind: number32(bytes, at + 4),
        flags: number64(bytes, at + 8),
        offset: number64(bytes, at + 24),
        size: number64(bytes, at + 32),
        link: number32(bytes, at + 40),
        info: number32(bytes, at + 44),
        entry_size: number64(bytes, at + 56),
    }
}

/// The headers from a place on.
pub fn headers(
    alloc: Global,
    bytes: &[u8],
    at: usize,
    count: usize,
) -> Result<Vec<Header>, NoMemory>
    requires { at + 64 * count ≤ length bytes.now }
    ensures value { IfOk result (λ headers. headers.items ≡ headers_at count at bytes.now) }
    ensures count { IfOk result (λ headers. length headers.items ≡ count) }
{
    let mut headers = Vec::new(alloc);
    for place in 0..count {
        headers.push(header_from(bytes, at + 64 * place))?;
    }
    Ok(headers)
}
