//! The image: headers, stubs, the code, the arrays, and zeros between them.
ghost use Rattle.std.specs.Prelude.{◌≡◌, ◌<◌, ◌≤◌, ◌+◌, ◌-◌, ◌*◌, ◌++◌, ◌^◌, OnOk, IfOk, vec_len, length, replicate};
ghost use Rattle.final_link.specs.Image.{data_address, scratch_behind, elf_header, program_header, headers_with, image_with};

use crate::bytes::{put_word, put_xwords};
use crate::stubs::put_stubs;
use gimple_ir::NoMemory;
use std::alloc::Global;

/// Where the functions begin, behind the stubs.
pub const FUNCTIONS: u32 = 0x10064;

// Where the text segment begins, in memory and in the file.
const TEXT: u64 = 0x10000;

const TEXT_OFFSET: u64 = 0x1000;

// The file header, field by field: its fields are the same for each image.
const ELF_HEADER: [u8; 64] = [
    0x7f, b'E', b'L', b'F', 2, 1, 1, 0, 0, 0, 0, 0, 0, 0, 0, 0, // identification
    2, 0, 243, 0, 1, 0, 0, 0, // type, machine, version
    0, 0, 1, 0, 0, 0, 0, 0, // entry
    64, 0, 0, 0, 0, 0, 0, 0, // where the program headers are
    0, 0, 0, 0, 0, 0, 0, 0, // where the section headers are
    0, 0, 0, 0, // flags
    64, 0, 56, 0, 2, 0, // size of this header; size and count of program headers
    0, 0, 0, 0, 0, 0, // size and count of section headers; the names' section
];

#[tactic(auto, unfolding(crate::specs::Image::elf_header, crate::specs::Image::half, crate::specs::Image::word, crate::specs::Image::xword))]
fn put_elf_header(out: &mut Vec<u8>) -> Result<(), NoMemory>
    ensures bytes { OnOk result (out.new.items ≡ out.old.items ++ elf_header) }
    ensures len { OnOk result (vec_len out.new ≡ vec_len out.old + 64) }
{
    out.extend_from_slice(&ELF_HEADER)
}

// Zeros up to this length.
fn pad(out: &mut Vec<u8>, len: usize) -> Result<(), NoMemory>
    requires { vec_len out.old ≤ len }
    ensures bytes { OnOk result (out.new.items ≡ out.old.items ++ replicate (len - vec_len out.old) 0) }
    ensures len { OnOk result (vec_len out.new ≡ len) }
{
    out.resize(len, 0)
}

// A segment's place in the file and in memory, in bytes.
#[derive(Clone, Copy)]
struct Segment {
    flags: u32,
    offset: u64,
    address: u64,
    file_size: u64,
    memory_size: u64,
}

fn put_program_header(out: &mut Vec<u8>, segment: Segment) -> Result<(), NoMemory>
    ensures bytes { OnOk result (out.new.items ≡ out.old.items ++ program_header segment.flags segment.offset segment.address segment.file_size segment.memory_size) }
    ensures len { OnOk result (vec_len out.new ≡ vec_len out.old + 56) }
{
    put_word(out, 1)?;
    put_word(out, segment.flags)?;
    let Segment {
        offset,
        address,
        file_size,
        memory_size,
        ..
    } = segment;
    put_xwords(
        out,
        &[offset, address, address, file_size, memory_size, 4096],
    )
}

// Where the data segment begins.
fn data_address(code: &[u8]) -> u32
    requires { 100 + length code.now ≤ 2 ^ 27 }
    ensures value { result ≡ data_address code.now }
    ensures behind { 0x10064 + length code.now ≤ result }
    ensures below { result < 2 ^ 28 }
{
    let text_end = FUNCTIONS + code.len() as u32;
    (text_end + 4095) / 4096 * 4096
}

// The scratch byte's place, behind arrays of so many bytes.
fn scratch_behind(arrays: u32, code: &[u8]) -> u32
    requires code { 100 + length code.now ≤ 2 ^ 27 }
    requires arrays { arrays ≤ 2 ^ 26 }
    ensures value { result ≡ scratch_behind arrays code.now }
    ensures behind { data_address code.now ≤ result }
    ensures below { result < 2 ^ 29 }
{
    (data_address(code) + arrays + 15) / 16 * 16
}

fn put_headers(
    out: &mut Vec<u8>,
    stored: u32,
    arrays: u32,
    frame: u32,
    code: &[u8],
) -> Result<(), NoMemory>
    requires code { 100 + length code.now ≤ 2 ^ 27 }
    requires arrays { arrays ≤ 2 ^ 26 }
    requires frame { frame ≤ 2 ^ 16 }
    ensures bytes { OnOk result (out.new.items ≡ out.old.items ++ headers_with stored arrays frame code.now) }
    ensures len { OnOk result (vec_len out.new ≡ vec_len out.old + 176) }
{
    let data = u64::from(data_address(code));
    let top = u64::from(scratch_behind(arrays, code)) + 16 + 4096 * u64::from(frame);
    let text_size = 100 + code.len() as u64;
    put_elf_header(out)?;
    put_program_header(
        out,
        Segment {
            flags: 5,
            offset: TEXT_OFFSET,
            address: TEXT,
            file_size: text_size,
            memory_size: text_size,
        },
    )?;
    put_program_header(
        out,
        Segment {
            flags: 6,
            offset: data - 0xf000,
            address: data,
            file_size: u64::from(stored),
            memory_size: top - data,
        },
    )
}

/// The image of a program whose functions have this code from 0x10064 on, whose `main` begins at this address, and whose
/// largest frame has this size in bytes. The bytes of arrays are stored in the file; all-zero arrays of so many bytes stand
/// behind them in memory.
pub fn make_image(
    alloc: Global,
    main: u32,
    frame: u32,
    code: &[u8],
    stored: &[u8],
    zeroed: u32,
) -> Result<Vec<u8>, NoMemory>
    requires code { 100 + length code.now ≤ 2 ^ 27 }
    requires frame { frame ≤ 2 ^ 16 }
    requires arrays { length stored.now + zeroed ≤ 2 ^ 26 }
    ensures { IfOk result (λ image. image.items ≡ image_with main frame code.now stored.now zeroed) }
{
    let arrays = stored.len() as u32 + zeroed;
    let scratch = scratch_behind(arrays, code);
    let top = scratch + 16 + 4096 * frame;
    let begin = (data_address(code) - 0xf000) as usize;
    let mut out = Vec::with_capacity(alloc, begin + stored.len())?;
    put_headers(&mut out, stored.len() as u32, arrays, frame, code)?;
    pad(&mut out, TEXT_OFFSET as usize)?;
    put_stubs(&mut out, top, scratch, main)?;
    out.extend_from_slice(code)?;
    pad(&mut out, begin)?;
    out.extend_from_slice(stored)?;
    Ok(out)
}
