//! The faults that a file's headers tell, in their order.
ghost use Rattle.std.specs.Prelude.{◌≡◌, ◌≤◌, ◌<◌, ◌^◌, ◌+◌, ◌*◌, ◌-◌, length, position, false, None, IfSome, IfNone};
ghost use Rattle.std.specs.List.{list_any};
ghost use Rattle.elf_container.specs.Reading.{mismatch, not_elf, wrong_class, wrong_machine, table_end, passes, is_compressed, form_fault, header_fault, headers as headers_of, shnum, shoff};

use crate::fault::{ElfFault, ElfKind};
use crate::format::{
    ELFCLASS64, ELFDATA2LSB, ELFMAG0, ELFMAG1, ELFMAG2, ELFMAG3, EM_RISCV, ET_REL, EV_CURRENT,
    SHF_COMPRESSED,
};
use crate::headers::{Header, number16, number32, number64};

fn fault(kind: ElfKind, offset: u64) -> Option<ElfFault>
    ensures { result ≡ Some (record { kind = kind; offset = offset }) }
{
    Some(ElfFault { kind, offset })
}

/// The first place, counted from `from`, where both have a byte and the two differ.
fn mismatch(from: u64, bytes: &[u8], wanted: &[u8]) -> Option<u64>
    requires { from + length wanted.now < 2 ^ 64 }
    ensures { result ≡ mismatch from bytes.now wanted.now }
{
    for place in 0..wanted.len() {
        if place >= bytes.len() {
            return None;
        }
        if bytes[place] != wanted[place] {
            return Some(from + place as u64);
        }
    }
    None
}

#[tactic(auto, unfolding(crate::specs::Reading::not_elf))]
fn not_elf(bytes: &[u8]) -> Option<u64>
    ensures { result ≡ not_elf bytes.now }
{
    mismatch(0, bytes, &[ELFMAG0, ELFMAG1, ELFMAG2, ELFMAG3])
}

#[tactic(auto, unfolding(crate::specs::Reading::wrong_class))]
fn wrong_class(bytes: &[u8]) -> Option<u64>
    requires { 64 ≤ length bytes.now }
    ensures { result ≡ wrong_class bytes.now }
{
    mismatch(4, &bytes[4..], &[ELFCLASS64, ELFDATA2LSB, EV_CURRENT])
}

#[tactic(auto, unfolding(crate::specs::Reading::wrong_machine))]
fn wrong_machine(bytes: &[u8]) -> Option<u64>
    requires { 64 ≤ length bytes.now }
    ensures { result ≡ wrong_machine bytes.now }
{
    if number16(bytes, 16) != ET_REL {
        return Some(16);
    }
    if number16(bytes, 18) != EM_RISCV {
        return Some(18);
    }
    if number32(bytes, 20) != u32::from(EV_CURRENT) {
        return Some(20);
    }
    None
}

/// The end of the section table by the file's header, which can pass every u64.
fn table_end(bytes: &[u8]) -> u128
    requires { 64 ≤ length bytes.now }
    ensures { result ≡ table_end bytes.now }
{
    u128::from(number64(bytes, 40)) + 64 * u128::from(number16(bytes, 60))
}

/// The first fault that the file's header tells.
#[tactic(auto, unfolding(crate::specs::Reading::form_fault))]
pub fn form_fault(bytes: &[u8]) -> Option<ElfFault>
    ensures value { result ≡ form_fault bytes.now }
    ensures long { result ≡ None → (64 ≤ length bytes.now) × (table_end bytes.now ≤ length bytes.now) }
{
    if let Some(offset) = not_elf(bytes) {
        return fault(ElfKind::NotElf, offset);
    }
    let end = bytes.len() as u64;
    if end < 64 {
        return fault(ElfKind::Truncated, end);
    }
    if let Some(offset) = wrong_class(bytes) {
        return fault(ElfKind::WrongClass, offset);
    }
    if let Some(offset) = wrong_machine(bytes) {
        return fault(ElfKind::WrongMachine, offset);
    }
    if u128::from(end) < table_end(bytes) {
        return fault(ElfKind::Truncated, end);
    }
    None
}

fn passes(end: u64, header: &Header) -> bool
    ensures { result ≡ passes end header.now }
{
    u128::from(end) < u128::from(header.offset) + u128::from(header.size)
}

fn any_passes(end: u64, headers: &[Header]) -> bool
    ensures { result ≡ list_any (passes end) headers.now }
{
    headers.iter().any(|header| passes(end, header))
}

fn compressed_place(headers: &[Header]) -> Option<usize>
    ensures value { result ≡ position is_compressed headers.now }
    ensures within { IfSome result (λ place. place < length headers.now) }
{
    headers
        .iter()
        .position(|header| header.flags & SHF_COMPRESSED != 0)
}

fn first_compressed(headers: &[Header]) -> Option<usize>
    ensures value { result ≡ position is_compressed headers.now }
    ensures within { IfSome result (λ place. place < length headers.now) }
    ensures none { IfNone result (list_any is_compressed headers.now ≡ false) }
{
    compressed_place(headers)
}

/// The first fault that the section headers tell, of a file whose own header is good.
#[tactic(auto, unfolding(crate::specs::Reading::header_fault))]
pub fn header_fault(bytes: &[u8], headers: &[Header]) -> Option<ElfFault>
    requires header { 64 ≤ length bytes.now }
    requires table { table_end bytes.now ≤ length bytes.now }
    requires count { length headers.now ≡ shnum bytes.now - 1 }
    ensures value { result ≡ header_fault bytes.now headers.now }
    ensures within { result ≡ None → list_any (passes (length bytes.now)) headers.now ≡ false }
    ensures plain { result ≡ None → list_any is_compressed headers.now ≡ false }
{
    let end = bytes.len() as u64;
    let shoff = number64(bytes, 40);
    let shnum = number16(bytes, 60);
    if any_passes(end, headers) {
        return fault(ElfKind::Truncated, end);
    }
    let table = shoff + 64 * u64::from(shnum);
    if table < end {
        return fault(ElfKind::Trailing, table);
    }
    if let Some(place) = first_compressed(headers) {
        return fault(ElfKind::Compressed, shoff + 64 * (place as u64 + 1));
    }
    if shnum < 2 {
        return fault(ElfKind::BadLayout, 60);
    }
    if number16(bytes, 62) != shnum - 1 {
        return fault(ElfKind::BadLayout, 60);
    }
    None
}
