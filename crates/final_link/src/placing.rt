//! The image of a plan's versions and kept arrays, whose code stands in parts.
ghost use Rattle.std.specs.Prelude.{◌≡◌, ◌<◌, ◌≤◌, ◌+◌, ◌-◌, ◌*◌, ◌^◌, ◌++◌, ◌==◌, ◌&&◌, find, length, vec_len, All, IfOk, OnOk};
ghost use Rattle.std.specs.List.{AllByRecursion, flat_map};
ghost use Rattle.elf_container.specs.Relocatable.{IsObject};
ghost use Rattle.final_link.specs.Stubs.{functions_address};
ghost use Rattle.final_link.specs.Image.{word, round_up};
ghost use Rattle.final_link.specs.Members.{Fits, HasFrame, member_words, largest_frame};
ghost use Rattle.final_link.specs.Symbols.{code_end, symbols_of};
ghost use Rattle.final_link.specs.Placing.{placed_words, code_from, is_first_of, main_address, placed_image, IsPlaceable};

use crate::arrays::{array_symbols, stored_bytes, zeroed_size};
use crate::bytes::put_words;
use crate::filling::fill;
use crate::image::{FUNCTIONS, make_image};
use crate::members::{
    Member, frame_size, member_in, members_of, relocations_of, symbols_of as symbols_in, words_of,
};
use crate::names::NameTable;
use crate::symbols::{code_end, symbols_of};
use elf_container::RelocObject;
use gimple_ir::{Merged, NoMemory, Plan, Version};
use std::alloc::Global;

// The size of the largest frame of the versions, in bytes.
fn largest_frame(
    parts: &[RelocObject],
    members: &NameTable<'_, Member>,
    versions: &[Version],
) -> u64
    requires { AllByRecursion (λ e. Fits parts.now e.1) members.now }
    ensures { result ≡ largest_frame parts.now members.now versions.now }
{
    let mut largest = 0;
    for version in versions {
        let member = member_in(members, &version.symbol);
        largest = largest.max(frame_size(words_of(parts, member)));
    }
    largest
}

// Appends the words of a member at an address, with their relocated fields filled.
fn put_member(
    alloc: Global,
    out: &mut Vec<u8>,
    parts: &[RelocObject],
    symbols: &NameTable<'_, u32>,
    at: u32,
    member: Member,
) -> Result<(), NoMemory>
    requires objects { All IsObject parts.now }
    requires fits { Fits parts.now member }
    requires near { at < 2 ^ 31 }
    requires short { member.size < 2 ^ 31 }
    ensures bytes { OnOk result (out.new.items ≡ out.old.items ++ flat_map word (placed_words parts.now symbols.now at member)) }
    ensures len { OnOk result (vec_len out.new ≡ vec_len out.old + member.size) }
{
    let mut words = Vec::from_slice(alloc, words_of(parts, member))?;
    let relocations = relocations_of(parts, member);
    let of_part = symbols_in(parts, member.part);
    fill(&mut words, at, member.start, relocations, symbols, of_part);
    put_words(out, words.as_slice())
}

// The code of the versions.
fn code_of(
    alloc: Global,
    parts: &[RelocObject],
    members: &NameTable<'_, Member>,
    symbols: &NameTable<'_, u32>,
    versions: &[Version],
) -> Result<Vec<u8>, NoMemory>
    requires objects { All IsObject parts.now }
    requires fits { AllByRecursion (λ e. Fits parts.now e.1) members.now }
    requires text { code_end members.now versions.now < 2 ^ 31 }
    ensures bytes { IfOk result (λ code. code.items ≡ flat_map word (code_from parts.now members.now symbols.now functions_address versions.now)) }
    ensures len { IfOk result (λ code. functions_address + vec_len code ≡ code_end members.now versions.now) }
{
    let mut code = Vec::new(alloc);
    let mut at = FUNCTIONS;
    for version in versions {
        let member = member_in(members, &version.symbol);
        put_member(alloc, &mut code, parts, symbols, at, member)?;
        at += member.size as u32;
    }
    Ok(code)
}

fn is_first_of(function: u32, version: &Version) -> bool
    ensures { result ≡ is_first_of function version.now }
{
    version.function == function && version.number == 0
}

// Where version 0 of the function `main` begins.
fn main_address(symbols: &NameTable<'_, u32>, main: u32, versions: &[Version]) -> u32
    ensures { result ≡ main_address symbols.now main versions.now }
{
    for version in versions {
        if is_first_of(main, version) {
            return symbols.value(version.symbol.as_str(), 0);
        }
    }
    0
}

/// The image in which each version of the plan has the words of the part that defines it, with each relocated field filled
/// for its final address, in the plan's order, and the kept arrays stand behind the text. The parts may come in any order.
/// It takes the memory of the image, and as much again for the code and the stored arrays.
pub fn place(
    alloc: Global,
    plan: &Plan,
    merged: &Merged,
    parts: &[RelocObject],
) -> Result<Vec<u8>, NoMemory>
    requires { IsPlaceable plan.now merged.now parts.now }
    ensures { IfOk result (λ image. image.items ≡ placed_image plan.now merged.now parts.now) }
{
    let versions = plan.versions.as_slice();
    let kept = plan.arrays.as_slice();
    let members = members_of(alloc, parts)?;
    let arrays = array_symbols(alloc, merged, kept, code_end(&members, versions))?;
    let symbols = symbols_of(alloc, &members, versions, arrays.as_slice())?;
    let frame = largest_frame(parts, &members, versions) as u32;
    let code = code_of(alloc, parts, &members, &symbols, versions)?;
    let stored = stored_bytes(alloc, merged, kept)?;
    let zeroed = zeroed_size(alloc, merged, kept)?;
    let main = main_address(&symbols, merged.main, versions);
    make_image(
        alloc,
        main,
        frame,
        code.as_slice(),
        stored.as_slice(),
        zeroed,
    )
}
